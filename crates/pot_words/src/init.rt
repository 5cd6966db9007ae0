//! The options of `init`.

ghost use Rattle.std.specs.Prelude.{IfOk, map};
ghost use Rattle.std.specs.String.{string_bytes};
ghost use Rattle.pot_bytes.specs.declared.rack.Geometry.{Geometry};
ghost use Rattle.pot_bytes.specs.declared.rack.Rack.{Rack};
ghost use Rattle.pot_options.specs.Options.{given};
ghost use Rattle.pot_words.specs.Answers.{IsOnly};
ghost use Rattle.pot_words.specs.Tasks.{HasGeometry, HasInit, SpellInit};

use crate::values::{number_of, small_number_of, small_number_or};
use pot_bytes::{Geometry, NoMemory, Rack};
use pot_options::{Options, read_options};
use std::alloc::Global;

static NAMES: [&str; 8] = [
    "groups",
    "columns",
    "parity",
    "stripes",
    "fragments",
    "need",
    "shards",
    "blur",
];

/// The rack that the words after `init` spell.
pub fn read_init(alloc: Global, words: &[String]) -> Result<Option<Rack>, NoMemory>
    ensures { IfOk result (IsOnly (SpellInit (map string_bytes words.now))) }
{
    match read_options(alloc, NAMES.as_slice(), words)? {
        Some(options) => Ok(rack_of(&options)),
        None => Ok(None),
    }
}

// The rack that the options give, where it fits.
fn rack_of(options: &Options<'_>) -> Option<Rack>
    ensures { IsOnly (λ (rack : Rack). HasInit rack (given options.now)) result }
{
    let groups = small_number_of(options, "groups", 1, 16)?;
    let columns = small_number_of(options, "columns", 1, 16)?;
    let parity = small_number_or(options, "parity", 1, 2, 1)?;
    let stripes = number_of(options, "stripes", 1, 4096)?;
    let geometry = geometry_of(options)?;
    let rack = Rack {
        groups,
        columns,
        parity,
        stripes,
        geometry,
    };
    if rack.fits() { Some(rack) } else { None }
}

/// The geometry that the options give, where it is within the limits.
pub fn geometry_of(options: &Options<'_>) -> Option<Geometry>
    ensures { IsOnly (λ (g : Geometry). HasGeometry g (given options.now)) result }
{
    let fragments = small_number_of(options, "fragments", 2, 8)?;
    let need = small_number_of(options, "need", 1, 16)?;
    let shards = small_number_of(options, "shards", 1, 16)?;
    let blur = small_number_of(options, "blur", 0, 63)?;
    if need > shards {
        return None;
    }
    Some(Geometry {
        fragments,
        need,
        shards,
        blur,
    })
}
