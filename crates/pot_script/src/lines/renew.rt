ghost use Rattle.std.specs.Prelude.{◌≡◌, ◌≢◌, MatchOption};
ghost use Rattle.pot_bytes.specs.declared.rack.Geometry.{Geometry};
ghost use Rattle.pot_index.specs.Fits.{FitsGeometry};
ghost use Rattle.pot_script.specs.Commands.{geometry_words};
ghost use Rattle.pot_script.specs.Lines.{ReadsLine};
ghost use Rattle.pot_script.specs.declared.kind.Kind.TheVariants as kinds;

use crate::command::Command;
use crate::words::Words;
use pot_bytes::{Geometry, Rack};

/// `renew NAME K M N BLUR`: the name, and how its file is split anew, in K fragments with a
/// threshold of M out of N shards and a blur of BLUR bits.
pub fn read_renew(mut words: Words, rack: &Rack) -> Option<Command>
    ensures { ReadsLine rack.now kinds.Renew words.entry result }
{
    let name = words.next_name()?;
    let geometry = read_geometry(words, rack)?;
    Some(Command::Renew { name, geometry })
}

// The four words that are left, a geometry that fits the rack.
fn read_geometry(mut words: Words, rack: &Rack) -> Option<Geometry>
    ensures { MatchOption result
        ((g : Geometry) → FitsGeometry rack.now g → words.entry ≢ geometry_words g)
        (λ g. FitsGeometry rack.now g × (words.entry ≡ geometry_words g)) }
{
    let fragments = words.next_number(8)? as u8;
    let need = words.next_number(16)? as u8;
    let shards = words.next_number(16)? as u8;
    let blur = words.next_number(63)? as u8;
    words.end()?;
    let geometry = Geometry {
        fragments,
        need,
        shards,
        blur,
    };
    if geometry.fits(rack.groups) {
        Some(geometry)
    } else {
        None
    }
}
