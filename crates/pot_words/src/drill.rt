//! The options of `drill`.

ghost use Rattle.std.specs.Prelude.{IfOk, map};
ghost use Rattle.std.specs.String.{string_bytes};
ghost use Rattle.pot_options.specs.Options.{given};
ghost use Rattle.pot_words.specs.Answers.{IsOnly};
ghost use Rattle.pot_words.specs.Tasks.{HasDrill, SpellDrill};
ghost use Rattle.pot_words.specs.declared.drill.Drill.{Drill};

use crate::init::geometry_of;
use crate::points::points_of;
use crate::values::{seed_of, small_number_of};
use arrayvec::ArrayVec;
use pot_bytes::{Geometry, NoMemory};
use pot_options::{Options, read_options};
use std::alloc::Global;

/// How it is shown that seen shards do not tell a file from another.
#[derive(PartialEq, Debug, Drop)]
pub struct Drill {
    /// How the file is split.
    pub geometry: Geometry,
    /// The fragment of which not all points are seen, from 1 on.
    pub hidden: u8,
    /// The points of the hidden fragment that are seen, ascending.
    pub seen: ArrayVec<u8, 16>,
    /// The seed of the random bytes. `None` where it is to be drawn.
    pub seed: Option<[u8; 32]>,
}

static NAMES: [&str; 7] = [
    "fragments",
    "need",
    "shards",
    "blur",
    "hidden",
    "seen",
    "seed",
];

/// The task that the words after `drill` spell.
pub fn read_drill(alloc: Global, words: &[String]) -> Result<Option<Drill>, NoMemory>
    ensures { IfOk result (IsOnly (SpellDrill (map string_bytes words.now))) }
{
    match read_options(alloc, NAMES.as_slice(), words)? {
        Some(options) => Ok(drill_of(&options)),
        None => Ok(None),
    }
}

// The task that the options give.
fn drill_of(options: &Options<'_>) -> Option<Drill>
    ensures { IsOnly (λ (d : Drill). HasDrill d (given options.now)) result }
{
    let geometry = geometry_of(options)?;
    let hidden = small_number_of(options, "hidden", 1, geometry.fragments)?;
    let seen = points_of(options, "seen", geometry.shards)?;
    let seed = seed_of(options, "seed")?;
    Some(Drill {
        geometry,
        hidden,
        seen,
        seed,
    })
}
