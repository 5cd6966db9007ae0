//! The options of `recover`.

ghost use Rattle.std.specs.Prelude.{IfOk, map};
ghost use Rattle.std.specs.String.{string_bytes};
ghost use Rattle.pot_options.specs.Options.{given};
ghost use Rattle.pot_words.specs.Answers.{IsOnly};
ghost use Rattle.pot_words.specs.Tasks.{HasRecover, HasWay, IsWay, SpellRecover};
ghost use Rattle.pot_words.specs.declared.recover.Recover.{Recover};

use crate::values::{number_of, small_number_of, yes_of};
use pot_bytes::NoMemory;
use pot_options::{Options, read_options};
use std::alloc::Global;

/// By what files are found.
#[derive(Clone, Copy, PartialEq, Eq, Debug)]
pub enum Way {
    /// By rings that close.
    Rings,
    /// By rings some of whose shares may be wrong.
    Robust,
    /// By chains that need not close: m shards that follow one another.
    Chains,
}

/// Where files are to be found without a desk.
#[derive(Clone, Copy, PartialEq, Eq, Debug)]
pub struct Recover {
    /// How many archives are read, from archive 0 on: 1 to 512.
    pub archives: u32,
    /// How many slots of each are read: 1 to 4,096.
    pub stripes: u32,
    /// The number of low bits that a pointer leaves out, at most 63.
    pub blur: u8,
    pub way: Way,
    /// Whether the work is bounded by a lower number of chains, so that forged blocks cost seconds.
    pub bounded: bool,
}

static NAMES: [&str; 6] = ["archives", "stripes", "blur", "robust", "open", "bounded"];

/// The task that the words after `recover` spell.
pub fn read_recover(alloc: Global, words: &[String]) -> Result<Option<Recover>, NoMemory>
    ensures { IfOk result (IsOnly (SpellRecover (map string_bytes words.now))) }
{
    match read_options(alloc, NAMES.as_slice(), words)? {
        Some(options) => Ok(recover_of(&options)),
        None => Ok(None),
    }
}

// The task that the options give.
fn recover_of(options: &Options<'_>) -> Option<Recover>
    ensures { IsOnly (λ (r : Recover). HasRecover r (given options.now)) result }
{
    let archives = number_of(options, "archives", 1, 512)?;
    let stripes = number_of(options, "stripes", 1, 4096)?;
    let blur = small_number_of(options, "blur", 0, 63)?;
    let way = way_of(options)?;
    let bounded = yes_of(options, "bounded")?;
    Some(Recover {
        archives,
        stripes,
        blur,
        way,
        bounded,
    })
}

// The way that two options name. At most one of them is `yes`.
fn way_of(options: &Options<'_>) -> Option<Way>
    ensures { IsOnly (HasWay (given options.now)) result }
{
    let robust = yes_of(options, "robust")?;
    let chains = yes_of(options, "open")?;
    one_way(robust, chains)
}

// The way, where at most one is asked for.
fn one_way(robust: bool, chains: bool) -> Option<Way>
    ensures { IsOnly (IsWay robust chains) result }
{
    match (robust, chains) {
        (false, false) => Some(Way::Rings),
        (true, false) => Some(Way::Robust),
        (false, true) => Some(Way::Chains),
        (true, true) => None,
    }
}
