//! The options of `run`.

ghost use Rattle.std.specs.Prelude.{IfOk, map};
ghost use Rattle.std.specs.String.{string_bytes};
ghost use Rattle.pot_options.specs.Options.{given};
ghost use Rattle.pot_words.specs.Answers.{IsOnly};
ghost use Rattle.pot_words.specs.Tasks.{HasRun, SpellRun};
ghost use Rattle.pot_words.specs.declared.run.Run.{Run};

use crate::values::{seed_of, small_number_or, yes_of};
use pot_bytes::NoMemory;
use pot_options::{Options, read_options};
use std::alloc::Global;

/// How a session is to run.
#[derive(Clone, Copy, PartialEq, Eq, Debug)]
pub struct Run {
    /// The seed of the random bytes. `None` where it is to be drawn.
    pub seed: Option<[u8; 32]>,
    /// The number of workers, 1 to 16; 4 where it is not stated.
    pub workers: u8,
    /// Whether a close that could not keep its image tells so, whatever failed before.
    pub careful: bool,
}

static NAMES: [&str; 3] = ["seed", "workers", "careful"];

/// The task that the words after `run` spell.
pub fn read_run(alloc: Global, words: &[String]) -> Result<Option<Run>, NoMemory>
    ensures { IfOk result (IsOnly (SpellRun (map string_bytes words.now))) }
{
    match read_options(alloc, NAMES.as_slice(), words)? {
        Some(options) => Ok(run_of(&options)),
        None => Ok(None),
    }
}

// The task that the options give.
fn run_of(options: &Options<'_>) -> Option<Run>
    ensures { IsOnly (λ (r : Run). HasRun r (given options.now)) result }
{
    let seed = seed_of(options, "seed")?;
    let workers = small_number_or(options, "workers", 1, 16, 4)?;
    let careful = yes_of(options, "careful")?;
    Some(Run {
        seed,
        workers,
        careful,
    })
}
