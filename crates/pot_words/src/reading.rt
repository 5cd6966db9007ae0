ghost use Rattle.std.specs.Prelude.{◌∷◌, IfOk, IfSome, map};
ghost use Rattle.std.specs.String.{string_bytes};
ghost use Rattle.pot_words.specs.Answers.{IsOnly};
ghost use Rattle.pot_words.specs.Limits.{IsWithinLimits};
ghost use Rattle.pot_words.specs.Tasks.{SpellCommand, SpellTask};

use crate::audit::read_audit;
use crate::command::Command;
use crate::drill::read_drill;
use crate::generate::read_generate;
use crate::init::read_init;
use crate::recover::read_recover;
use crate::run::read_run;
use crate::task::Task;
use pot_bytes::NoMemory;
use std::alloc::Global;

/// The only task that the words spell. `None` exactly where they spell none.
pub fn read_words(alloc: Global, words: &[String]) -> Result<Option<Task>, NoMemory>
    ensures only { IfOk result (IsOnly (SpellTask (map string_bytes words.now))) }
    ensures limits { IfOk result (λ r. IfSome r IsWithinLimits) }
{
    match words {
        [] => Ok(None),
        [word, rest @ ..] => read_line(alloc, word.as_str(), rest),
    }
}

// The task that the first word and those behind it spell.
fn read_line(alloc: Global, word: &str, rest: &[String]) -> Result<Option<Task>, NoMemory>
    ensures { IfOk result (IsOnly (SpellTask (word.now ∷ map string_bytes rest.now))) }
{
    match Command::named(word) {
        Some(command) => read_rest(alloc, command, rest),
        None => Ok(None),
    }
}

// The task that the words behind the command spell.
fn read_rest(alloc: Global, command: Command, rest: &[String]) -> Result<Option<Task>, NoMemory>
    ensures { IfOk result (IsOnly (SpellCommand command (map string_bytes rest.now))) }
{
    match command {
        Command::Init => Ok(read_init(alloc, rest)?.map(Task::Init)),
        Command::Run => Ok(read_run(alloc, rest)?.map(Task::Run)),
        Command::Generate => Ok(read_generate(rest).map(Task::Generate)),
        Command::Recover => Ok(read_recover(alloc, rest)?.map(Task::Recover)),
        Command::Drill => Ok(read_drill(alloc, rest)?.map(Task::Drill)),
        Command::Audit => Ok(read_audit(alloc, rest)?.map(Task::Audit)),
    }
}
