//! What the words of the command line ask for.

ghost use Rattle.std.specs.Prelude.{IfOk, map};
ghost use Rattle.std.specs.String.{string_bytes};
ghost use Rattle.pot_session.specs.Tasks.{Asks};

use pot_bytes::{NoMemory, Rack};
use pot_words::{Audit, Drill, Recover, Run, Task, read_words};
use std::alloc::Global;

/// What is asked for.
#[derive(PartialEq, Debug, Drop)]
pub(crate) enum Asked {
    /// An empty archive of this shape.
    Init(Rack),
    /// A session.
    Run(Run),
    /// A drill over two files.
    Drill(Drill),
    /// What archives hold, without a desk.
    Recover(Recover),
    /// What a coalition learns of the files.
    Audit(Audit),
    /// The script of this number, worked over archives in memory.
    Generate(u32),
    /// No task.
    Other,
}

/// What the words ask for.
pub(crate) fn read_task(alloc: Global, words: &[String]) -> Result<Asked, NoMemory>
    ensures { IfOk result (Asks (map string_bytes words.now)) }
{
    match read_words(alloc, words)? {
        Some(Task::Init(rack)) => Ok(Asked::Init(rack)),
        Some(Task::Run(run)) => Ok(Asked::Run(run)),
        Some(Task::Drill(drill)) => Ok(Asked::Drill(drill)),
        Some(Task::Recover(recover)) => Ok(Asked::Recover(recover)),
        Some(Task::Audit(audit)) => Ok(Asked::Audit(audit)),
        Some(Task::Generate(number)) => Ok(Asked::Generate(number)),
        None => Ok(Asked::Other),
    }
}
