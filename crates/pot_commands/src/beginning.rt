//! The moves of a batch, which begin in the order of its lines before any of its jobs does.
ghost use Rattle.std.specs.Prelude.{◌≡◌, ◌≢◌, ◌<◌, ◌≤◌, ◌+◌, ◌^◌, List, Err, IfOk, IsTrue, IsErrOf};
ghost use Rattle.std.specs.Prelude.{MatchResult, flat_map, length};
ghost use Rattle.std.specs.List.{AllByRecursion};
ghost use Rattle.pot_outside.specs.Counts.{Caused};
ghost use Rattle.pot_replies.specs.Settings.{Setting};
ghost use Rattle.pot_replies.specs.Sections.{mine, IsOfJobs, IsSilent};
ghost use Rattle.pot_replies.specs.Sessions.{Together};
ghost use Rattle.pot_shared.specs.Works.{JobWroteOnly, JobOnlyWriter, IsSettingOf, section_of};
ghost use Rattle.pot_shared.specs.Callers.{CanCall};
ghost use Rattle.pot_commands.specs.declared.beginning.Task.{Task};
ghost use Rattle.pot_commands.specs.Begun.{HasTask, HaveTasks, LineBegins, AreMovesBegun};
ghost use Rattle.pot_commands.specs.Failures.{FailsOwn};
ghost use Rattle.pot_commands.specs.Steps.{AsksArchive, AsksRoom, IsBatched};
ghost use Rattle.pot_commands.specs.Taking.{AreUsed, Took, asks};

use crate::arriving::Unanswered;
use crate::moving::begin_move;
use crate::sharing::Shared;
use pot_mend::MoveAt;
use pot_outside::Room;
use pot_script::{Command, Reply};
use pot_shared::Passes;
use std::sync::Wait;

/// What the job of a line has to do, once the moves of its batch have begun.
#[derive(Drop)]
pub enum Task {
    /// It works the line, which moves nothing.
    Line,
    /// It carries a move on, which began or stood.
    Move { at: MoveAt },
    /// Nothing: the line began no move, and has this reply.
    Told { reply: Reply },
}

/// Begins the moves of the lines in order, as jobs numbered from this one on, and answers the tasks
/// of the jobs. An archive that a line asks for is taken from the room.
///
/// # Errors
/// `RoomFailed` exactly where the room failed itself, or `NoMemory`. The moves of the lines before
/// have begun then, and no other.
pub(crate) fn begin_lines<R: Room, X: Wait>(
    shared: &Shared<'_, R::A, X>,
    passes: &mut Passes<R::A>,
    job: u32,
    lines: &[Command],
    room: &mut R,
) -> Result<Vec<Task>, Unanswered>
    requires can { CanCall shared.now.vault.now passes.old }
    requires job { (0 < job) × (job + length lines.now ≤ 2 ^ 31) }
    requires batched { AllByRecursion (IsBatched shared.now.vault.now.rack.groups) lines.now }
    requires used { AreUsed (R.meaning room.old) passes.old.groups }
    ensures can { CanCall shared.now.vault.now passes.new }
    ensures index { passes.new.index ≡ passes.old.index }
    ensures tasks { let rack = shared.now.vault.now.rack in
        IfOk result (λ tasks. HaveTasks rack lines.now tasks.items) }
    ensures begun { let old = passes.old in let new = passes.new in
        let rack = shared.now.vault.now.rack in
        MatchResult result (λ tasks. AreMovesBegun rack job lines.now tasks.items old new)
        (λ e. (ts : List Task) × AreMovesBegun rack job lines.now ts old new) }
    ensures asked { IsErrOf result Unanswered.RoomFailed → AsksRoom (Together lines.now) }
    ensures used { AreUsed (R.meaning room.new) passes.new.groups }
    ensures took { Took (IsTrue R.A.account.tells) (result ≢ Err Unanswered.RoomFailed)
        (flat_map asks lines.now)
        (R.meaning room.old) (R.meaning room.new)
        passes.old passes.new }
    ensures cause { Caused (R.meaning room.old).faults (R.meaning room.new).faults
        (IsErrOf result Unanswered.RoomFailed) }
    ensures own { FailsOwn (R.meaning room.old).failures (R.meaning room.new).failures
        (IsErrOf result Unanswered.RoomFailed) }
{
    let Ok(mut tasks) = Vec::with_capacity(shared.alloc, lines.len()) else {
        return Err(Unanswered::NoMemory);
    };
    for (index, line) in lines.iter().enumerate() {
        let number = job + index as u32;
        match begin_line(shared, passes, number, line, room) {
            Ok(task) => tasks.push_reserved(task),
            Err(unanswered) => return Err(unanswered),
        }
    }
    Ok(tasks)
}

/// Begins the move of a line, where it is a `migrate`, and answers the task of its job.
///
/// # Errors
/// `RoomFailed` exactly where the room failed itself, or `NoMemory`. Nothing was logged then.
fn begin_line<R: Room, X: Wait>(
    shared: &Shared<'_, R::A, X>,
    passes: &mut Passes<R::A>,
    job: u32,
    line: &Command,
    room: &mut R,
) -> Result<Task, Unanswered>
    requires can { CanCall shared.now.vault.now passes.old }
    requires job { 0 < job }
    requires batched { IsBatched shared.now.vault.now.rack.groups line.now }
    requires used { AreUsed (R.meaning room.old) passes.old.groups }
    ensures can { CanCall shared.now.vault.now passes.new }
    ensures index { passes.new.index ≡ passes.old.index }
    ensures worked { JobWroteOnly job passes.old passes.new }
    ensures task { IfOk result (λ t. HasTask shared.now.vault.now.rack line.now t) }
    ensures says { let old = passes.old in let new = passes.new in
        JobOnlyWriter job old new → (s : Setting) → IsSettingOf s shared.now.vault.now.rack old
        → MatchResult result (λ t. IsOfJobs job 1 (section_of old new)
        → LineBegins s job line.now t (section_of old new))
        (λ e. IsSilent (mine job (section_of old new))) }
    ensures asked { IsErrOf result Unanswered.RoomFailed → AsksArchive line.now }
    ensures used { AreUsed (R.meaning room.new) passes.new.groups }
    ensures took { Took (IsTrue R.A.account.tells) (result ≢ Err Unanswered.RoomFailed)
        (asks line.now)
        (R.meaning room.old) (R.meaning room.new)
        passes.old passes.new }
    ensures cause { Caused (R.meaning room.old).faults (R.meaning room.new).faults
        (IsErrOf result Unanswered.RoomFailed) }
    ensures own { FailsOwn (R.meaning room.old).failures (R.meaning room.new).failures
        (IsErrOf result Unanswered.RoomFailed) }
{
    match line {
        Command::Migrate { from, to } => {
            match begin_move(shared, passes, job, *from, *to, room) {
                Ok(at) => Ok(Task::Move { at }),
                Err(Ok(reply)) => Ok(Task::Told { reply }),
                Err(Err(unanswered)) => Err(unanswered),
            }
        }
        _ => Ok(Task::Line),
    }
}
