//! A column that moves to an archive from the room.
ghost use Rattle.std.specs.Prelude.{◌≡◌, ◌<◌, ◌≢◌, ◌+◌, [], ◌∷◌, Err};
ghost use Rattle.std.specs.Prelude.{IfOk, IsTrue, IsErrOf, MatchResult, length};
ghost use Rattle.pot_outside.specs.Counts.{Caused};
ghost use Rattle.pot_replies.specs.Settings.{Setting};
ghost use Rattle.pot_replies.specs.Sections.{mine, work_of, MovesThenRest, IsOfJobs, IsSilent};
ghost use Rattle.pot_shared.specs.Works.{JobWroteOnly, JobOnlyWriter, IsSettingOf, section_of};
ghost use Rattle.pot_shared.specs.Callers.{CanCall};
ghost use Rattle.pot_commands.specs.Failures.{FailsOwn};
ghost use Rattle.pot_commands.specs.Arriving.{HasBegun, Unbegins, move_reply};
ghost use Rattle.pot_commands.specs.Rows.{IsMigrateReply};
ghost use Rattle.pot_commands.specs.Taking.{AreUsed, Took};

use crate::arriving::{Unanswered, hand_back, take_shelf, use_reply};
use crate::sharing::Shared;
use pot_mend::{MendFault, MoveAt, check_migrate, migrate};
use pot_outside::Room;
use pot_script::Reply;
use pot_shared::{ColumnAt, Passes};
use std::sync::Wait;

/// Moves a column from one archive to another: the column begins to move to an archive that is
/// taken from the room, unless it moves there already, and then moves to its end. A shelf that the
/// group refuses is given back to the room at once.
///
/// # Errors
/// `RoomFailed` exactly where the room itself failed, or `NoMemory`. Nothing was logged then.
pub(crate) fn migrate_archive<R: Room, X: Wait>(
    shared: &Shared<'_, R::A, X>,
    passes: &mut Passes<R::A>,
    job: u32,
    from: u32,
    to: u32,
    room: &mut R,
) -> Result<Reply, Unanswered>
    requires can { CanCall shared.now.vault.now passes.old }
    requires job { 0 < job }
    requires used { AreUsed (R.meaning room.old) passes.old.groups }
    ensures can { CanCall shared.now.vault.now passes.new }
    ensures index { passes.new.index ≡ passes.old.index }
    ensures worked { JobWroteOnly job passes.old passes.new }
    ensures says { let old = passes.old in let new = passes.new in
        let w = section_of old new in
        JobOnlyWriter job old new → (s : Setting) → IsSettingOf s shared.now.vault.now.rack old
        → MatchResult result (λ reply. IsOfJobs job 1 w → (h : MovesThenRest w)
        × IsMigrateReply s w.before h.begun job from to reply (work_of w h))
        (λ e. IsSilent (mine job w)) }
    ensures used { AreUsed (R.meaning room.new) passes.new.groups }
    ensures took { Took (IsTrue R.A.account.tells) (result ≢ Err Unanswered.RoomFailed) (to ∷ [])
        (R.meaning room.old) (R.meaning room.new)
        passes.old passes.new }
    ensures cause { Caused (R.meaning room.old).faults (R.meaning room.new).faults
        (IsErrOf result Unanswered.RoomFailed) }
    ensures own { FailsOwn (R.meaning room.old).failures (R.meaning room.new).failures
        (IsErrOf result Unanswered.RoomFailed) }
{
    let at = match begin_move(shared, passes, job, from, to, room) {
        Ok(at) => at,
        Err(answer) => return answer,
    };
    let moved = migrate(shared.rt, shared.vault, passes, at.group, job, at.column);
    Ok(move_reply(from, to, moved))
}

/// Lets a column begin to move to an archive that is taken from the room, unless it moves there
/// already.
///
/// # Errors
/// The answer to the line, where no move began. Nothing was logged then.
pub(crate) fn begin_move<R: Room, X: Wait>(
    shared: &Shared<'_, R::A, X>,
    passes: &mut Passes<R::A>,
    job: u32,
    from: u32,
    to: u32,
    room: &mut R,
) -> Result<MoveAt, Result<Reply, Unanswered>>
    requires can { CanCall shared.now.vault.now passes.old }
    requires job { 0 < job }
    requires used { AreUsed (R.meaning room.old) passes.old.groups }
    ensures can { CanCall shared.now.vault.now passes.new }
    ensures index { passes.new.index ≡ passes.old.index }
    ensures worked { JobWroteOnly job passes.old passes.new }
    ensures place { let rack = shared.now.vault.now.rack in
        IfOk result (λ at. (at.group < length shared.now.vault.now.groups)
        × (at.column < rack.columns + rack.parity)) }
    ensures says { let old = passes.old in let new = passes.new in
        let w = section_of old new in
        JobOnlyWriter job old new → (s : Setting) → IsSettingOf s shared.now.vault.now.rack old
        → MatchResult result
        (λ at. IsOfJobs job 1 w → HasBegun s job from to at.group at.column w)
        (λ e. Unbegins s job from to e w) }
    ensures used { AreUsed (R.meaning room.new) passes.new.groups }
    ensures took { Took (IsTrue R.A.account.tells) (result ≢ Err (Err Unanswered.RoomFailed))
        (to ∷ [])
        (R.meaning room.old) (R.meaning room.new)
        passes.old passes.new }
    ensures cause { Caused (R.meaning room.old).faults (R.meaning room.new).faults
        (IsErrOf result (Err Unanswered.RoomFailed)) }
    ensures own { FailsOwn (R.meaning room.old).failures (R.meaning room.new).failures
        (IsErrOf result (Err Unanswered.RoomFailed)) }
{
    let Shared { rt, vault, .. } = *shared;
    let at = match check_migrate(rt, vault, passes, from, to) {
        Ok(at) => at,
        Err(fault) => return Err(Ok(use_reply(fault))),
    };
    if at.resumes {
        return Ok(at);
    }
    let shelf = match take_shelf(room, to) {
        Ok(shelf) => shelf,
        Err(unanswered) => return Err(Err(unanswered)),
    };
    let column = ColumnAt {
        group: at.group,
        column: at.column,
    };
    match vault.move_begin(rt, passes, job, column, shelf) {
        Ok(()) => Ok(at),
        Err(refused) => Err(hand_back(room, at.group, refused)),
    }
}

/// The reply to a line whose column moves, by how far the move came.
pub(crate) fn move_reply(from: u32, to: u32, moved: Result<u32, MendFault>) -> Reply
    ensures { result ≡ move_reply from to moved }
{
    match moved {
        Ok(slots) => Reply::Migrated { from, to, slots },
        Err(MendFault::Faulted { group, column }) => Reply::Fault { group, column },
        Err(MendFault::LogFull { group }) => Reply::LogFull { group },
    }
}
