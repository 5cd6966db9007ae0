//! Archives that come from the room for a command.
ghost use Rattle.std.specs.Prelude.{◌≡◌, ◌<◌, ◌≢◌, ℕ, [], ◌∷◌, Err, true, false};
ghost use Rattle.std.specs.Prelude.{IfOk, IsTrue, IsErrOf, OnErr, OnOk, MatchResult};
ghost use Rattle.pot_outside.specs.Rooms.{StaysAt};
ghost use Rattle.pot_outside.specs.Archives.{IsMeant};
ghost use Rattle.pot_outside.specs.Counts.{Caused};
ghost use Rattle.pot_replies.specs.Settings.{Setting};
ghost use Rattle.pot_replies.specs.Sections.{mine, IsOfJobs, IsSilent};
ghost use Rattle.pot_shared.specs.Works.{JobWroteOnly, JobOnlyWriter, IsSettingOf, section_of};
ghost use Rattle.pot_shared.specs.Callers.{CanCall};
ghost use Rattle.pot_commands.specs.Failures.{FailsOwn};
ghost use Rattle.pot_commands.specs.Arriving.{HandsBack, use_reply};
ghost use Rattle.pot_commands.specs.Rows.{IsReplaceReply};
ghost use Rattle.pot_commands.specs.Taking.{AreUsed, Took};

use crate::sharing::Shared;
use pot_group::{ShelfCause, ShelfRefused};
use pot_mend::{UseFault, check_replace};
use pot_outside::{Failed, Room, RoomFault, Shelf};
use pot_script::Reply;
use pot_shared::{ColumnAt, Passes};
use std::sync::Wait;

/// Why a command has no replies.
#[derive(Clone, Copy, PartialEq, Eq, Debug)]
pub enum Unanswered {
    /// The room did not give an archive, or did not take one back.
    RoomFailed,
    NoMemory,
}

/// Takes an archive from the room, and lets it take the place of a column's home. A shelf that the
/// group refuses is given back to the room at once.
///
/// # Errors
/// `RoomFailed` exactly where the room itself failed, or `NoMemory`. Nothing was logged then.
pub(crate) fn replace_archive<R: Room, X: Wait>(
    shared: &Shared<'_, R::A, X>,
    passes: &mut Passes<R::A>,
    job: u32,
    from: u32,
    to: u32,
    room: &mut R,
) -> Result<Reply, Unanswered>
    requires can { CanCall shared.now.vault.now passes.old }
    requires job { 0 < job }
    requires used { AreUsed (R.meaning room.old) passes.old.groups }
    ensures can { CanCall shared.now.vault.now passes.new }
    ensures index { passes.new.index ≡ passes.old.index }
    ensures worked { JobWroteOnly job passes.old passes.new }
    ensures says { let old = passes.old in let new = passes.new in
        let w = section_of old new in
        JobOnlyWriter job old new → (s : Setting) → IsSettingOf s shared.now.vault.now.rack old
        → MatchResult result
        (λ reply. IsOfJobs job 1 w → IsReplaceReply s job from to reply (mine job w))
        (λ e. IsSilent (mine job w)) }
    ensures used { AreUsed (R.meaning room.new) passes.new.groups }
    ensures took { Took (IsTrue R.A.account.tells) (result ≢ Err Unanswered.RoomFailed) (to ∷ [])
        (R.meaning room.old) (R.meaning room.new)
        passes.old passes.new }
    ensures cause { Caused (R.meaning room.old).faults (R.meaning room.new).faults
        (IsErrOf result Unanswered.RoomFailed) }
    ensures own { FailsOwn (R.meaning room.old).failures (R.meaning room.new).failures
        (IsErrOf result Unanswered.RoomFailed) }
{
    let Shared { rt, vault, .. } = *shared;
    let at = match check_replace(rt, vault, passes, from, to) {
        Ok(at) => at,
        Err(fault) => return Ok(use_reply(fault)),
    };
    let shelf = take_shelf(room, to)?;
    let column = ColumnAt {
        group: at.group,
        column: at.column,
    };
    match vault.swap(rt, passes, job, column, shelf) {
        Ok(slots) => Ok(Reply::Replaced { from, to, slots }),
        Err(refused) => hand_back(room, at.group, refused),
    }
}

/// The reply to a line whose archives can't be used so.
pub(crate) fn use_reply(fault: UseFault) -> Reply
    ensures { result ≡ use_reply fault }
{
    match fault {
        UseFault::NoSuchArchive { number } => Reply::NoArchive { number },
        UseFault::InUse { number } => Reply::InUse { number },
    }
}

/// Takes the archive of a number from the room as a shelf.
///
/// # Errors
/// `RoomFailed` exactly where the room itself failed, or `NoMemory`. The room then lends and means
/// what it did.
pub(crate) fn take_shelf<R: Room>(room: &mut R, number: u32) -> Result<Shelf<R::A>, Unanswered>
    requires home { (R.meaning room.old).out number ≡ false }
    ensures number { IfOk result (λ shelf. shelf.number ≡ number) }
    ensures told { IfOk result (λ shelf. IsTrue R.A.account.tells
        → IsMeant ((R.meaning room.old).means number) (R.A.account.meaning shelf.archive)) }
    ensures taken { OnOk result ((R.meaning room.new).out number ≡ true) }
    ensures stays { OnErr result ((n : ℕ) → StaysAt (R.meaning room.old) (R.meaning room.new) n) }
    ensures others { (n : ℕ) → n ≢ number → StaysAt (R.meaning room.old) (R.meaning room.new) n }
    ensures cause { Caused (R.meaning room.old).faults (R.meaning room.new).faults
        (IsErrOf result Unanswered.RoomFailed) }
    ensures own { FailsOwn (R.meaning room.old).failures (R.meaning room.new).failures
        (IsErrOf result Unanswered.RoomFailed) }
{
    match room.take(number) {
        Ok(archive) => Ok(Shelf { number, archive }),
        Err(RoomFault::Failed) => Err(Unanswered::RoomFailed),
        Err(RoomFault::NoMemory) => Err(Unanswered::NoMemory),
    }
}

/// Gives a shelf that a group refused back to the room, and answers why it was refused.
///
/// # Errors
/// `RoomFailed` exactly where the room itself failed; the archive may be lost then. `NoMemory`
/// where the group had none.
pub(crate) fn hand_back<R: Room>(
    room: &mut R,
    group: u8,
    refused: ShelfRefused<R::A>,
) -> Result<Reply, Unanswered>
    requires out { (R.meaning room.old).out refused.shelf.number ≡ true }
    ensures back { (R.meaning room.new).out refused.shelf.number ≡ false }
    ensures others { (n : ℕ) → n ≢ refused.shelf.number
        → StaysAt (R.meaning room.old) (R.meaning room.new) n }
    ensures told { (result ≢ Err Unanswered.RoomFailed) → IsTrue R.A.account.tells
        → IsMeant ((R.meaning room.new).means refused.shelf.number)
        (R.A.account.meaning refused.shelf.archive) }
    ensures answer { HandsBack group refused.cause result }
    ensures cause { Caused (R.meaning room.old).faults (R.meaning room.new).faults
        (IsErrOf result Unanswered.RoomFailed) }
    ensures own { FailsOwn (R.meaning room.old).failures (R.meaning room.new).failures
        (IsErrOf result Unanswered.RoomFailed) }
{
    let ShelfRefused { shelf, cause } = refused;
    let Shelf { number, archive } = shelf;
    if let Err(Failed) = room.give(number, archive) {
        return Err(Unanswered::RoomFailed);
    }
    match cause {
        ShelfCause::LogFull => Ok(Reply::LogFull { group }),
        ShelfCause::InUse { number } => Ok(Reply::InUse { number }),
        ShelfCause::NoMemory => Err(Unanswered::NoMemory),
    }
}
