//! One command, and its replies.
ghost use Rattle.std.specs.Prelude.{◌≢◌, ◌<◌, ◌^◌, ◌∷◌, [], ℕ, List, Err};
ghost use Rattle.std.specs.Prelude.{IsErrOf, IsTrue, MatchResult};
ghost use Rattle.pot_bytes.specs.declared.rack.Geometry.{Geometry};
ghost use Rattle.pot_outside.specs.Counts.{Caused};
ghost use Rattle.pot_rows.specs.Rows.{HasMoreParts};
ghost use Rattle.pot_replies.specs.Settings.{Setting};
ghost use Rattle.pot_replies.specs.Sections.{Section, mine, IsSilent};
ghost use Rattle.pot_shared.specs.Works.{JobWroteOnly, JobOnlyWriter, section_of};
ghost use Rattle.pot_store.specs.Stores.{StoreRow};
ghost use Rattle.pot_store.specs.Fetches.{FetchRow, IsUnfinished};
ghost use Rattle.pot_store.specs.Renewals.{RenewRow};
ghost use Rattle.pot_mend.specs.Scrubs.{ScrubRow};
ghost use Rattle.pot_mend.specs.Repairs.{RepairRow};
ghost use Rattle.pot_commands.specs.Blinding.{HasBlinds};
ghost use Rattle.pot_shared.specs.Callers.{CanCall};
ghost use Rattle.pot_commands.specs.Sharing.{common_of};
ghost use Rattle.pot_commands.specs.Failures.{FailsOwn};
ghost use Rattle.pot_commands.specs.Rows.{HasFilled, IsSessionSetting, IsStoreReply, IsFetchReply};
ghost use Rattle.pot_commands.specs.Rows.{IsRenewReply, IsUnrenewed, IsScrubReply, IsRepairReply};
ghost use Rattle.pot_commands.specs.Rows.{AreReplies, IsIdleCommand, IsPlain, IsSingle, IsWorked};
ghost use Rattle.pot_commands.specs.Steps.{AsksArchive};
ghost use Rattle.pot_commands.specs.Taking.{AreUsed, Took, asks};

use crate::arriving::{Unanswered, replace_archive};
use crate::files::{fetch, list, renew, store};
use crate::listing::count_groups;
use crate::moving::migrate_archive;
use crate::sharing::Shared;
use pot_bytes::{Bytes, Name, NoMemory};
use pot_mend::{MendFault, Repaired, Scrubbed, repair_group, scrub_group};
use pot_outside::{Archive, Room};
use pot_pads::PadStream;
use pot_script::{Command, Reply};
use pot_shared::{Caller, Passes};
use pot_store::{FetchFault, RenewFileFault, StoreFault, Stored};
use std::sync::Wait;

/// The first of the numbers whose streams new splits are drawn from: the job's number is added.
const RENEWING: u32 = 0x8000_0000;

/// The reply to a store, by its answer. `ReservationLost` has none, and comes only where another
/// pass logged an entry of the job.
fn store_reply(name: &Name, answer: Result<Stored, StoreFault>) -> Result<Reply, NoMemory>
    ensures { (s : Setting) → (job : ℕ) → (file : List ℕ) → (w : Section)
        → StoreRow s job name.now file answer w
        → MatchResult result (λ reply. IsStoreReply s job name.now file reply w)
        (λ e. IsSilent (mine job w)) }
{
    let name = *name;
    match answer {
        Ok(stored) => Ok(Reply::Stored {
            name,
            pieces: stored.pieces,
            shards: stored.shards,
        }),
        Err(StoreFault::TooLong { length }) => Ok(Reply::Long { name, length }),
        Err(StoreFault::IndexLogFull) => Ok(Reply::IndexLogFull),
        Err(StoreFault::Exists) => Ok(Reply::Exists { name }),
        Err(StoreFault::Full { group }) => Ok(Reply::Full { group }),
        Err(StoreFault::Faulted { group, column }) => Ok(Reply::Fault { group, column }),
        Err(StoreFault::LogFull { group }) => Ok(Reply::LogFull { group }),
        Err(StoreFault::ReservationLost { at: _ }) => Err(NoMemory),
        Err(StoreFault::NoMemory) => Err(NoMemory),
    }
}

/// The reply to a fetch, by its answer.
fn fetch_reply(name: &Name, answer: Result<Vec<u8>, FetchFault>) -> Result<Reply, NoMemory>
    ensures { (s : Setting) → (job : ℕ) → (w : Section)
        → FetchRow s job name.now answer w
        → MatchResult result (λ reply. IsFetchReply s job name.now reply w)
        (λ e. IsUnfinished s job name.now w) }
{
    let name = *name;
    match answer {
        Ok(bytes) => Ok(Reply::File {
            name,
            bytes: Bytes::from_vec(bytes),
        }),
        Err(FetchFault::IndexLogFull) => Ok(Reply::IndexLogFull),
        Err(FetchFault::Absent) => Ok(Reply::Absent { name }),
        Err(FetchFault::Faulted { group, column }) => Ok(Reply::Fault { group, column }),
        Err(
            FetchFault::Lost {
                piece,
                fragment,
                have,
                need,
            },
        ) => Ok(Reply::Lost {
            name,
            piece,
            fragment,
            have,
            need,
        }),
        Err(FetchFault::LogFull { group }) => Ok(Reply::LogFull { group }),
        Err(FetchFault::Odd { wanted, found }) => Ok(Reply::Odd {
            name,
            wanted,
            found,
        }),
        Err(FetchFault::NoMemory) => Err(NoMemory),
    }
}

/// The reply to a renewal, by its answer.
fn renew_reply(name: &Name, answer: Result<Stored, RenewFileFault>) -> Result<Reply, NoMemory>
    ensures { (s : Setting) → (job : ℕ) → (geometry : Geometry) → (w : Section)
        → RenewRow s job name.now geometry answer w
        → MatchResult result (λ reply. IsRenewReply s job name.now geometry reply w)
        (λ e. IsUnrenewed s job name.now geometry w) }
{
    let name = *name;
    match answer {
        Ok(stored) => Ok(Reply::Renewed {
            name,
            pieces: stored.pieces,
            shards: stored.shards,
        }),
        Err(RenewFileFault::IndexLogFull) => Ok(Reply::IndexLogFull),
        Err(RenewFileFault::Absent) => Ok(Reply::Absent { name }),
        Err(RenewFileFault::TooOften) => Ok(Reply::Often { name }),
        Err(RenewFileFault::Faulted { group, column }) => Ok(Reply::Fault { group, column }),
        Err(
            RenewFileFault::Lost {
                piece,
                fragment,
                have,
                need,
            },
        ) => Ok(Reply::Lost {
            name,
            piece,
            fragment,
            have,
            need,
        }),
        Err(RenewFileFault::LogFull { group }) => Ok(Reply::LogFull { group }),
        Err(RenewFileFault::Odd { wanted, found }) => Ok(Reply::Odd {
            name,
            wanted,
            found,
        }),
        Err(RenewFileFault::Full { group }) => Ok(Reply::Full { group }),
        Err(RenewFileFault::NoMemory) => Err(NoMemory),
    }
}

/// The reply to a scrub, by its answer.
fn scrub_reply(group: u8, answer: Result<Scrubbed, MendFault>) -> Reply
    ensures { (s : Setting) → (job : ℕ) → (w : Section) → ScrubRow s job group answer w
        → IsScrubReply s job group result w }
{
    match answer {
        Ok(scrubbed) => Reply::Scrubbed {
            group,
            seen: scrubbed.seen,
            gone: scrubbed.gone,
        },
        Err(MendFault::Faulted { group, column }) => Reply::Fault { group, column },
        Err(MendFault::LogFull { group }) => Reply::LogFull { group },
    }
}

/// The reply to a repair, by its answer.
fn repair_reply(group: u8, answer: Result<Repaired, MendFault>) -> Reply
    ensures { (s : Setting) → (job : ℕ) → (w : Section) → RepairRow s job group answer w
        → IsRepairReply s job group result w }
{
    match answer {
        Ok(repaired) => Reply::Repaired {
            group,
            mended: repaired.mended,
            left: repaired.left,
        },
        Err(MendFault::Faulted { group, column }) => Reply::Fault { group, column },
        Err(MendFault::LogFull { group }) => Reply::LogFull { group },
    }
}

/// Works a command that has one reply.
pub(crate) fn answer_one<A: Archive, X: Wait>(
    shared: &Shared<'_, A, X>,
    passes: &mut Passes<A>,
    job: u32,
    command: &Command,
) -> Result<Reply, NoMemory>
    requires can { CanCall shared.now.vault.now passes.old }
    requires parts { HasMoreParts 1 passes.old.groups }
    requires job { (0 < job) × (job < 2 ^ 31) }
    requires single { IsSingle shared.now.vault.now.rack.groups command.now }
    ensures can { CanCall shared.now.vault.now passes.new }
    ensures worked { JobWroteOnly job passes.old passes.new }
    ensures blinds { HasBlinds (common_of shared.now) job command.now
        passes.old.groups passes.new.groups }
    ensures says { let old = passes.old in let new = passes.new in
        let w = section_of old new in
        JobOnlyWriter job old new → (s : Setting)
        → IsSessionSetting s shared.now.vault.now.rack shared.now.seed.now shared.now.session old
        → MatchResult result (λ reply. AreReplies s job command.now (reply ∷ []) w)
        (λ e. IsIdleCommand s job command.now w) }
{
    let Shared {
        rt,
        alloc,
        vault,
        seed,
        session,
    } = *shared;
    let caller = Caller {
        rt,
        alloc,
        vault,
        job,
    };
    match command {
        Command::Store { name, file } => {
            let pads = PadStream::new(seed, session, job);
            let stored = store(&caller, passes, name, file.as_slice(), pads);
            store_reply(name, stored)
        }
        Command::Fetch { name } => {
            let mut pads = PadStream::new(seed, session, job);
            let fetched = fetch(&caller, passes, name, &mut pads);
            fetch_reply(name, fetched)
        }
        Command::Renew { name, geometry } => {
            let mut blinds = PadStream::new(seed, session, job);
            let pads = PadStream::new(seed, session, RENEWING + job);
            let renewed = renew(&caller, passes, name, geometry, &mut blinds, pads);
            renew_reply(name, renewed)
        }
        Command::List => list(&caller, passes),
        Command::Scrub { group } => {
            let scrubbed = scrub_group(rt, vault, passes, *group, job);
            Ok(scrub_reply(*group, scrubbed))
        }
        Command::Repair { group } => {
            let mut pads = PadStream::new(seed, session, job);
            let repaired = repair_group(rt, vault, passes, *group, job, &mut pads);
            Ok(repair_reply(*group, repaired))
        }
        _ => unreachable!(),
    }
}

/// Works a command that takes no archive: one reply, and for `status` one for each group.
///
/// # Errors
/// `NoMemory`, with what a command logs then.
fn answer_plain<A: Archive, X: Wait>(
    shared: &Shared<'_, A, X>,
    passes: &mut Passes<A>,
    job: u32,
    command: &Command,
) -> Result<Vec<Reply>, NoMemory>
    requires can { CanCall shared.now.vault.now passes.old }
    requires parts { HasMoreParts 1 passes.old.groups }
    requires job { (0 < job) × (job < 2 ^ 31) }
    requires plain { IsPlain shared.now.vault.now.rack.groups command.now }
    ensures can { CanCall shared.now.vault.now passes.new }
    ensures worked { JobWroteOnly job passes.old passes.new }
    ensures blinds { HasBlinds (common_of shared.now) job command.now
        passes.old.groups passes.new.groups }
    ensures says { let old = passes.old in let new = passes.new in
        let w = section_of old new in
        JobOnlyWriter job old new → (s : Setting)
        → IsSessionSetting s shared.now.vault.now.rack shared.now.seed.now shared.now.session old
        → MatchResult result (λ replies. AreReplies s job command.now replies.items w)
        (λ e. IsIdleCommand s job command.now w) }
{
    match command {
        Command::Status => count_groups(shared, passes, job),
        _ => {
            let mut replies = Vec::with_capacity(shared.alloc, 1)?;
            let reply = answer_one(shared, passes, job, command)?;
            replies.push_reserved(reply);
            Ok(replies)
        }
    }
}

/// Works a command as this job, and answers its replies: one, and for `status` one for each group.
/// An archive that it asks for is taken from the room.
///
/// # Errors
/// `RoomFailed` exactly where the room itself failed, or `NoMemory`, each with what a command logs
/// then.
pub(crate) fn answer<R: Room, X: Wait>(
    shared: &Shared<'_, R::A, X>,
    passes: &mut Passes<R::A>,
    job: u32,
    command: &Command,
    room: &mut R,
) -> Result<Vec<Reply>, Unanswered>
    requires can { CanCall shared.now.vault.now passes.old }
    requires parts { HasMoreParts 1 passes.old.groups }
    requires job { (0 < job) × (job < 2 ^ 31) }
    requires worked { IsWorked shared.now.vault.now.rack.groups command.now }
    requires filled { HasFilled shared.now.vault.now.rack passes.old }
    requires used { AreUsed (R.meaning room.old) passes.old.groups }
    ensures can { CanCall shared.now.vault.now passes.new }
    ensures worked { JobWroteOnly job passes.old passes.new }
    ensures blinds { HasBlinds (common_of shared.now) job command.now
        passes.old.groups passes.new.groups }
    ensures says { let old = passes.old in let new = passes.new in
        let w = section_of old new in
        JobOnlyWriter job old new → (s : Setting)
        → IsSessionSetting s shared.now.vault.now.rack shared.now.seed.now shared.now.session old
        → MatchResult result (λ replies. AreReplies s job command.now replies.items w)
        (λ e. IsIdleCommand s job command.now w) }
    ensures asked { IsErrOf result Unanswered.RoomFailed → AsksArchive command.now }
    ensures used { AreUsed (R.meaning room.new) passes.new.groups }
    ensures took { Took (IsTrue R.A.account.tells) (result ≢ Err Unanswered.RoomFailed)
        (asks command.now)
        (R.meaning room.old) (R.meaning room.new)
        passes.old passes.new }
    ensures cause { Caused (R.meaning room.old).faults (R.meaning room.new).faults
        (IsErrOf result Unanswered.RoomFailed) }
    ensures own { FailsOwn (R.meaning room.old).failures (R.meaning room.new).failures
        (IsErrOf result Unanswered.RoomFailed) }
{
    match command {
        Command::Replace { from, to } => {
            let Ok(mut replies) = Vec::with_capacity(shared.alloc, 1) else {
                return Err(Unanswered::NoMemory);
            };
            let reply = replace_archive(shared, passes, job, *from, *to, room)?;
            replies.push_reserved(reply);
            Ok(replies)
        }
        Command::Migrate { from, to } => {
            let Ok(mut replies) = Vec::with_capacity(shared.alloc, 1) else {
                return Err(Unanswered::NoMemory);
            };
            let reply = migrate_archive(shared, passes, job, *from, *to, room)?;
            replies.push_reserved(reply);
            Ok(replies)
        }
        _ => match answer_plain(shared, passes, job, command) {
            Ok(replies) => Ok(replies),
            Err(NoMemory) => Err(Unanswered::NoMemory),
        },
    }
}
