//! A session from the taking of its archives to its close.

ghost use Rattle.std.specs.Prelude.{◌≡◌, ◌<◌, ◌≤◌, ◌+◌, ◌++◌, ◌^◌, IsTrue, IfOk, OnOk, OnErr};
ghost use Rattle.std.specs.Prelude.{IsErr, IsErrOf, length, flat_map};
ghost use Rattle.std.specs.List.{AllByRecursion};
ghost use Rattle.pot_outside.specs.Accounts.{Faults, transition, whole_transition};
ghost use Rattle.pot_outside.specs.Rooms.{IsHome, room_transition};
ghost use Rattle.pot_outside.specs.Counts.{Caused};
ghost use Rattle.pot_bytes.specs.Rack.{log_bound};
ghost use Rattle.pot_image.specs.Images.{contents};
ghost use Rattle.pot_image.specs.Rules.{FitsTogether};
ghost use Rattle.pot_machine.specs.Table.{archives_in};
ghost use Rattle.pot_shelves.specs.Shelves.{numbers_of};
ghost use Rattle.pot_script.specs.Steps.{IsWholeStep};
ghost use Rattle.pot_shared.specs.Groups.{AreLow, AreTakenAt};
ghost use Rattle.pot_shared.specs.Hands.{AreApart, AreMeant};
ghost use Rattle.pot_shared.specs.Remains.{AreRemainsFresh, HasSpace};
ghost use Rattle.pot_commands.specs.Ends.{next_job};
ghost use Rattle.pot_commands.specs.Taking.{asked_by};
ghost use Rattle.pot_commands.specs.Holding.{AreOut, Untouched};
ghost use Rattle.pot_session.specs.Giving.{GivesArchivesBack, IsUnlent, IsRoomUnopened};
ghost use Rattle.pot_session.specs.Opened.{IsOpenedWith};
ghost use Rattle.pot_session.specs.Serving.{HoldsBegin, Serves, IsEnd, status_after, status_by};

use crate::ending::status::Status;
use crate::ending::stop::Stop;
use crate::host::Staff;
use crate::session::archives::{give_all, take_all};
use crate::session::closing::{Close, Opened, close_session};
use pot_bytes::NoMemory;
use pot_commands::{Crew, Ending, Shared, work};
use pot_image::Image;
use pot_machine::GroupTable;
use pot_outside::{Desk, Failed, Gate, Room, RoomFault, Sink};
use pot_script::Step;
use pot_shared::{Openers, Remains, Vault, numbers_in};
use std::alloc::Global;
use std::sync::Wait;
use std::thread::Threads;

/// The most archives that a session can have, those that come in it among them: their numbers are
/// at most 511.
const MOST_ARCHIVES: usize = 512;

/// Takes all archives of the tables from the room.
///
/// # Errors
/// `Failed` only where the room itself failed, or `NoMemory`. No archive is out then.
fn take_archives<R: Room>(
    alloc: Global,
    tables: &[GroupTable],
    room: &mut R,
) -> Result<Remains<R::A>, RoomFault>
    requires home { IsHome (R.meaning room.old) }
    requires apart { AreApart (flat_map archives_in tables.now) }
    requires low { AreLow (flat_map archives_in tables.now) }
    ensures taken { IfOk result (λ p. numbers_of p.hand.items ≡ flat_map archives_in tables.now) }
    ensures meant { IsTrue R.A.account.tells
        → IfOk result (λ p. AreMeant R.A.account.meaning (R.meaning room.old).means p.hand.items) }
    ensures fresh { IfOk result AreRemainsFresh }
    ensures space { IfOk result (HasSpace (length tables.now) 512) }
    ensures few { IfOk result (λ p. length p.hand.items ≤ 512) }
    ensures out { OnOk result (AreOut (R.meaning room.new) (flat_map archives_in tables.now)) }
    ensures home { OnErr result (IsHome (R.meaning room.new)) }
    ensures untouched { Untouched (flat_map archives_in tables.now) (R.meaning room.old)
        (R.meaning room.new) }
    ensures cause { Caused (R.meaning room.old).faults (R.meaning room.new).faults
        (IsErrOf result RoomFault.Failed) }
    ensures own { Caused (R.meaning room.old).failures (R.meaning room.new).failures
        (IsErrOf result RoomFault.Failed) }
    ensures sound { OnOk result ((R.meaning room.new).failures ≡ (R.meaning room.old).failures) }
    ensures unlent { IsErrOf result RoomFault.Failed
        → IsUnlent (room_transition R.A.account R.meaning room.old room.new) }
    ensures unopened { IsErrOf result RoomFault.NoMemory
        → IsRoomUnopened (room_transition R.A.account R.meaning room.old room.new) }
{
    let Ok(numbers) = numbers_in(alloc, tables) else {
        return Err(RoomFault::NoMemory);
    };
    let Ok(mut remains) = Remains::reserve(alloc, tables.len(), MOST_ARCHIVES) else {
        return Err(RoomFault::NoMemory);
    };
    match take_all(room, &numbers, &mut remains.hand) {
        Ok(()) => Ok(remains),
        Err(fault) => {
            remains.release();
            Err(fault)
        }
    }
}

/// Gives back all archives of the hand.
///
/// # Errors
/// `Failed` exactly where the room itself failed at one of them.
fn give_back<R: Room>(room: &mut R, remains: Remains<R::A>) -> Result<(), Failed>
    requires { AreOut (R.meaning room.old) (numbers_of remains.hand.items) }
    ensures home { IsHome (R.meaning room.new) }
    ensures untouched { Untouched (numbers_of remains.hand.items) (R.meaning room.old)
        (R.meaning room.new) }
    ensures back { GivesArchivesBack R.A.account remains.hand.items (R.meaning room.old)
        (R.meaning room.new) result }
    ensures cause { Caused (R.meaning room.old).faults (R.meaning room.new).faults (IsErr result) }
    ensures own { Caused (R.meaning room.old).failures (R.meaning room.new).failures
        (IsErr result) }
{
    let mut remains = remains;
    let given = give_all(room, &mut remains.hand);
    remains.release();
    given
}

/// Takes the archives of the tables of an image from the room, and opens a vault over them, whose
/// groups are started at once on so many threads at most.
///
/// # Errors
/// `Failed` only where the room itself failed, or `NoMemory`. No archive is out then, and those
/// that the room took back are as they were, but for losses that they counted.
fn open_session<R: Room, X: Threads + Sync>(
    openers: &Openers<'_, X>,
    image: Image,
    room: &mut R,
) -> Result<Opened<R::A>, RoomFault>
    requires workers { 0 < openers.now.workers }
    requires together { FitsTogether (contents image) }
    requires home { IsHome (R.meaning room.old) }
    ensures opened { IfOk result (IsOpenedWith (contents image)) }
    ensures taken { IsTrue R.A.account.tells
        → IfOk result (λ o. AreTakenAt (R.meaning room.old).means o.passes.groups) }
    ensures out { OnOk result
        (AreOut (R.meaning room.new) (flat_map archives_in image.tables.items)) }
    ensures home { OnErr result (IsHome (R.meaning room.new)) }
    ensures untouched { Untouched (flat_map archives_in image.tables.items) (R.meaning room.old)
        (R.meaning room.new) }
    ensures cause { Caused (R.meaning room.old).faults (R.meaning room.new).faults
        (IsErrOf result RoomFault.Failed) }
    ensures own { Caused (R.meaning room.old).failures (R.meaning room.new).failures
        (IsErrOf result RoomFault.Failed) }
    ensures sound { OnOk result ((R.meaning room.new).failures ≡ (R.meaning room.old).failures) }
    ensures unlent { IsErrOf result RoomFault.Failed
        → IsUnlent (room_transition R.A.account R.meaning room.old room.new) }
    ensures unopened { IsErrOf result RoomFault.NoMemory
        → IsRoomUnopened (room_transition R.A.account R.meaning room.old room.new) }
{
    let Image {
        session,
        rack,
        tables,
        records,
        group_logs: _,
        index_log: _,
    } = image;
    let mut remains = match take_archives(openers.alloc, &tables, room) {
        Ok(remains) => remains,
        Err(fault) => return Err(fault),
    };
    match Vault::open(openers, &rack, tables, records, &mut remains) {
        Ok((vault, passes, spaces)) => Ok(Opened {
            session,
            rack,
            vault,
            passes,
            spaces,
            remains,
        }),
        Err(NoMemory) => {
            let _given = give_back(room, remains);
            Err(RoomFault::NoMemory)
        }
    }
}

/// Works the steps of a session that begins with this image, and closes.
pub(crate) fn serve<K: Sink, R: Room, D: Desk, W: Gate, X: Threads + Wait + Sync>(
    staff: &Staff<'_, X, W>,
    image: Image,
    steps: &[Step],
    sink: &mut K,
    room: &mut R,
    desk: &mut D,
) -> Status
    requires together { FitsTogether (contents image) }
    requires space { length image.records.items + log_bound ≤ 4000000000 }
    requires few { next_job steps.now ≤ 2 ^ 31 }
    requires workers { 0 < staff.now.workers }
    requires worked { AllByRecursion (IsWholeStep image.rack) steps.now }
    requires home { IsHome (R.meaning room.old) }
    requires kept { IsTrue D.account.tells
        → HoldsBegin (D.account.meaning desk.old).held (contents image) }
    ensures home { IsHome (R.meaning room.new) }
    ensures untouched { Untouched (flat_map archives_in image.tables.items ++ asked_by steps.now)
        (R.meaning room.old) (R.meaning room.new) }
    ensures serves { Serves staff.now.host.seed.now staff.now.careful (contents image) steps.now
        (room_transition R.A.account R.meaning room.old room.new) (transition K.account sink.old sink.new)
        (whole_transition D.account desk.old desk.new) result }
    ensures which { IsEnd result }
    ensures sink { Faults K.account sink.old sink.new (result ≡ Status.SinkFault) }
    ensures room { Caused (R.meaning room.old).faults (R.meaning room.new).faults
        (result ≡ Status.RoomFault) }
    ensures own { Caused (R.meaning room.old).failures (R.meaning room.new).failures
        (result ≡ Status.RoomFault) }
    ensures desk { Faults D.account desk.old desk.new (result ≡ Status.DeskFault) }
{
    let host = &staff.host;
    let openers = Openers {
        rt: host.rt,
        alloc: host.alloc,
        workers: staff.workers,
    };
    let mut opened = match open_session(&openers, image, room) {
        Ok(opened) => opened,
        Err(RoomFault::Failed) => return Status::RoomFault,
        Err(RoomFault::NoMemory) => return Status::NoMemory,
    };
    let crew = Crew {
        shared: Shared {
            rt: host.rt,
            alloc: host.alloc,
            vault: &opened.vault,
            seed: host.seed,
            session: opened.session,
        },
        workers: staff.workers,
        gate: host.gate,
    };
    let ending = work(&crew, &mut opened.passes, steps, sink, room);
    let closed = close_session(host.alloc, opened, room, desk);
    status_by(staff.careful, ending, closed)
}

/// The status of a session. Where a careful one could not keep the image of its close, that gives
/// it, and else the first failure of all.
fn status_by(careful: bool, ending: Ending, closed: Close) -> Status
    ensures { result ≡ status_by careful ending closed.kept closed.first }
{
    match closed.kept {
        Err(stop) if careful => stop.status(),
        _ => status_after(ending, closed.first),
    }
}

/// The status of a session by the first failure, of its steps or of its close.
fn status_after(ending: Ending, closed: Result<(), Stop>) -> Status
    ensures { result ≡ status_after ending closed }
{
    match ending {
        Ending::SinkFailed => Status::SinkFault,
        Ending::RoomFailed => Status::RoomFault,
        Ending::NoMemory => Status::NoMemory,
        Ending::Done { refused } => match closed {
            Err(stop) => stop.status(),
            Ok(()) => {
                if refused {
                    Status::Refusals
                } else {
                    Status::Good
                }
            }
        },
    }
}
