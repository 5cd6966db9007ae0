//! A session, from the desk's image and the script to its close.

ghost use Rattle.std.specs.Prelude.{◌≡◌, ◌<◌};
ghost use Rattle.pot_outside.specs.Accounts.{Faults, transition, whole_transition};
ghost use Rattle.pot_outside.specs.Rooms.{IsHome, room_transition};
ghost use Rattle.pot_outside.specs.Counts.{Caused};
ghost use Rattle.pot_session.specs.Runs.{Holds, seen_by};

use crate::ending::refusing::refuse;
use crate::ending::status::Status;
use crate::host::Staff;
use crate::session::preparing::{Prepared, prepare};
use crate::session::serving::serve;
use pot_outside::{Desk, Gate, Room, Sink, Source};
use std::sync::Wait;
use std::thread::Threads;

/// Holds a session.
pub(crate) fn hold<S: Source, K: Sink, R: Room, D: Desk, W: Gate, X: Threads + Wait + Sync>(
    staff: &Staff<'_, X, W>,
    source: &mut S,
    sink: &mut K,
    room: &mut R,
    desk: &mut D,
) -> Status
    requires home { IsHome (R.meaning room.old) }
    requires workers { 0 < staff.now.workers }
    ensures holds { Holds staff.now.host.seed.now staff.now.careful
        (seen_by (transition S.account source.old source.new) (transition K.account sink.old sink.new)
        (whole_transition D.account desk.old desk.new)
        (room_transition R.A.account R.meaning room.old room.new))
        result }
    ensures home { IsHome (R.meaning room.new) }
    ensures source { Faults S.account source.old source.new
        (result ≡ Status.SourceFault) }
    ensures sink { Faults K.account sink.old sink.new (result ≡ Status.SinkFault) }
    ensures room { Caused (R.meaning room.old).faults (R.meaning room.new).faults
        (result ≡ Status.RoomFault) }
    ensures own { Caused (R.meaning room.old).failures (R.meaning room.new).failures
        (result ≡ Status.RoomFault) }
    ensures desk { Faults D.account desk.old desk.new (result ≡ Status.DeskFault) }
{
    match prepare(staff.host.alloc, source, desk) {
        Ok(Prepared { image, steps }) => serve(staff, image, &steps, sink, room, desk),
        Err(stop) => refuse(staff.host.alloc, stop, sink),
    }
}
