//! The top call.

ghost use Rattle.std.specs.Prelude.{◌≡◌, map};
ghost use Rattle.std.specs.String.{string_bytes};
ghost use Rattle.pot_outside.specs.Accounts.{Faults, transition, whole_transition};
ghost use Rattle.pot_outside.specs.Rooms.{IsHome, room_transition};
ghost use Rattle.pot_outside.specs.Counts.{Caused};
ghost use Rattle.pot_session.specs.Stops.{code_of};
ghost use Rattle.pot_session.specs.Tasks.{seed_of};
ghost use Rattle.pot_session.specs.declared.ending.status.Status.{Status};
ghost use Rattle.pot_session.specs.Runs.{seen_by};
ghost use Rattle.pot_session.specs.Calls.{RoomFails, RunsProgram};

use crate::asking::{Asked, read_task};
use crate::auditing::audit_files;
use crate::drill::drilling::drill_files;
use crate::ending::refusing::refuse;
use crate::ending::status::Status;
use crate::ending::stop::Stop;
use crate::generating::generate;
use crate::host::{Host, Staff};
use crate::init::init;
use crate::recovery::recovering::recover_files;
use crate::session::holding::hold;
use pot_bytes::NoMemory;
use pot_outside::{Desk, Gate, Room, Sink, Source};
use pot_words::Run;
use std::alloc::Global;
use std::sync::Wait;
use std::thread::Threads;

/// The seed of a session: the one that the words give, or else the drawn one.
fn seed_of(run: &Run, drawn: [u8; 32]) -> [u8; 32]
    ensures { result ≡ seed_of run.now drawn }
{
    match run.seed {
        Some(seed) => seed,
        None => drawn,
    }
}

/// Does what the words ask for.
fn answer<S: Source, K: Sink, R: Room, D: Desk, W: Gate, X: Threads + Wait + Sync>(
    host: &Host<'_, X, W>,
    words: &[String],
    source: &mut S,
    sink: &mut K,
    room: &mut R,
    desk: &mut D,
) -> Status
    requires home { IsHome (R.meaning room.old) }
    ensures runs { RunsProgram (map string_bytes words.now) host.now.seed.now
        (seen_by (transition S.account source.old source.new) (transition K.account sink.old sink.new)
        (whole_transition D.account desk.old desk.new)
        (room_transition R.A.account R.meaning room.old room.new))
        result }
    ensures home { IsHome (R.meaning room.new) }
    ensures source { Faults S.account source.old source.new
        (result ≡ Status.SourceFault) }
    ensures sink { Faults K.account sink.old sink.new (result ≡ Status.SinkFault) }
    ensures room { Caused (R.meaning room.old).faults (R.meaning room.new).faults
        (result ≡ Status.RoomFault) }
    ensures own { result ≡ Status.RoomFault
        → RoomFails (map string_bytes words.now)
        (room_transition R.A.account R.meaning room.old room.new) }
    ensures desk { Faults D.account desk.old desk.new (result ≡ Status.DeskFault) }
{
    let alloc = host.alloc;
    match read_task(alloc, words) {
        Ok(Asked::Init(rack)) => init(alloc, &rack, sink, desk),
        Ok(Asked::Run(run)) => {
            let seed = seed_of(&run, *host.seed);
            let staff = Staff {
                host: Host {
                    rt: host.rt,
                    alloc,
                    seed: &seed,
                    gate: host.gate,
                },
                workers: run.workers,
                careful: run.careful,
            };
            hold(&staff, source, sink, room, desk)
        }
        Ok(Asked::Drill(task)) => drill_files(alloc, &task, *host.seed, source, sink),
        Ok(Asked::Recover(task)) => recover_files(alloc, &task, sink, room),
        Ok(Asked::Audit(task)) => audit_files(alloc, &task, sink, desk),
        Ok(Asked::Generate(number)) => generate(host.rt, alloc, number, sink),
        Ok(Asked::Other) => refuse(alloc, Stop::Words, sink),
        Err(NoMemory) => Status::NoMemory,
    }
}

/// The top call: all that the program does. It reads the words. `init` makes the image of a new
/// archive. `run` reads the desk's image, reads the source to its end, puts the image with which
/// the session begins in the place of the desk's, takes the archives of all columns, works the
/// commands of the script in order and writes the replies of each after it, gives the archives back
/// and puts the image of the close in the place of the desk's. `recover` reads the archives alone
/// and lists what they give. `audit` reads the desk alone and tells what is exposed to a coalition.
/// `drill` reads two files from the source alone and tells whether what is seen of the one fits the
/// other. `generate` works a script of its own over objects in memory, and writes the digest of the
/// replies. The answer is the exit status.
///
/// 0 and 1 say that all was answered, and 1 that some reply is a refusal, that `recover` found a
/// file in part, or that `audit` or `drill` found something exposed; 2 that the words spell no
/// task, or name a column that the rack has not; 3 that the script leaves its grammar, or the
/// source of `drill` has no two files of one length; 4, 5, 6 and 8 that the source, the sink, the
/// desk or the room failed, 8 also that an archive failed which `recover` read; 7 that the desk
/// holds no image from which a session may begin or which `audit` can read; 9 that no number of a
/// session is left; 10 that `init` found an image; 11 that recovery is too wide; 70 that memory ran
/// out. Each job of a batch passes the gate before it begins and when it has ended.
pub fn run<S: Source, K: Sink, R: Room, D: Desk, W: Gate, X: Threads + Wait + Sync>(
    rt: &X,
    alloc: Global,
    words: &[String],
    drawn: [u8; 32],
    source: &mut S,
    sink: &mut K,
    room: &mut R,
    desk: &mut D,
    gate: &W,
) -> u8
    requires home { IsHome (R.meaning room.old) }
    ensures runs { (status : Status) × (result ≡ code_of status)
        × RunsProgram (map string_bytes words.now) drawn
        (seen_by (transition S.account source.old source.new) (transition K.account sink.old sink.new)
        (whole_transition D.account desk.old desk.new)
        (room_transition R.A.account R.meaning room.old room.new))
        status }
    ensures home { IsHome (R.meaning room.new) }
    ensures source { Faults S.account source.old source.new (result ≡ 4) }
    ensures sink { Faults K.account sink.old sink.new (result ≡ 5) }
    ensures desk { Faults D.account desk.old desk.new (result ≡ 6) }
    ensures room { Caused (R.meaning room.old).faults (R.meaning room.new).faults (result ≡ 8) }
    ensures own { result ≡ 8
        → RoomFails (map string_bytes words.now)
        (room_transition R.A.account R.meaning room.old room.new) }
{
    let host = Host {
        rt,
        alloc,
        seed: &drawn,
        gate,
    };
    let status = answer(&host, words, source, sink, room, desk);
    status.code()
}
