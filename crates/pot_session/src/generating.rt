//! The generator: the script of a number, worked by a session over new archives in memory.

ghost use Rattle.std.specs.Prelude.{◌≡◌, ◌≤◌, IsTrue, IfOk};
ghost use Rattle.pot_outside.specs.Accounts.{Faults, transition};
ghost use Rattle.pot_doubles.specs.Rooms.{means_in};
ghost use Rattle.pot_doubles.specs.Streams.{written_to};
ghost use Rattle.pot_session.specs.Generating.{AreSound, Generates, IsGenerated, is_answered};
ghost use Rattle.pot_session.specs.Generating.{summary};

use crate::ending::status::Status;
use crate::host::{Host, Staff};
use crate::init::make_image;
use crate::session::holding::hold;
use pot_bytes::{NoMemory, digest_of};
use pot_commands::write_out;
use pot_doubles::{MemDesk, MemRoom, MemSink, MemSource, OpenGate};
use pot_generator::{
    generate_script, generator_rack, generator_replies, generator_seed, generator_workers,
};
use pot_outside::{Archive, Failed, Sink};
use pot_script::{append_digest, append_number};
use std::alloc::{AllocError, Global};
use std::sync::Wait;
use std::thread::Threads;

/// How many archives a run has: those of the rack, and the one that stands in for a replaced one.
const ARCHIVES: u32 = 17;

/// How a session ended, and the sink that it wrote to.
#[derive(Drop)]
struct Ran {
    status: Status,
    sink: MemSink,
}

/// How often calls of the archive of a number failed.
fn faults_of(room: &MemRoom, number: u32) -> u64
    ensures { result ≡ (means_in room.now number).faults }
{
    match room.archive(number) {
        Some(archive) => archive.marks().faults,
        None => 0,
    }
}

/// Whether no call of a run's archives failed. Archives in memory fail for want of memory alone.
fn are_sound(room: &MemRoom) -> bool
    ensures { IsTrue result → AreSound (means_in room.now) }
{
    for number in 0..ARCHIVES {
        if faults_of(room, number) > 0 {
            return false;
        }
    }
    true
}

/// Holds the session of a number.
///
/// # Errors
/// Want of memory, also where an archive found none for a call of its own.
fn run_in_memory<X: Threads + Wait + Sync>(
    rt: &X,
    alloc: Global,
    number: u32,
) -> Result<Ran, NoMemory>
    requires { (1 ≤ number) × (number ≤ 1000000) }
    ensures { IfOk result (λ r. IsGenerated number (written_to r.sink) r.status) }
{
    let script = generate_script(alloc, number)?;
    let mut desk = MemDesk::new(alloc, None, Vec::new(alloc));
    if make_image(alloc, &generator_rack(), &mut desk).is_err() {
        return Err(NoMemory);
    }
    let mut source = MemSource::new(script, Vec::new(alloc));
    let mut sink = MemSink::new(alloc, Vec::new(alloc));
    let mut room = MemRoom::new(alloc, Vec::new(alloc), Vec::new(alloc));
    let seed = generator_seed(number);
    let staff = Staff {
        host: Host {
            rt,
            alloc,
            seed: &seed,
            gate: &OpenGate,
        },
        workers: generator_workers(),
        careful: false,
    };
    let status = hold(&staff, &mut source, &mut sink, &mut room, &mut desk);
    if !are_sound(&room) {
        return Err(NoMemory);
    }
    Ok(Ran { status, sink })
}

/// Whether all commands of a session that ended so were answered. Objects in memory fail for want
/// of memory alone.
fn is_answered(status: Status) -> bool
    ensures { result ≡ is_answered status }
{
    matches!(status, Status::Good | Status::Refusals)
}

/// The lines of a run: how many replies its script has, and the digest of all that was written.
fn summary(alloc: Global, number: u32, written: &[u8]) -> Result<Vec<u8>, AllocError>
    ensures { IfOk result (λ v. v.items ≡ summary number written.now) }
{
    let mut text = Vec::new(alloc);
    text.extend_from_slice(b"generated")?;
    append_number(&mut text, u64::from(number))?;
    append_number(&mut text, u64::from(generator_replies()))?;
    text.extend_from_slice(b"\ndigest")?;
    append_digest(&mut text, &digest_of(written))?;
    text.extend_from_slice(b"\n")?;
    Ok(text)
}

/// Works the script of a number over objects in memory, and writes how many replies it has and the
/// digest of all that was written.
pub(crate) fn generate<K: Sink, X: Threads + Wait + Sync>(
    rt: &X,
    alloc: Global,
    number: u32,
    sink: &mut K,
) -> Status
    requires limits { (1 ≤ number) × (number ≤ 1000000) }
    ensures generates { Generates number (transition K.account sink.old sink.new)
        result }
    ensures sink { Faults K.account sink.old sink.new (result ≡ Status.SinkFault) }
{
    let Ok(ran) = run_in_memory(rt, alloc, number) else {
        return Status::NoMemory;
    };
    if !is_answered(ran.status) {
        return Status::NoMemory;
    }
    let Ok(text) = summary(alloc, number, ran.sink.written()) else {
        return Status::NoMemory;
    };
    match write_out(sink, &text) {
        Ok(()) => ran.status,
        Err(Failed) => Status::SinkFault,
    }
}
