//! Batches: a session over archives in memory stores files on so many workers at once, and the next
//! one fetches them so.
ghost use Rattle.std.specs.Prelude.{◌≡◌, ℕ, false};
ghost use Rattle.pot_doubles.specs.Rooms.{is_out};

use crate::report::tell;
use crate::rows::SEED;
use pot_doubles::{MemDesk, MemRoom, MemSink, MemSource, OpenGate};
use pot_outside::Gate;
use pot_session::run;
use std::alloc::{AllocError, Global};
use std::io;
use std::rt::Clock;
use std::sync::Wait;
use std::sync::atomic::{AtomicU64, Ordering};
use std::thread::Threads;
use std::time::{Duration, Instant};

/// The words that make an archive with room for 64 files.
const INIT: &str =
    "init --groups 8 --columns 3 --stripes 2048 --fragments 2 --need 2 --shards 3 --blur 16";

/// The bytes of a file.
pub const BATCH_FILE: usize = 100_000;

/// The megabytes of a file.
const BATCH_MEGABYTES: f64 = 0.095_367_431_640_625;

/// A gate that notes when the first job of a batch began, and when a job ended last.
#[derive(Drop)]
struct ClockGate<'a, R> {
    clock: &'a R,
    made: Instant,
    // In microseconds since it was made.
    began: AtomicU64,
    ended: AtomicU64,
}

impl<'a, R: Clock> ClockGate<'a, R> {
    fn new(clock: &'a R) -> io::Result<ClockGate<'a, R>> {
        Ok(ClockGate {
            clock,
            made: Instant::now(clock)?,
            began: AtomicU64::new(0),
            ended: AtomicU64::new(0),
        })
    }

    /// How many microseconds it is since the gate was made, or 0 where the clock failed.
    fn now(&self) -> u64 {
        match self.made.elapsed(self.clock) {
            Ok(passed) => u64::try_from(passed.as_micros()).unwrap_or(u64::MAX),
            Err(_) => 0,
        }
    }

    /// How many seconds the batch took.
    fn seconds(&self) -> f64 {
        let ended = self.ended.load(Ordering::SeqCst);
        let taken = ended.saturating_sub(self.began.load(Ordering::SeqCst));
        Duration::from_micros(taken).as_secs_f64()
    }
}

impl<'a, R: Clock + Sync> Gate for ClockGate<'a, R> {
    fn before(&self, position: u32) {
        if position == 0 {
            self.began.store(self.now(), Ordering::SeqCst);
        }
    }

    fn after(&self, _position: u32) {
        self.ended.store(self.now(), Ordering::SeqCst);
    }
}

/// What sessions are held over.
#[derive(Drop)]
struct Place {
    room: MemRoom,
    desk: MemDesk,
    ghost home: { (n : ℕ) → is_out room n ≡ false },
}

impl Place {
    /// No archive and no image.
    fn new(alloc: Global) -> Place {
        Place {
            room: MemRoom::new(alloc, Vec::new(alloc), Vec::new(alloc)),
            desk: MemDesk::new(alloc, None, Vec::new(alloc)),
        }
    }

    /// What a call of the program writes.
    fn call<W: Gate, R: Threads + Wait + Sync>(
        &mut self,
        rt: &R,
        alloc: Global,
        words: &str,
        script: Vec<u8>,
        gate: &W,
    ) -> Result<MemSink, AllocError> {
        let mut owned = Vec::new(alloc);
        for word in words.split(' ') {
            owned.push(String::from_str(alloc, word)?)?;
        }
        let mut source = MemSource::new(script, Vec::new(alloc));
        let mut sink = MemSink::new(alloc, Vec::new(alloc));
        let status = run(
            rt,
            alloc,
            &owned,
            SEED,
            &mut source,
            &mut sink,
            &mut self.room,
            &mut self.desk,
            gate,
        );
        if status == 0 {
            Ok(sink)
        } else {
            Err(AllocError)
        }
    }
}

/// A batch that stores these files.
fn stores(alloc: Global, files: &[u8]) -> Result<Vec<u8>, AllocError> {
    let mut script = format!(in alloc; "together {}\n", files.len() / BATCH_FILE)?.into_bytes();
    for (number, file) in files.chunks(BATCH_FILE).enumerate() {
        let line = format!(in alloc; "store f{number} {BATCH_FILE}\n")?;
        script.extend_from_slice(line.as_bytes())?;
        script.extend_from_slice(file)?;
        script.push(b'\n')?;
    }
    script.extend_from_slice(b"end\nquit\n")?;
    Ok(script)
}

/// A batch that fetches so many files.
fn fetches(alloc: Global, count: usize) -> Result<Vec<u8>, AllocError> {
    let mut script = format!(in alloc; "together {count}\n")?.into_bytes();
    for number in 0..count {
        let line = format!(in alloc; "fetch f{number}\n")?;
        script.extend_from_slice(line.as_bytes())?;
    }
    script.extend_from_slice(b"end\nquit\n")?;
    Ok(script)
}

/// Stores the files in a batch on so many workers, and fetches them in another.
pub fn time_batch<R: Clock + Threads + Wait + Sync + Print + Eprint>(
    rt: &R,
    alloc: Global,
    files: &[u8],
    workers: u8,
) -> io::Result<()> {
    let count = (files.len() / BATCH_FILE).min(64);
    let megabytes = f64::from(count as u8) * BATCH_MEGABYTES;
    let words = format!(in alloc; "run --workers {workers}")?;
    let mut place = Place::new(alloc);
    place.call(rt, alloc, INIT, Vec::new(alloc), &OpenGate)?;
    for (name, script) in [
        ("stores", stores(alloc, files)?),
        ("fetches", fetches(alloc, count)?),
    ] {
        let gate = ClockGate::new(rt)?;
        let sink = place.call(rt, alloc, &words, script, &gate)?;
        let name = format!(in alloc; "{name} on {workers}")?;
        eprintln!(rt; "{name}: {:.1} MB/s", megabytes / gate.seconds())?;
        tell(rt, &name, sink.written())?;
    }
    Ok(())
}
