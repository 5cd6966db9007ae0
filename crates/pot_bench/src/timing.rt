//! How long the loops, the calls of a group and those of sessions take.
use crate::batches::{BATCH_FILE, time_batch};
use crate::groups::{Call, Trial};
use crate::report::{Timing, tell};
use crate::rows::{ROW, Round, Rows, SEED};
use crate::sessions::{Desk, Session};
use pot_bytes::{Block, Name};
use pot_pads::PadStream;
use std::alloc::{AllocError, Global};
use std::io;
use std::rt::Clock;
use std::sync::Wait;
use std::thread::Threads;

/// The loops, each with how many rows it reads in a round.
const LOOPS: [(&str, Round, u8); 10] = [
    ("xor_into", Round::XorInto, 1),
    ("fold_weighted", Round::FoldWeighted, 1),
    ("share_out 2 of 3", Round::ShareTwo, 1),
    ("share_out 3 of 5", Round::ShareThree, 1),
    ("share_join 2 of 3", Round::JoinTwo, 2),
    ("share_join 3 of 5", Round::JoinThree, 3),
    ("digest_of, rows", Round::Digest, 1),
    ("digest_of, blocks", Round::DigestBlocks, 1),
    ("digest_four, blocks", Round::DigestFours, 1),
    ("fill", Round::Fill, 1),
];

/// The calls of a group, each with over how many megabytes it goes.
const CALLS: [(&str, Call, u8); 5] = [
    ("put", Call::Put, 3),
    ("look", Call::Look, 3),
    ("sweep", Call::Sweep, 4),
    ("mend", Call::Mend, 1),
    ("move", Call::Move, 1),
];

/// The bytes of a file of the sessions.
const FILE: usize = 819_200;

/// Each loop over so many megabytes, and a row more.
pub fn time_loops(
    rt: &(impl Print + Eprint + Clock),
    alloc: Global,
    megabytes: u16,
) -> io::Result<Rows> {
    let rounds = 16 * u32::from(megabytes) + 1;
    let mut rows = Rows::new(alloc)?;
    for (name, round, read) in LOOPS {
        let each = f64::from(read) / 16.0;
        let timing = Timing::start(rt, name, f64::from(rounds) * each)?;
        rows.repeat(round, rounds)?;
        timing.end(rt)?;
        tell(rt, name, rows.computed(round))?;
    }
    Ok(rows)
}

/// So many groups, one after another.
pub fn time_groups(
    rt: &(impl Print + Eprint + Clock),
    alloc: Global,
    groups: u16,
    blocks: &[Block],
) -> io::Result<()> {
    for _ in 0..groups {
        let trial = time_group(rt, alloc, blocks)?;
        tell(rt, "group", &trial.end()?)?;
    }
    Ok(())
}

fn time_group(rt: &(impl Eprint + Clock), alloc: Global, blocks: &[Block]) -> io::Result<Trial> {
    let mut trial = Trial::new(alloc)?;
    for (name, call, megabytes) in CALLS {
        trial.prepare(alloc, call)?;
        let timing = Timing::start(rt, name, f64::from(megabytes))?;
        trial.work(call, blocks)?;
        timing.end(rt)?;
    }
    Ok(trial)
}

/// A session stores so many files, ten at most; one that is opened after it fetches them, and so
/// does one for which an archive is gone.
pub fn time_sessions<R: Clock + Wait + Print + Eprint>(
    rt: &R,
    alloc: Global,
    count: u16,
) -> io::Result<()> {
    let mut session = Desk::new(alloc)?.open(alloc)?;
    time_stores(rt, alloc, &mut session, count.min(10))?;
    let desk = session.end(alloc)?;
    tell(rt, "store", desk.image())?;
    let timing = Timing::start(rt, "opening", size_of(count.min(10)))?;
    let session = desk.open(alloc)?;
    timing.end(rt)?;
    let desk = time_fetches(rt, alloc, session, "fetch", count.min(10))?;
    let session = desk.with_one_gone(alloc)?.open(alloc)?;
    let desk = time_fetches(rt, alloc, session, "fetch, an archive gone", count.min(10))?;
    tell(rt, "close", desk.image())
}

/// Batches of so many stores and fetches, 64 at most, on one worker, on two and on four, each over
/// new archives.
pub fn time_batches<R: Clock + Threads + Wait + Sync + Print + Eprint>(
    rt: &R,
    alloc: Global,
    count: u16,
) -> io::Result<()> {
    let count = usize::from(count.min(64));
    let mut files = vec![in alloc; 0u8; count * BATCH_FILE]?;
    PadStream::new(&SEED, 0, 6).fill(&mut files);
    for workers in [1, 2, 4] {
        time_batch(rt, alloc, &files, workers)?;
    }
    Ok(())
}

/// The megabytes of so many files.
fn size_of(files: u16) -> f64 {
    f64::from(files) * 0.78125
}

/// The name of the file that a job stores or fetches: a letter.
fn name_of(job: u32) -> Result<Name, AllocError> {
    let letter = b'a' + (job % 26) as u8;
    match Name::read(&[letter]) {
        Some(name) => Ok(name),
        None => Err(AllocError),
    }
}

/// Stores the files, the next bytes of one stream, each as a job.
fn time_stores<R: Clock + Wait + Eprint>(
    rt: &R,
    alloc: Global,
    session: &mut Session,
    count: u16,
) -> io::Result<()> {
    let mut files = vec![in alloc; 0u8; usize::from(count) * FILE]?;
    PadStream::new(&SEED, 0, 4).fill(&mut files);
    let timing = Timing::start(rt, "store", size_of(count))?;
    let mut job = 0u32;
    for file in files.chunks(FILE) {
        job = job.saturating_add(1);
        let Ok(_) = session.store(rt, alloc, job, &name_of(job)?, file) else {
            return Err(io::Error::from(AllocError));
        };
    }
    timing.end(rt)
}

/// Fetches the files, each as a job, and ends the session.
fn time_fetches<R: Clock + Wait + Print + Eprint>(
    rt: &R,
    alloc: Global,
    session: Session,
    name: &str,
    count: u16,
) -> io::Result<Desk> {
    let mut session = session;
    let mut fetched = Vec::with_capacity(alloc, usize::from(count) * FILE)?;
    let timing = Timing::start(rt, name, size_of(count))?;
    for job in 1..=u32::from(count) {
        let Ok(file) = session.fetch(rt, alloc, job, &name_of(job)?) else {
            return Err(io::Error::from(AllocError));
        };
        fetched.extend_from_slice(&file)?;
    }
    timing.end(rt)?;
    tell(rt, name, &fetched)?;
    Ok(session.end(alloc)?)
}
