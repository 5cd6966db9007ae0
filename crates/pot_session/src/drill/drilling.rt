//! A drill: the shards of a file that are seen are those of another file of its length too.

ghost use Rattle.std.specs.Prelude.{◌≡◌, ◌≤◌, ◌++◌, [], codes, length, IsTrue, IfOk, OnOk, IsErrOf};
ghost use Rattle.pot_bytes.specs.Rack.{IsGeometry};
ghost use Rattle.pot_object.specs.Pieces.{longest, pieces_of};
ghost use Rattle.pot_outside.specs.Accounts.{Faults, transition};
ghost use Rattle.pot_shard.specs.FileBlocks.{random_len};
ghost use Rattle.pot_session.specs.Drills.{DrillsTo, Drilled, Drills, IsDrill, exposed_text};
ghost use Rattle.pot_session.specs.Drills.{random_of, read_most, report_text};
ghost use Rattle.pot_session.specs.Streams.{ReadsAtMost};

use crate::drill::pairing::read_pair;
use crate::ending::refusing::refuse;
use crate::ending::status::Status;
use crate::ending::stop::Stop;
use crate::intake::{IntakeFault, read_out};
use crate::telling::{Telling, tell};
use pot_bytes::{Geometry, NoMemory};
use pot_object::count_pieces;
use pot_outside::{Sink, Source};
use pot_pads::PadStream;
use pot_script::{append_digest, append_number};
use pot_shard::random_len;
use pot_veil::{DrillFault, DrillReport, drill};
use pot_words::Drill;
use std::alloc::{AllocError, Global};

/// The most bytes that two files take with their length: its six digits, twice 884,736 bytes, and
/// three LF.
const LONGEST_PAIR: usize = 1_769_481;

/// The random bytes of a store of a file of this length, from the first on: those of session 0 and
/// job 0.
fn random_of(
    alloc: Global,
    geometry: &Geometry,
    seed: &[u8; 32],
    count: usize,
) -> Result<Vec<u8>, AllocError>
    requires geometry { IsGeometry geometry.now }
    requires fits { count ≤ longest }
    ensures bytes { IfOk result (λ v. v.items ≡ random_of geometry.now seed.now count) }
    ensures size { IfOk result (λ v. length v.items ≡ random_len (pieces_of count) geometry.now) }
{
    let size = random_len(count_pieces(count as u64), geometry);
    let mut random = vec![in alloc; 0; size as usize]?;
    PadStream::new(seed, 0, 0).fill(&mut random);
    Ok(random)
}

/// The lines of a report on two files of this length.
fn report_text(alloc: Global, count: usize, report: DrillReport) -> Result<Vec<u8>, AllocError>
    ensures { IfOk result (λ v. v.items ≡ report_text count report) }
{
    let mut text = b"explained".to_vec(alloc)?;
    append_number(&mut text, count as u64)?;
    append_number(&mut text, u64::from(report.pieces))?;
    append_number(&mut text, u64::from(report.blocks))?;
    text.extend_from_slice(b"\ndigest")?;
    append_digest(&mut text, &report.digest)?;
    text.extend_from_slice(b"\n")?;
    Ok(text)
}

/// The line that so many points of a fragment are seen, where so many are needed.
fn exposed_text(alloc: Global, fragment: u8, have: u8, need: u8) -> Result<Vec<u8>, AllocError>
    ensures { IfOk result (λ v. v.items ≡ exposed_text fragment have need) }
{
    let mut text = b"exposed".to_vec(alloc)?;
    append_number(&mut text, u64::from(fragment))?;
    append_number(&mut text, u64::from(have))?;
    append_number(&mut text, u64::from(need))?;
    text.extend_from_slice(b"\n")?;
    Ok(text)
}

/// What is told of two files of one length.
fn drill_pair(
    alloc: Global,
    task: &Drill,
    seed: &[u8; 32],
    file: &[u8],
    other: &[u8],
) -> Result<Telling, NoMemory>
    requires task { IsDrill task.now }
    requires fits { length file.now ≤ longest }
    requires same_length { length other.now ≡ length file.now }
    ensures { IfOk result (DrillsTo task.now seed.now file.now other.now) }
{
    let mut random = random_of(alloc, &task.geometry, seed, file.len())?;
    match drill(
        alloc,
        file,
        other,
        &task.geometry,
        task.hidden,
        &task.seen,
        &mut random,
    ) {
        Ok(report) => Ok(Telling {
            text: report_text(alloc, file.len(), report)?,
            refused: false,
        }),
        Err(
            DrillFault::Exposed {
                fragment,
                have,
                need,
            },
        ) => Ok(Telling {
            text: exposed_text(alloc, fragment, have, need)?,
            refused: true,
        }),
        Err(DrillFault::NoMemory) => Err(NoMemory),
    }
}

/// Reads two files from the source, and drills them.
///
/// # Errors
/// `SourceFault` only where the source's count of faults rose. `BadLine` where it does not have two
/// files.
fn drill_source<S: Source>(
    alloc: Global,
    task: &Drill,
    seed: &[u8; 32],
    source: &mut S,
) -> Result<Telling, Stop>
    requires { IsDrill task.now }
    ensures drilled { Drilled task.now seed.now (transition S.account source.old source.new) result }
    ensures read { IsTrue S.account.tells
        → ReadsAtMost read_most (transition S.account source.old source.new) }
    ensures whole { IsTrue S.account.tells
        → OnOk result ((S.account.meaning source.new).held ≡ []) }
    ensures cause { Faults S.account source.old source.new
        (IsErrOf result Stop.SourceFault) }
{
    let bytes = match read_out(alloc, source, LONGEST_PAIR) {
        Ok(bytes) => bytes,
        Err(IntakeFault::Failed) => return Err(Stop::SourceFault),
        Err(IntakeFault::NoMemory) => return Err(Stop::NoMemory),
    };
    let Some((file, other)) = read_pair(&bytes) else {
        return Err(Stop::BadLine { number: 0 });
    };
    match drill_pair(alloc, task, seed, file, other) {
        Ok(telling) => Ok(telling),
        Err(NoMemory) => Err(Stop::NoMemory),
    }
}

/// Drills the two files of the source, and writes what is told of them. Where the words give no
/// seed it is the drawn one.
pub(crate) fn drill_files<S: Source, K: Sink>(
    alloc: Global,
    task: &Drill,
    drawn: [u8; 32],
    source: &mut S,
    sink: &mut K,
) -> Status
    requires { IsDrill task.now }
    ensures drills { Drills task.now drawn (transition S.account source.old source.new)
        (transition K.account sink.old sink.new) result }
    ensures source { Faults S.account source.old source.new
        (result ≡ Status.SourceFault) }
    ensures sink { Faults K.account sink.old sink.new (result ≡ Status.SinkFault) }
{
    let seed = task.seed.unwrap_or(drawn);
    match drill_source(alloc, task, &seed, source) {
        Ok(telling) => tell(&telling, sink),
        Err(stop) => refuse(alloc, stop, sink),
    }
}
