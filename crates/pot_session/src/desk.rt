//! What a session reads from its desk and writes there.

ghost use Rattle.std.specs.Prelude.{◌≡◌, ◌<◌, ◌+◌, ◌-◌, ◌^◌, [], IsTrue, IfOk, IfErr, IsErrOf, map};
ghost use Rattle.std.specs.Prelude.{replicate};
ghost use Rattle.pot_outside.specs.Accounts.{Faults, Stays, transition};
ghost use Rattle.pot_outside.specs.Desks.{HadItsImage, MayCome, image_transition};
ghost use Rattle.pot_image.specs.Images.{contents};
ghost use Rattle.pot_image.specs.Spelling.{IsCountable, image_bytes};
ghost use Rattle.pot_image.specs.Rules.{FitsTogether, IsImageWhole};
ghost use Rattle.pot_session.specs.Desks.{OpensImage, OpensDesk, ReadsDesk, IsImageIn, IsImageStop};
ghost use Rattle.pot_session.specs.Desks.{IsDeskStop, begun, IfWritten, DeskKeeps, IsKeepStop};

use crate::ending::stop::Stop;
use pot_bytes::{LOG_BOUND, NoMemory};
use pot_image::{Image, ImageFault, read_image, write_image};
use pot_machine::Entry;
use pot_outside::{Desk, DeskFault, Failed};
use std::alloc::Global;

/// The most records of an image from which a session may begin. A session adds at most one for
/// each entry of its index's log, and an image has at most 4,000,000,000.
const MOST_RECORDS: usize = 4_000_000_000 - LOG_BOUND;

/// The image that the bytes are.
fn image_in(alloc: Global, bytes: &[u8]) -> Result<Image, Stop>
    ensures image { IsImageIn bytes.now result }
    ensures fits { IfOk result (λ i. FitsTogether (contents i)) }
    ensures which { IfErr result IsImageStop }
{
    match read_image(alloc, bytes) {
        Ok(image) => Ok(image),
        Err(ImageFault::Cut) => Err(Stop::Cut),
        Err(ImageFault::Trailer { kept, computed }) => Err(Stop::Trailer { kept, computed }),
        Err(ImageFault::Form { place }) => Err(Stop::Form { place }),
        Err(ImageFault::NoMemory) => Err(Stop::NoMemory),
    }
}

/// The image of the desk, whatever its session. The desk's image stays.
///
/// # Errors
/// `DeskFault` only where the desk's count of faults rose; `NoImage` where the desk has none; else
/// why its bytes are no image.
pub(crate) fn read_desk<D: Desk>(alloc: Global, desk: &mut D) -> Result<Image, Stop>
    ensures reads { ReadsDesk (image_transition D.account desk.old desk.new) result }
    ensures fits { IfOk result (λ i. FitsTogether (contents i)) }
    ensures which { IfErr result IsImageStop }
    ensures keeps { Stays (transition D.account desk.old desk.new) }
    ensures cause { Faults D.account desk.old desk.new (IsErrOf result Stop.DeskFault) }
{
    match desk.read() {
        Ok(Some(bytes)) => image_in(alloc, &bytes),
        Ok(None) => Err(Stop::NoImage),
        Err(DeskFault::Failed) => Err(Stop::DeskFault),
        Err(DeskFault::NoMemory) => Err(Stop::NoMemory),
    }
}

/// The image that the bytes are, from which one more session may begin.
fn open_image(alloc: Global, bytes: &[u8]) -> Result<Image, Stop>
    ensures opens { OpensImage bytes.now result }
    ensures fits { IfOk result (λ i. FitsTogether (contents i)) }
    ensures which { IfErr result IsDeskStop }
{
    let image = image_in(alloc, bytes)?;
    if image.session == u32::MAX {
        return Err(Stop::Spent);
    }
    if image.records.len() > MOST_RECORDS {
        return Err(Stop::Spent);
    }
    Ok(image)
}

/// The image of the desk, from which one more session may begin. The desk's image stays.
///
/// # Errors
/// `DeskFault` only where the desk's count of faults rose; `NoImage` where the desk has none; else
/// why its bytes are no image, or that no number of a session is left, or no room for the records
/// of one.
pub(crate) fn open_desk<D: Desk>(alloc: Global, desk: &mut D) -> Result<Image, Stop>
    ensures opens { OpensDesk (image_transition D.account desk.old desk.new) result }
    ensures fits { IfOk result (λ i. FitsTogether (contents i)) }
    ensures which { IfErr result IsDeskStop }
    ensures keeps { Stays (transition D.account desk.old desk.new) }
    ensures had { IsTrue D.account.tells → HadItsImage (D.account.meaning desk.new).held }
    ensures cause { Faults D.account desk.old desk.new (IsErrOf result Stop.DeskFault) }
{
    match desk.read() {
        Ok(Some(bytes)) => open_image(alloc, &bytes),
        Ok(None) => Err(Stop::NoImage),
        Err(DeskFault::Failed) => Err(Stop::DeskFault),
        Err(DeskFault::NoMemory) => Err(Stop::NoMemory),
    }
}

/// So many logs without entries.
pub(crate) fn empty_logs(alloc: Global, count: usize) -> Result<Vec<Vec<Entry>>, NoMemory>
    ensures { IfOk result (λ logs. map (λ v. v.items) logs.items ≡ replicate count []) }
{
    let mut logs = Vec::with_capacity(alloc, count)?;
    while logs.len() < count {
        logs.push_reserved(Vec::new(alloc));
    }
    Ok(logs)
}

/// The image with which the session after this one begins: one more session, the tables and the
/// records as they were, and empty logs.
pub(crate) fn begin(alloc: Global, image: Image) -> Result<Image, NoMemory>
    requires { image.session < 2 ^ 32 - 1 }
    ensures { IfOk result (λ i. contents i ≡ begun (contents image)) }
{
    let Image {
        session,
        rack,
        tables,
        records,
        group_logs: _,
        index_log: _,
    } = image;
    Ok(Image {
        session: session + 1,
        rack,
        tables,
        records,
        group_logs: empty_logs(alloc, usize::from(rack.groups))?,
        index_log: Vec::new(alloc),
    })
}

/// Puts an image in the place of the desk's.
///
/// # Errors
/// `DeskFault` only where the desk's count of faults rose: the desk then has the old image, this
/// one or none. `NoMemory` leaves the old one.
pub(crate) fn keep_image<D: Desk>(alloc: Global, image: &Image, desk: &mut D) -> Result<(), Stop>
    requires { IsCountable image.now }
    ensures which { IfErr result IsKeepStop }
    ensures whole { IfWritten result (IsImageWhole (contents image.now)) }
    ensures told { IsTrue D.account.tells
        → DeskKeeps (image_transition D.account desk.old desk.new) (image_bytes
        (contents image.now))
        result }
    ensures came { IsTrue D.account.tells
        → MayCome (D.account.meaning desk.old).held.past (image_bytes (contents image.now))
        (D.account.meaning desk.new).held.past }
    ensures had { IsTrue D.account.tells → HadItsImage (D.account.meaning desk.old).held
        → HadItsImage (D.account.meaning desk.new).held }
    ensures cause { Faults D.account desk.old desk.new (IsErrOf result Stop.DeskFault) }
{
    let Ok(bytes) = write_image(alloc, image) else {
        return Err(Stop::NoMemory);
    };
    match desk.replace(&bytes) {
        Ok(()) => Ok(()),
        Err(Failed) => Err(Stop::DeskFault),
    }
}
