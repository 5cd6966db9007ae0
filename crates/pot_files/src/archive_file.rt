//! The file of an archive: whether it may be opened, and how.

ghost use Rattle.std.specs.Prelude.{pos, ◌<ℤ◌, IfOk};
ghost use Rattle.std.specs.Fd.{file_raw_fd};

use crate::archive::SLOT;
use crate::opening::{may_be_link, open_apart, open_as_may, to_read};
use std::fs::File;
use std::io;
use std::io::ErrorKind;
use std::os::unix::fs::FileExt;

/// At how many slots of a file that a link leads to is looked.
const LOOKED_AT: u64 = 64;

/// Why the file of an archive is not opened.
#[derive(Debug, Drop)]
pub enum Shut {
    /// A link of its name leads to no file: most likely a disk is not mounted.
    LeadsNowhere,
    /// A link of its name leads to a file that is no archive's.
    Foreign,
    /// The system did not open it, or it is no file.
    Failed(io::Error),
}

/// Opens the file of an archive, to be read and written, or to be read alone where the system lets
/// nobody write it. Answers the file, and whether it may be written. Where there is none it is
/// made, if it may be, but never behind a link; in a folder in which nobody may make it, it is
/// empty.
///
/// A file behind a link is opened only where it looks like an archive's, or is empty: a link that
/// was mixed up, or laid by another, is not written through to somebody's file.
pub fn open_archive_file(rt: &HostRuntime, name: &str, may_make: bool) -> Result<(File, bool), Shut>
    ensures { IfOk result (λ opened. pos 2 <ℤ file_raw_fd opened.0) }
{
    let linked = may_be_link(rt, name);
    match open_as_may(rt, name, may_make && !linked) {
        Ok((file, may_write)) => {
            if linked && is_foreign(&file) {
                Err(Shut::Foreign)
            } else {
                Ok((file, may_write))
            }
        }
        Err(e) if e.kind() != ErrorKind::NotFound => Err(Shut::Failed(e)),
        Err(_) if linked => Err(Shut::LeadsNowhere),
        Err(_) if may_make => Ok((open_empty(rt)?, false)),
        Err(e) => Err(Shut::Failed(e)),
    }
}

/// An archive that is not there, in a folder in which nobody may make its file: an empty one, which
/// can only be read.
fn open_empty(rt: &HostRuntime) -> Result<File, Shut>
    ensures { IfOk result (λ file. pos 2 <ℤ file_raw_fd file) }
{
    match open_apart(rt, &to_read(), "/dev/null") {
        Ok(file) => Ok(file),
        Err(e) => Err(Shut::Failed(e)),
    }
}

/// Whether most slots of a file begin with neither 0 nor 1, at which no slot of an archive begins.
/// So an archive with some damaged slots, or with a last one that was cut off, is none of these.
/// One that cannot be read is none.
fn is_foreign(file: &File) -> bool {
    let length = file.metadata().map_or(0, |found| found.len());
    let slots = length.div_ceil(SLOT as u64);
    let step = slots.div_ceil(LOOKED_AT).max(1);
    let mut fit = 0u64;
    let mut odd = 0u64;
    for number in 0..LOOKED_AT {
        match first_of(file, number.saturating_mul(step)) {
            Some(byte) if byte < 2 => fit = fit.saturating_add(1),
            Some(_) => odd = odd.saturating_add(1),
            None => {}
        }
    }
    odd > fit
}

/// The first byte of a slot. None where the file ends before it, or it cannot be read.
fn first_of(file: &File, slot: u64) -> Option<u8> {
    let mut byte = [0u8; 1];
    let at = slot.saturating_mul(SLOT as u64);
    file.read_exact_at(&mut byte, at).ok()?;
    byte.first().copied()
}
