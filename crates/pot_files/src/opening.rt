ghost use Rattle.std.specs.Prelude.{◌≡◌, ◌≤◌, ◌⊎◌, ◌↔◌, pos, ◌<ℤ◌, true, false, length, IfOk, IsTrue};
ghost use Rattle.std.specs.Fd.{file_raw_fd};
ghost use Rattle.std.specs.Fs.{asks_read, asks_write, asks_create, asks_truncate};

use std::fs::{File, OpenOptions};
use std::io::ErrorKind;
use std::os::fd::AsRawFd;
use std::os::unix::fs::FileExt;
use std::{fs, io};

/// The greatest number of a standard stream, which is that of standard error.
const LAST_STREAM: i32 = 2;

/// Opens a file under a number that no standard stream has. Where one of these was closed before
/// the program began, a file that took its number would be read as that stream, or get what is
/// written to it.
pub fn open_apart(rt: &HostRuntime, how: &OpenOptions, name: &str) -> io::Result<File>
    ensures { IfOk result (λ file. pos 2 <ℤ file_raw_fd file) }
{
    let file = how.open(rt, name)?;
    if file.as_raw_fd() > LAST_STREAM {
        return Ok(file);
    }
    let other = file.try_clone()?;
    if other.as_raw_fd() > LAST_STREAM {
        Ok(other)
    } else {
        Err(ErrorKind::Unsupported.into())
    }
}

/// Opens what is a file, or is not there yet, as `open_apart` does. A folder, a pipe, a socket or a
/// device is refused and, but for what comes under the name in between, not opened: to open a pipe
/// may wait without end, and to read a device may have none.
pub fn open_file(rt: &HostRuntime, how: &OpenOptions, name: &str) -> io::Result<File>
    ensures { IfOk result (λ file. pos 2 <ℤ file_raw_fd file) }
{
    if fs::metadata(rt, name).is_ok_and(|found| !found.is_file()) {
        return Err(no_file());
    }
    let file = open_apart(rt, how, name)?;
    if file.metadata()?.is_file() {
        Ok(file)
    } else {
        Err(no_file())
    }
}

/// What stands under a name is no file.
fn no_file() -> io::Error {
    io::Error::new(ErrorKind::Unsupported, "it is a folder, a pipe or a device")
}

/// Opens a file to be read and written, or to be read alone where the system lets nobody write it.
/// Answers the file, and whether it may be written.
pub fn open_as_may(rt: &HostRuntime, name: &str, may_make: bool) -> io::Result<(File, bool)>
    ensures { IfOk result (λ opened. pos 2 <ℤ file_raw_fd opened.0) }
{
    match open_file(rt, &as_it_is(may_make), name) {
        Ok(file) => Ok((file, true)),
        Err(e) if is_refused(e.kind()) => {
            let file = open_file(rt, &to_read(), name)?;
            Ok((file, false))
        }
        Err(e) => Err(e),
    }
}

/// Whether the system refuses to have something written that may still be read: EROFS, EACCES and
/// EPERM.
pub fn is_refused(kind: ErrorKind) -> bool
    ensures { IsTrue result ↔ ((kind ≡ ErrorKind.ReadOnlyFilesystem) ⊎ (kind ≡ ErrorKind.PermissionDenied)) }
{
    match kind {
        ErrorKind::ReadOnlyFilesystem => true,
        ErrorKind::PermissionDenied => true,
        _ => false,
    }
}

/// Whether this name may be a link. It may not where there is no such name.
pub fn may_be_link(rt: &HostRuntime, name: &str) -> bool {
    match fs::symlink_metadata(rt, name) {
        Ok(file) => file.is_symlink(),
        Err(e) => e.kind() != ErrorKind::NotFound,
    }
}

/// The bytes of a file of so many at most, in just the memory that they need.
///
/// # Errors
/// Where it is no file, is longer, or could not be read to its end. Nothing of a longer one is
/// read.
pub fn read_file(rt: &HostRuntime, name: &str, most: u64) -> io::Result<Vec<u8>>
    ensures { IfOk result (λ bytes. length bytes.items ≤ most) }
{
    let file = open_file(rt, &to_read(), name)?;
    let long = file.metadata()?.len();
    if long > most {
        return Err(ErrorKind::FileTooLarge.into());
    }
    let mut bytes = vec![in rt.alloc(); 0u8; long as usize]?;
    file.read_exact_at(&mut bytes, 0)?;
    Ok(bytes)
}

/// To read and write what is there, and to make the file where there is none and one may be made.
pub fn as_it_is(may_make: bool) -> OpenOptions
    ensures keeps { asks_truncate result ≡ false }
    ensures makes { asks_create result ≡ may_make }
    ensures reads { asks_read result ≡ true }
    ensures writes { asks_write result ≡ true }
{
    let mut how = OpenOptions::new();
    how.read(true).write(true).create(may_make);
    how
}

/// To read what is there, and nothing else.
pub fn to_read() -> OpenOptions
    ensures keeps { asks_truncate result ≡ false }
    ensures makes { asks_create result ≡ false }
    ensures reads { asks_read result ≡ true }
    ensures leaves { asks_write result ≡ false }
{
    let mut how = OpenOptions::new();
    how.read(true);
    how
}
