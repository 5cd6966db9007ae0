ghost use Rattle.std.specs.Prelude.{◌≡◌, OnOk, OnSome, IsSome, false};

use crate::disk::FileDisk;
use crate::faults::count_fault;
use crate::limit::has_length;
use crate::opening::{
    as_it_is, is_refused, may_be_link, open_apart, open_file, read_file, to_read,
};
use pot_outside::{Desk, DeskFault, Failed};
use pot_safe_desk::SafeDesk;
use std::fs::{File, OpenOptions};
use std::io::ErrorKind;
use std::{fs, io};

/// The most bytes of `desk.psi`.
const LONGEST: u64 = 1 << 30;

/// The image in the file `desk.pss` of the working folder, or none. Where that has none and there
/// is a file `desk.psi`, as earlier programs wrote it, the image is what that holds.
///
/// The desk is for one run at a time: its first call locks the file `desk.lock`, and fails where
/// another desk has the lock. It keeps the lock until it is dropped, and the file stays, empty.
///
/// Where the system lets nobody write `desk.lock`, or make it, the desk can be read alone. It then
/// shares the lock of `desk.lock`, or of the folder where there is none, with others that read, and
/// has nothing replaced.
#[derive(Drop)]
pub struct DeskFile {
    rt: HostRuntime,
    /// `desk.lock` or the folder, locked as long as it is open.
    lock: Option<File>,
    /// Whether the lock is shared, so that the desk is read alone.
    is_shared: bool,
    faults: u64,
}

impl DeskFile {
    /// A desk that has not locked its folder yet.
    pub fn new(rt: &HostRuntime) -> DeskFile
        ensures { result.faults ≡ 0 }
    {
        DeskFile {
            rt: *rt,
            lock: None,
            is_shared: false,
            faults: 0,
        }
    }

    /// Takes the lock, where this desk has not got it yet.
    fn hold_lock(&mut self) -> io::Result<()>
        ensures locked { OnOk result (IsSome self.new.lock) }
        ensures keeps { OnSome self.old.lock (self.new.lock ≡ self.old.lock) }
        ensures shared { OnSome self.old.lock (self.new.is_shared ≡ self.old.is_shared) }
        ensures faults { self.new.faults ≡ self.old.faults }
    {
        if self.lock.is_none() {
            let (file, is_shared) = take_lock(&self.rt)?;
            self.is_shared = is_shared;
            self.lock = Some(file);
        }
        Ok(())
    }

    /// The image, under the lock.
    fn load(&mut self) -> Result<Option<Vec<u8>>, DeskFault>
        ensures locked { OnOk result (IsSome self.new.lock) }
        ensures keeps { OnSome self.old.lock (self.new.lock ≡ self.old.lock) }
        ensures faults { self.new.faults ≡ self.old.faults }
    {
        if self.hold_lock().is_err() {
            return Err(DeskFault::Failed);
        }
        load_image(&self.rt)
    }

    /// Puts an image in the place of the one before, under a lock that nobody shares.
    fn put(&mut self, image: &[u8]) -> io::Result<()>
        ensures locked { OnOk result (IsSome self.new.lock) }
        ensures keeps { OnSome self.old.lock (self.new.lock ≡ self.old.lock) }
        ensures alone { OnOk result (self.new.is_shared ≡ false) }
        ensures faults { self.new.faults ≡ self.old.faults }
    {
        self.hold_lock()?;
        if self.is_shared {
            return Err(ErrorKind::PermissionDenied.into());
        }
        if !has_length(&self.rt, image.len() as u64) {
            return Err(ErrorKind::FileTooLarge.into());
        }
        put_image(&self.rt, image)
    }
}

/// `desk.lock`, open and locked, and whether the lock is shared, since nobody may write here. Fails
/// at once where it is locked elsewhere.
fn take_lock(rt: &HostRuntime) -> io::Result<(File, bool)> {
    match open_file(rt, &as_it_is(true), "desk.lock") {
        Ok(file) => {
            file.try_lock()?;
            Ok((file, false))
        }
        Err(e) if is_refused(e.kind()) => {
            let file = open_to_share(rt)?;
            file.try_lock_shared()?;
            Ok((file, true))
        }
        Err(e) => Err(e),
    }
}

/// What is locked where nobody may write: `desk.lock`, or the folder where there is none.
fn open_to_share(rt: &HostRuntime) -> io::Result<File> {
    match open_file(rt, &to_read(), "desk.lock") {
        Err(e) if e.kind() == ErrorKind::NotFound => open_apart(rt, &to_read(), "."),
        opened => opened,
    }
}

/// The desk in `desk.pss`, opened by these options.
fn open_desk(rt: &HostRuntime, how: &OpenOptions) -> io::Result<SafeDesk<FileDisk>> {
    let file = open_file(rt, how, "desk.pss")?;
    Ok(SafeDesk::new(rt.alloc(), FileDisk::new(file)))
}

/// The desk in `desk.pss`, to be read. It is made only behind a link: one that leads to a disk
/// which is not mounted is a failure, and no desk without an image.
fn open_to_load(rt: &HostRuntime) -> io::Result<SafeDesk<FileDisk>> {
    if may_be_link(rt, "desk.pss") && fs::metadata(rt, "desk.pss").is_err() {
        open_desk(rt, &as_it_is(true))
    } else {
        open_desk(rt, &to_read())
    }
}

/// The image of `desk.pss`, or else of `desk.psi`.
fn load_image(rt: &HostRuntime) -> Result<Option<Vec<u8>>, DeskFault> {
    let mut desk = match open_to_load(rt) {
        Ok(desk) => desk,
        Err(e) if e.kind() == ErrorKind::NotFound && !may_be_link(rt, "desk.pss") => {
            return load_earlier(rt);
        }
        Err(_) => return Err(DeskFault::Failed),
    };
    match desk.read() {
        Ok(None) => load_earlier(rt),
        answer => answer,
    }
}

/// The image of `desk.psi`, or none where there is no such file. What is no file, or is longer than
/// a gibibyte, is a fault, and is not read.
fn load_earlier(rt: &HostRuntime) -> Result<Option<Vec<u8>>, DeskFault> {
    match read_file(rt, "desk.psi", LONGEST) {
        Ok(image) => Ok(Some(image)),
        Err(e) if e.kind() == ErrorKind::NotFound => Ok(None),
        Err(e) if e.kind() == ErrorKind::OutOfMemory => Err(DeskFault::NoMemory),
        Err(_) => Err(DeskFault::Failed),
    }
}

/// Puts an image into `desk.pss`. Where it fails or the run stops at any moment, the old image
/// stands, or the new one does.
///
/// The folder is synced first, so that the archive files that were made in this run have their
/// names on the disk before an image speaks of them, and `desk.pss` has its own.
fn put_image(rt: &HostRuntime, image: &[u8]) -> io::Result<()> {
    let mut desk = open_desk(rt, &as_it_is(true))?;
    sync_folder(rt)?;
    match desk.replace(image) {
        Ok(()) => Ok(()),
        Err(Failed) => Err(ErrorKind::Other.into()),
    }
}

/// Brings the names of the working folder's files to the disk.
fn sync_folder(rt: &HostRuntime) -> io::Result<()> {
    open_apart(rt, &to_read(), ".")?.sync_all()
}

impl Desk for DeskFile {
    ghost use Rattle.std.specs.Prelude.{◌≡◌, [], None, false, OnOk, OnSome};
    ghost use Rattle.std.specs.Prelude.{IsSome, IfOk, MatchOption, IsTrue, IsErr, IsErrOf};
    ghost use Rattle.pot_outside.specs.Counts.{Caused};
    ghost use Rattle.pot_outside.specs.Desks.{MayCome, Replaces};

    ghost account = { record {
      tells = false;
      meaning = λ d. record {
        held = record { now = None; past = [] };
        faults = d.faults;
      };
    } };

    fn read(&mut self) -> Result<Option<Vec<u8>>, DeskFault>
        ensures cause { Caused self.old.faults self.new.faults (IsErrOf result DeskFault.Failed) }
        ensures locked { OnOk result (IsSome self.new.lock) }
        ensures keeps { OnSome self.old.lock (self.new.lock ≡ self.old.lock) }
    {
        match self.load() {
            Ok(image) => Ok(image),
            Err(DeskFault::NoMemory) => Err(DeskFault::NoMemory),
            Err(DeskFault::Failed) => {
                count_fault(&mut self.faults);
                Err(DeskFault::Failed)
            }
        }
    }

    fn replace(&mut self, image: &[u8]) -> Result<(), Failed>
        ensures cause { Caused self.old.faults self.new.faults (IsErr result) }
        ensures locked { OnOk result (IsSome self.new.lock) }
        ensures keeps { OnSome self.old.lock (self.new.lock ≡ self.old.lock) }
        ensures alone { OnOk result (self.new.is_shared ≡ false) }
    {
        match self.put(image) {
            Ok(()) => Ok(()),
            Err(_) => {
                count_fault(&mut self.faults);
                Err(Failed)
            }
        }
    }
}
