ghost use Rattle.std.specs.Prelude.{◌≡◌, ℕ, false, IfOk, IsErr};
ghost use Rattle.std.specs.Ordering.{nat_cmp};
ghost use Rattle.std.specs.BTreeSet.{contains};

use crate::archive::FileArchive;
use crate::archive_file::{Shut, open_archive_file};
use crate::faults::count_fault;
use crate::progress::Progress;
use crate::voice::tell;
use pot_outside::{Archive, Failed, Room, RoomFault};
use std::collections::BTreeSet;

/// The working folder, with the archive of number N in its file `archive-N`. A file that is missing
/// is made, and is an empty archive. A link of that name is followed and stays: the archive is
/// where it leads. Where it leads to no file, none is made: most likely a disk is not mounted, and
/// its blocks are not lost. Where it leads to a file that is no archive's, that is not opened.
///
/// An archive of which the system lets nobody write the file is open to be read: a write of it
/// fails. A line on standard error names each archive that is not opened, or that failed, with the
/// path to which its name leads.
///
/// An archive that is given back is on the disk after `Ok`, if it was written to.
#[derive(Drop)]
pub struct Folder {
    rt: HostRuntime,
    out: BTreeSet<u32>,
    faults: u64,
    failures: u64,
    progress: Progress,
}

impl Folder {
    /// The working folder, with no archive out.
    pub fn new(rt: &HostRuntime) -> Folder
        ensures out { (n : ℕ) → contains nat_cmp result.out n ≡ false }
        ensures faults { result.faults ≡ 0 }
        ensures failures { result.failures ≡ 0 }
    {
        Folder {
            rt: *rt,
            out: BTreeSet::new(rt.alloc()),
            faults: 0,
            failures: 0,
            progress: Progress::new(rt),
        }
    }
}

/// Opens the archive of a number, which has not failed yet.
fn open_archive(rt: &HostRuntime, number: u32) -> Result<FileArchive, RoomFault>
    ensures { IfOk result (λ a. a.faults ≡ 0) }
{
    let Ok(name) = format!(in rt.alloc(); "archive-{number}") else {
        return Err(RoomFault::NoMemory);
    };
    match open_archive_file(rt, name.as_str(), true) {
        Ok((file, may_write)) => Ok(FileArchive::named(rt, number, file, may_write)),
        Err(why) => {
            tell_shut(rt, name.as_str(), &why);
            Err(RoomFault::Failed)
        }
    }
}

/// Tells why the file of an archive was not opened.
fn tell_shut(rt: &HostRuntime, name: &str, why: &Shut) {
    match why {
        Shut::LeadsNowhere => tell(
            rt,
            name,
            "leads to a file that is not there: is its disk mounted?",
        ),
        Shut::Foreign => tell(
            rt,
            name,
            "leads to a file with no blocks of an archive, and would be written over: see where the link leads",
        ),
        Shut::Failed(e) => tell(rt, name, format_args!("could not be opened: {e}")),
    }
}

impl Room for Folder {
    ghost use Rattle.std.specs.Prelude.{◌≡◌, ◌≢◌, ℕ, Bool, None, []};
    ghost use Rattle.std.specs.Ordering.{nat_cmp};
    ghost use Rattle.std.specs.BTreeSet.{contains};

    type A = FileArchive;

    ghost meaning = { λ f. record {
      out = contains nat_cmp f.out;
      means = λ _. record {
        held = λ _. None;
        history = [];
        heard = [];
        faults = 0;
        losses = 0;
      };
      lent = λ _. 0;
      faults = f.faults;
      failures = f.failures;
    } };

    fn take(&mut self, number: u32) -> Result<FileArchive, RoomFault> {
        self.progress.at(&self.rt, number);
        let archive = match open_archive(&self.rt, number) {
            Ok(archive) => archive,
            Err(RoomFault::NoMemory) => return Err(RoomFault::NoMemory),
            Err(RoomFault::Failed) => {
                count_fault(&mut self.faults);
                count_fault(&mut self.failures);
                return Err(RoomFault::Failed);
            }
        };
        match self.out.insert(number) {
            Ok(_) => Ok(archive),
            Err(_) => Err(RoomFault::NoMemory),
        }
    }

    fn give(&mut self, number: u32, mut archive: FileArchive) -> Result<(), Failed> {
        self.out.remove(&number);
        let synced = archive.sync();
        if archive.marks().faults > 0 {
            count_fault(&mut self.faults);
        }
        if synced.is_err() {
            count_fault(&mut self.failures);
        }
        synced
    }
}
