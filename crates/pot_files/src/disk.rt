ghost use Rattle.std.specs.Prelude.{pos, ◌<ℤ◌, ◌≤◌, length};
ghost use Rattle.std.specs.Fd.{file_raw_fd};

use crate::faults::count_fault;
use pot_outside::{Disk, Failed};
use std::fs::File;
use std::io;
use std::os::unix::fs::FileExt;

/// A disk in a file. What lies past its end is zero.
#[derive(Drop)]
pub struct FileDisk {
    file: File,
    faults: u64,
    ghost apart: { pos 2 <ℤ file_raw_fd file },
}

impl FileDisk {
    ghost use Rattle.std.specs.Prelude.{◌≡◌};

    /// The disk of a file that is open to be read and written, and is no standard stream.
    pub fn new(file: File) -> FileDisk
        requires { pos 2 <ℤ file_raw_fd file }
        ensures { result.faults ≡ 0 }
    {
        FileDisk { file, faults: 0 }
    }
}

/// Reads from a place on, and zeros from the file's end on.
fn fill_from(file: &File, at: u64, into: &mut [u8]) -> io::Result<()> {
    let long = file.metadata()?.len().saturating_sub(at);
    let have = long.min(into.len() as u64) as usize;
    file.read_exact_at(&mut into[..have], at)?;
    into[have..].fill(0);
    Ok(())
}

impl Disk for FileDisk {
    ghost use Rattle.std.specs.Prelude.{[], false};

    ghost account = { record {
      tells = false;
      meaning = λ d. record { held = []; faults = d.faults };
    } };

    fn read(&mut self, at: u64, into: &mut [u8]) -> Result<(), Failed> {
        match fill_from(&self.file, at, into) {
            Ok(()) => Ok(()),
            Err(_) => {
                count_fault(&mut self.faults);
                Err(Failed)
            }
        }
    }

    fn write(&mut self, at: u64, from: &[u8]) -> Result<(), Failed> {
        match self.file.write_all_at(from, at) {
            Ok(()) => Ok(()),
            Err(_) => {
                count_fault(&mut self.faults);
                Err(Failed)
            }
        }
    }

    fn sync(&mut self) -> Result<(), Failed> {
        match self.file.sync_all() {
            Ok(()) => Ok(()),
            Err(_) => {
                count_fault(&mut self.faults);
                Err(Failed)
            }
        }
    }
}
