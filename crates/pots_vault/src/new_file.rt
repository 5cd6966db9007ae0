//! Files that are put in their place whole.

use pot_files::longest_file;
use std::fs::{File, OpenOptions};
use std::io::ErrorKind;
use std::os::fd::AsRawFd;
use std::os::unix::fs::FileExt;
use std::path::Path;
use std::{fs, io};

/// How many names beside a file are tried.
const TRIES: u32 = 100;

/// A file that is written under a name that is free beside its own, and gets its own once it is
/// whole.
#[derive(Drop)]
pub struct NewFile {
    file: File,
    beside: String,
    path: String,
    length: u64,
    /// The most bytes that it may have, where the system tells a bound.
    most: Option<u64>,
}

impl NewFile {
    /// A file without a byte that is to be at this path.
    pub fn begin(rt: &HostRuntime, path: &str) -> io::Result<NewFile> {
        let own = String::from_str(rt.alloc(), path)?;
        let (file, beside) = open_beside(rt, path)?;
        Ok(NewFile {
            file,
            beside,
            path: own,
            length: 0,
            most: longest_file(rt),
        })
    }

    /// Writes bytes behind those that it has. Where files may not be so long, none is written: the
    /// system would end the program by a signal.
    pub fn append(&mut self, bytes: &[u8]) -> io::Result<()> {
        let length = self.length.saturating_add(bytes.len() as u64);
        if self.most.is_some_and(|most| length > most) {
            return Err(ErrorKind::FileTooLarge.into());
        }
        self.file.write_all_at(bytes, self.length)?;
        self.length = length;
        Ok(())
    }

    /// Brings it to the disk, and then gives it its name. Where there is a file of that name it
    /// stays as it is, unless it may be replaced, and the new one is taken away.
    pub fn settle(self, rt: &HostRuntime, may_replace: bool) -> io::Result<()> {
        let done = match self.file.sync_all() {
            Ok(()) => settle(rt, self.beside.as_str(), self.path.as_str(), may_replace),
            Err(e) => Err(e),
        };
        if done.is_err() {
            self.abandon(rt);
        }
        done
    }

    /// Takes it away.
    pub fn abandon(self, rt: &HostRuntime) {
        let _ = fs::remove_file(rt, self.beside.as_str());
    }
}

/// Writes a file under a name that is free beside it, brings it to the disk, and then gives it its
/// name. Where there is a file of that name it stays as it is, unless it may be replaced.
pub fn put_file(rt: &HostRuntime, path: &str, bytes: &[u8], may_replace: bool) -> io::Result<()> {
    let mut file = NewFile::begin(rt, path)?;
    match file.append(bytes) {
        Ok(()) => file.settle(rt, may_replace),
        Err(e) => {
            file.abandon(rt);
            Err(e)
        }
    }
}

// A new file beside the path, under a number that no standard stream has. What is there under such
// a name stays as it is.
fn open_beside(rt: &HostRuntime, path: &str) -> io::Result<(File, String)> {
    let mut how = OpenOptions::new();
    how.write(true).create_new(true);
    for number in 0..TRIES {
        let beside = format!(in rt.alloc(); "{path}.new-{number}")?;
        match how.open(rt, beside.as_str()) {
            Ok(file) => return Ok((apart(file)?, beside)),
            Err(e) if e.kind() == ErrorKind::AlreadyExists => tell_left(rt, beside.as_str()),
            Err(e) => return Err(e),
        }
    }
    Err(ErrorKind::AlreadyExists.into())
}

// Names a file that may be left of a command that was stopped. It may as well be somebody's own.
fn tell_left(rt: &HostRuntime, beside: &str) {
    let _ = eprintln!(rt;
        "pots: {beside} is there, and stays as it is: a command that was stopped may have left it; where it is nobody's, take it away"
    );
}

// The file under a number that no standard stream has.
fn apart(file: File) -> io::Result<File> {
    if file.as_raw_fd() > 2 {
        return Ok(file);
    }
    let other = file.try_clone()?;
    if other.as_raw_fd() > 2 {
        Ok(other)
    } else {
        Err(ErrorKind::Unsupported.into())
    }
}

// Gives the file its name, and brings that to the disk.
fn settle(rt: &HostRuntime, beside: &str, path: &str, may_replace: bool) -> io::Result<()> {
    if may_replace {
        fs::rename(rt, beside, path)?;
    } else {
        name_once(rt, beside, path)?;
    }
    sync_folder_of(rt, path)
}

// Gives the file a name that no file has. Where the file system has no links, whether there is one
// is looked at first.
fn name_once(rt: &HostRuntime, beside: &str, path: &str) -> io::Result<()> {
    match fs::hard_link(rt, beside, path) {
        Ok(()) => fs::remove_file(rt, beside),
        Err(e) if e.kind() == ErrorKind::AlreadyExists => Err(e),
        Err(_) => match fs::symlink_metadata(rt, path) {
            Ok(_) => Err(ErrorKind::AlreadyExists.into()),
            Err(e) if e.kind() == ErrorKind::NotFound => fs::rename(rt, beside, path),
            Err(e) => Err(e),
        },
    }
}

/// Brings the names of the folder in which the path is to the disk.
pub fn sync_folder_of(rt: &HostRuntime, path: &str) -> io::Result<()> {
    let folder = match Path::new(path).parent() {
        Some(parent) if !parent.as_str().is_empty() => parent.as_str(),
        _ => ".",
    };
    fs::open(rt, folder)?.sync_all()
}

/// The file of a path, opened to be read alone. None where there is none that can be read.
pub fn open_to_read(rt: &HostRuntime, path: &str) -> Option<File> {
    fs::open(rt, path).ok()
}
