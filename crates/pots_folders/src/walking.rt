//! What stands in a folder.

use crate::patterns::fits;
use std::alloc::{AllocError, Global};
use std::fs;
use std::os::unix::fs::MetadataExt;

/// More folders than there are in any tree.
const MOST_FOLDERS: u32 = u32::MAX;

/// What stands at a path.
#[derive(Drop)]
pub enum Kind {
    Folder,
    /// A link with its target.
    Link(String),
    /// A file with its length.
    File(u64),
}

/// A path below the folder, and what stands there.
#[derive(Drop)]
pub struct Seen {
    pub path: String,
    pub mode: u32,
    pub time: u64,
    pub kind: Kind,
}

/// What was seen in a folder.
#[derive(Drop)]
pub struct Walk {
    /// In the order of the paths, so that a folder stands before what it has.
    pub seen: Vec<Seen>,
    /// How many paths could not be read, of which each was told.
    pub failed: u64,
}

/// Looks at all that stands in a folder, but for what fits a pattern. Links are not followed.
pub fn walk_folder(rt: &HostRuntime, folder: &str, excludes: &[&str]) -> Result<Walk, AllocError> {
    let alloc = rt.alloc();
    let mut walk = Walk {
        seen: Vec::new(alloc),
        failed: 0,
    };
    let mut folders = Vec::new(alloc);
    folders.push(String::new(alloc))?;
    for _ in 0..MOST_FOLDERS {
        let Some(path) = folders.pop() else {
            break;
        };
        walk.enter(rt, folder, path.as_str(), excludes, &mut folders)?;
    }
    walk.seen
        .sort_by(|a, b| a.path.as_bytes().cmp(b.path.as_bytes()))?;
    Ok(walk)
}

impl Walk {
    // Looks at the names of one folder. The folders among them are to be entered.
    fn enter(
        &mut self,
        rt: &HostRuntime,
        top: &str,
        path: &str,
        excludes: &[&str],
        folders: &mut Vec<String>,
    ) -> Result<(), AllocError> {
        let whole = joined(rt.alloc(), top, path)?;
        let Ok(names) = fs::read_dir(rt, whole.as_str()) else {
            self.tell_failed(rt, whole.as_str());
            return Ok(());
        };
        for name in names {
            let Ok(name) = name else {
                self.tell_odd_name(rt, whole.as_str());
                continue;
            };
            let path = joined(rt.alloc(), path, name.file_name())?;
            if !is_excluded(rt.alloc(), path.as_str(), excludes)? {
                self.add(rt, top, path, folders)?;
            }
        }
        Ok(())
    }

    // Adds what stands at a path.
    fn add(
        &mut self,
        rt: &HostRuntime,
        top: &str,
        path: String,
        folders: &mut Vec<String>,
    ) -> Result<(), AllocError> {
        let whole = joined(rt.alloc(), top, path.as_str())?;
        let Ok(found) = fs::symlink_metadata(rt, whole.as_str()) else {
            self.tell_failed(rt, whole.as_str());
            return Ok(());
        };
        let kind = if found.is_dir() {
            folders.push(String::from_str(rt.alloc(), path.as_str())?)?;
            Kind::Folder
        } else if found.is_file() {
            Kind::File(found.len())
        } else if found.is_symlink() {
            let Ok(target) = fs::read_link(rt, whole.as_str()) else {
                self.tell_failed(rt, whole.as_str());
                return Ok(());
            };
            Kind::Link(String::from_str(rt.alloc(), target.as_str())?)
        } else {
            tell_left(rt, whole.as_str());
            return Ok(());
        };
        self.seen.push(Seen {
            path,
            mode: found.mode() % 4096,
            time: u64::try_from(found.mtime()).unwrap_or(0),
            kind,
        })?;
        Ok(())
    }

    fn tell_failed(&mut self, rt: &HostRuntime, path: &str) {
        self.failed = self.failed.saturating_add(1);
        let _ = eprintln!(rt;
            "pots: {path} could not be read, and is left out: see that it may be read, and store once more"
        );
    }

    fn tell_odd_name(&mut self, rt: &HostRuntime, folder: &str) {
        self.failed = self.failed.saturating_add(1);
        let _ = eprintln!(rt;
            "pots: a name in {folder} could not be read as UTF-8, and is left out: rename it, and store once more"
        );
    }
}

fn tell_left(rt: &HostRuntime, path: &str) {
    let _ = eprintln!(rt; "pots: {path} is a socket, a pipe or a device, and is left out");
}

// A path below a folder.
fn joined(alloc: Global, folder: &str, path: &str) -> Result<String, AllocError> {
    if folder.is_empty() {
        String::from_str(alloc, path)
    } else if path.is_empty() {
        String::from_str(alloc, folder)
    } else {
        format!(in alloc; "{folder}/{path}")
    }
}

fn is_excluded(alloc: Global, path: &str, excludes: &[&str]) -> Result<bool, AllocError> {
    for pattern in excludes {
        if fits(alloc, pattern.as_bytes(), path.as_bytes())? {
            return Ok(true);
        }
    }
    Ok(false)
}
