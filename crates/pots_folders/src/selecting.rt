//! Which entries of a list are wanted, and whether a list holds together.

use pot_tree::{Content, Entry};
use std::alloc::{AllocError, Global};
use std::collections::BTreeSet;

/// Whether an entry is wanted where all below one path is: it is that path, below it, or a folder
/// on the way to it.
pub fn is_wanted(entry: &Entry, below: Option<&str>) -> bool {
    let Some(below) = below else {
        return true;
    };
    let path = entry.path.as_slice();
    is_below(path, below.as_bytes()) || is_below(below.as_bytes(), path)
}

fn is_below(path: &[u8], folder: &[u8]) -> bool {
    match path.strip_prefix(folder) {
        Some(behind) => behind.is_empty() || behind.starts_with(b"/"),
        None => false,
    }
}

/// Whether each path of a list lies in the folder itself or in a folder that stands before it in
/// the list. In any other list a path could lead through a link out of the folder.
pub fn are_in_folders(alloc: Global, entries: &[Entry]) -> Result<bool, AllocError> {
    let mut folders: BTreeSet<&[u8]> = BTreeSet::new(alloc);
    for entry in entries {
        let path = entry.path.as_slice();
        if let Some(parent) = parent_of(path) {
            if !folders.contains(&parent) {
                return Ok(false);
            }
        }
        if matches!(entry.content, Content::Folder) {
            let _ = folders.insert(path)?;
        }
    }
    Ok(true)
}

// The path of the folder in which a path lies. None where that is the folder itself.
fn parent_of(path: &[u8]) -> Option<&[u8]> {
    let at = path.iter().rposition(|b| *b == b'/')?;
    path.get(..at)
}
