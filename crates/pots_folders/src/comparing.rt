//! What differs between two lists.

use pot_tree::{Content, Entry};
use std::alloc::{AllocError, Global};
use std::collections::BTreeMap;

/// What became of a path.
#[derive(Clone, Copy, Debug, PartialEq, Eq)]
pub enum Change {
    Added,
    Removed,
    /// The bytes of the file or the target of the link are others, or another kind of thing stands
    /// there.
    Changed,
    /// Its mode or its time is another, and nothing else.
    Touched,
}

/// A path that differs.
#[derive(Clone, Copy)]
pub struct Difference<'a> {
    pub path: &'a [u8],
    pub change: Change,
}

// What two lists have at a path.
#[derive(Clone, Copy)]
struct Both<'a> {
    old: Option<&'a Entry>,
    new: Option<&'a Entry>,
}

/// The paths that differ from one list to another, in the order of their bytes.
pub fn differences<'a>(
    alloc: Global,
    old: &'a [Entry],
    new: &'a [Entry],
) -> Result<Vec<Difference<'a>>, AllocError> {
    let mut found = Vec::new(alloc);
    for (path, both) in by_path(alloc, old, new)?.iter() {
        if let Some(change) = change_of(both) {
            found.push(Difference {
                path: *path,
                change,
            })?;
        }
    }
    Ok(found)
}

// What both lists have, by path.
fn by_path<'a>(
    alloc: Global,
    old: &'a [Entry],
    new: &'a [Entry],
) -> Result<BTreeMap<&'a [u8], Both<'a>>, AllocError> {
    let mut paths = of_old(alloc, old)?;
    for entry in new {
        let none = Both {
            old: None,
            new: None,
        };
        paths.entry(entry.path.as_slice())?.or_insert(none).new = Some(entry);
    }
    Ok(paths)
}

fn of_old<'a>(alloc: Global, old: &'a [Entry]) -> Result<BTreeMap<&'a [u8], Both<'a>>, AllocError> {
    let mut paths = BTreeMap::new(alloc);
    for entry in old {
        let both = Both {
            old: Some(entry),
            new: None,
        };
        let _ = paths.insert(entry.path.as_slice(), both)?;
    }
    Ok(paths)
}

// What became of a path. None where it is as it was.
fn change_of(both: &Both) -> Option<Change> {
    match (both.old, both.new) {
        (Some(old), Some(new)) => change_between(old, new),
        (Some(_), None) => Some(Change::Removed),
        (None, Some(_)) => Some(Change::Added),
        (None, None) => None,
    }
}

fn change_between(old: &Entry, new: &Entry) -> Option<Change> {
    if !are_same(&old.content, &new.content) {
        Some(Change::Changed)
    } else if (old.mode, old.time) != (new.mode, new.time) {
        Some(Change::Touched)
    } else {
        None
    }
}

// Whether the same stands there. Which pack holds a file makes no difference.
fn are_same(old: &Content, new: &Content) -> bool {
    match (old, new) {
        (Content::Folder, Content::Folder) => true,
        (Content::Link { target: old }, Content::Link { target: new }) => {
            old.as_slice() == new.as_slice()
        }
        (Content::File { digest: old, .. }, Content::File { digest: new, .. }) => old == new,
        _ => false,
    }
}
