//! A file of one part: it is stored under its own name, and its list beside it, by which a recovery
//! without the desk gives it its name.

use crate::gathering::Gathered;
use crate::program::{Program, Sessions};
use pot_bytes::{Name, digest_of};
use pot_client::part_name;
use pot_report::{Manifest, name_text};
use pots_vault::{Known, Stop, Visit};
use std::alloc::{AllocError, Global};
use std::sync::Wait;
use std::thread::Threads;

/// Whether a list of another file is stored under the name of the list of this one, as where a
/// store was refused in its midst.
pub fn is_listed_otherwise(
    visit: &Visit,
    known: &Known,
    (name, file): (&Name, &[u8]),
) -> Result<bool, Stop> {
    let Some(stored) = part_name(name, 0).and_then(|list| known.digest(&list)) else {
        return Ok(false);
    };
    let list = list_of(visit.alloc(), *name, file)?;
    Ok(stored != digest_of(list.as_bytes()))
}

/// Adds a file of one part and its list. Answers whether nothing was refused.
pub fn add_short<X: Threads + Wait + Sync, P: Program>(
    sessions: &Sessions<'_, X, P>,
    visit: &mut Visit,
    known: &Known,
    (name, file): (&Name, &[u8]),
    gathered: &mut Gathered,
) -> Result<bool, Stop> {
    if !gathered.add(sessions, visit, *name, file)? {
        return Ok(false);
    }
    let Some(list_name) = part_name(name, 0) else {
        tell_unlisted(visit, name);
        return Ok(true);
    };
    if known.digest(&list_name).is_some() {
        return Ok(true);
    }
    let list = list_of(visit.alloc(), *name, file)?;
    gathered.add_quiet(sessions, visit, list_name, list.as_bytes())
}

// The list of a file of one part, which is the file.
fn list_of(alloc: Global, name: Name, file: &[u8]) -> Result<String, AllocError> {
    let digest = digest_of(file);
    let mut parts = Vec::new(alloc);
    parts.push(digest)?;
    let list = Manifest {
        name,
        length: file.len() as u64,
        digest,
        parts,
    };
    list.text(alloc)
}

fn tell_unlisted(visit: &Visit, name: &Name) {
    let rt = &visit.rt;
    let text = name_text(name);
    let _ = eprintln!(rt;
        "pots: {text} has a name of more than 58 bytes, and pots recover will not know it: only the desk does"
    );
}
