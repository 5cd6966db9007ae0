//! A folder that is stored in one rack.

use crate::commands::store_folder::fits;
use crate::program::{Program, Sessions};
use crate::racks::Asked;
use crate::racks::going::work_in;
use crate::racks::held::Held;
use crate::racks::rewording::{append, common_words};
use crate::racks::storing::all_racks;
use pots_vault::{Stop, Visit};
use std::path::Path;
use std::sync::Wait;
use std::thread::Threads;

/// Stores a folder in the first rack with room for what is new of it. Racks that have snapshots of
/// its name come first: there most of it may be stored already.
pub fn put_folder<X: Threads + Wait + Sync, P: Program>(
    sessions: &Sessions<'_, X, P>,
    visit: &Visit,
    asked: &Asked,
    folder: &str,
) -> Result<u8, Stop> {
    let alloc = visit.alloc();
    let whole = asked.home.whole(alloc, folder)?;
    let racks = all_racks(visit, asked.home)?;
    for rack in in_turn(visit, asked, &racks, folder)? {
        if !fits_in(sessions, visit, asked, (rack, whole.as_str()))? {
            continue;
        }
        let mut line = common_words(visit, asked, rack)?;
        append(&mut line, alloc, "--")?;
        append(&mut line, alloc, whole.as_str())?;
        return work_in(sessions, visit, asked.home, (rack, line.as_slice()));
    }
    Err(visit.refuse(
        1,
        "no rack has room for this folder, and nothing was stored: a folder lies in one rack; leave some of it out with --exclude, store parts of it by themselves, or make more racks with pots racks add 1",
    ))
}

// The racks as they are tried: first those with snapshots of the name, then the others.
fn in_turn(visit: &Visit, asked: &Asked, racks: &[Held], folder: &str) -> Result<Vec<u32>, Stop> {
    let name = match asked.words.get_str("as") {
        Some(name) => name,
        None => Path::new(folder).file_name().unwrap_or(folder),
    };
    let mut first = Vec::new(visit.alloc());
    let mut others = Vec::new(visit.alloc());
    for held in racks {
        if held
            .snapshots
            .iter()
            .any(|stored| stored.snapshot.name() == name)
        {
            first.push(held.rack)?;
        } else {
            others.push(held.rack)?;
        }
    }
    first.append(&mut others)?;
    Ok(first)
}

// Whether a rack has room for what is new of a folder.
fn fits_in<X: Threads + Wait + Sync, P: Program>(
    sessions: &Sessions<'_, X, P>,
    visit: &Visit,
    asked: &Asked,
    (rack, folder): (u32, &str),
) -> Result<bool, Stop> {
    let rt = &visit.rt;
    asked.home.enter(rt, rack)?;
    let fits = fits_here(rt, sessions, asked, folder);
    asked.home.leave(rt)?;
    fits
}

fn fits_here<X: Threads + Wait + Sync, P: Program>(
    rt: &HostRuntime,
    sessions: &Sessions<'_, X, P>,
    asked: &Asked,
    folder: &str,
) -> Result<bool, Stop> {
    let mut own = Visit::begin(rt, false, None)?;
    fits(sessions, &mut own, asked.words, folder)
}
