//! Names that are looked for in all racks, and snapshots that are compared where they stand.

use crate::commands::diff::tell;
use crate::commands::find::{search, tell_none};
use crate::program::{Program, Sessions};
use crate::racks::Asked;
use crate::racks::finding::rack_of_snapshot;
use crate::racks::going::{joined, work_in};
use crate::racks::held::{all_snapshots, readable, tell_unread};
use crate::racks::rewording::{append, common_words};
use crate::snapshots::{Stored, asked_snapshot, entries_of};
use pot_tree::Entry;
use pots_folders::Snapshot;
use pots_racks::part_for;
use pots_vault::{Stop, Visit, image};
use std::sync::Wait;
use std::thread::Threads;

/// Tells which files and which paths of snapshots fit a pattern, in all racks.
pub fn find<X: Threads + Wait + Sync, P: Program>(
    sessions: &Sessions<'_, X, P>,
    visit: &Visit,
    asked: &Asked,
) -> Result<u8, Stop> {
    let mut status = 0;
    let mut all = 0u64;
    for before in 0..asked.home.count {
        let rack = before.saturating_add(1);
        match find_in(sessions, visit, asked, rack) {
            Ok((count, ended)) => {
                all = all.saturating_add(count);
                status = joined(status, ended);
            }
            Err(Stop::Said(_)) => {
                tell_unread(visit, asked.home, rack)?;
                status = 1;
            }
            Err(stop) => return Err(stop),
        }
    }
    if all > 0 {
        return Ok(status);
    }
    tell_none(visit);
    Ok(1)
}

fn find_in<X: Threads + Wait + Sync, P: Program>(
    sessions: &Sessions<'_, X, P>,
    visit: &Visit,
    asked: &Asked,
    rack: u32,
) -> Result<(u64, u8), Stop> {
    let rt = &visit.rt;
    asked.home.enter(rt, rack)?;
    let found = find_here(sessions, visit, asked, rack);
    asked.home.leave(rt)?;
    found
}

fn find_here<X: Threads + Wait + Sync, P: Program>(
    sessions: &Sessions<'_, X, P>,
    visit: &Visit,
    asked: &Asked,
    rack: u32,
) -> Result<(u64, u8), Stop> {
    let mut own = own_visit(visit, asked, rack)?;
    let pattern = asked.words.get_str("PATTERN").unwrap_or("").as_bytes();
    search(sessions, &mut own, pattern)
}

// A visit to the rack of the working folder, with the switches of the command.
fn own_visit(visit: &Visit, asked: &Asked, rack: u32) -> Result<Visit, Stop> {
    let without = match asked.words.get_str("without") {
        Some(list) => part_for(visit.alloc(), list, rack)?,
        None => None,
    };
    let mut own = Visit::begin(&visit.rt, visit.json, without.as_deref())?;
    own.quiet = visit.quiet;
    own.read_only = asked.words.get_flag("read-only");
    Ok(own)
}

/// Tells what differs between two snapshots of a name, each in the rack that has it.
pub fn diff<X: Threads + Wait + Sync, P: Program>(
    sessions: &Sessions<'_, X, P>,
    visit: &Visit,
    asked: &Asked,
) -> Result<u8, Stop> {
    let (racks, unread) = readable(visit, asked.home)?;
    let all = all_snapshots(visit.alloc(), &racks)?;
    drop(racks);
    let from = rack_at(visit, asked, (&all, "DATE1"))?;
    let to = rack_at(visit, asked, (&all, "DATE2"))?;
    let status = if from == to {
        let line = line_of(visit, asked, from)?;
        work_in(sessions, visit, asked.home, (from, line.as_slice()))?
    } else {
        let (old_list, old) = entries_at(sessions, visit, asked, (from, "DATE1"))?;
        let (new_list, new) = entries_at(sessions, visit, asked, (to, "DATE2"))?;
        tell(visit, (&old_list, &new_list), (&old, &new))?;
        0
    };
    Ok(joined(status, if unread == 0 { 0 } else { 1 }))
}

// The rack of the newest snapshot at the date that a word gives.
fn rack_at(
    visit: &Visit,
    asked: &Asked,
    (all, word): (&[(u32, Snapshot)], &str),
) -> Result<u32, Stop> {
    let name = asked.words.get_str("NAME").unwrap_or("");
    match rack_of_snapshot(visit, all, name, asked.words.get_str(word))? {
        Some(rack) => Ok(rack),
        None => {
            let line = format!(in visit.alloc();
                "there is no snapshot {name} of that date or before in the racks that can be read: pots list tells which there are"
            )?;
            Err(visit.refuse(1, line.as_str()))
        }
    }
}

// The words that compare two snapshots of one rack.
fn line_of(visit: &Visit, asked: &Asked, rack: u32) -> Result<Vec<String>, Stop> {
    let mut line = common_words(visit, asked, rack)?;
    append(&mut line, visit.alloc(), "--")?;
    for word in ["NAME", "DATE1", "DATE2"] {
        if let Some(value) = asked.words.get_str(word) {
            append(&mut line, visit.alloc(), value)?;
        }
    }
    Ok(line)
}

fn entries_at<X: Threads + Wait + Sync, P: Program>(
    sessions: &Sessions<'_, X, P>,
    visit: &Visit,
    asked: &Asked,
    (rack, word): (u32, &str),
) -> Result<(Stored, Vec<Entry>), Stop> {
    let rt = &visit.rt;
    asked.home.enter(rt, rack)?;
    let found = entries_here(sessions, visit, asked, (rack, word));
    asked.home.leave(rt)?;
    found
}

fn entries_here<X: Threads + Wait + Sync, P: Program>(
    sessions: &Sessions<'_, X, P>,
    visit: &Visit,
    asked: &Asked,
    (rack, word): (u32, &str),
) -> Result<(Stored, Vec<Entry>), Stop> {
    let mut own = own_visit(visit, asked, rack)?;
    let name = asked.words.get_str("NAME").unwrap_or("");
    let image = image(&mut own)?;
    let stored = asked_snapshot(&own, &image, name, asked.words.get_str(word))?;
    drop(image);
    let entries = entries_of(sessions, &mut own, &stored)?;
    Ok((stored, entries))
}
