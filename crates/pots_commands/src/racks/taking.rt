//! Files and snapshots that are fetched from racks, and files that are split anew in theirs.

use crate::program::{Program, Sessions};
use crate::racks::Asked;
use crate::racks::finding::{rack_of, rack_of_snapshot};
use crate::racks::going::{joined, over_each, work_in};
use crate::racks::held::{Held, all_snapshots, readable};
use crate::racks::rewording::{append, common_words};
use crate::verbs::Verb;
use pots_folders::Snapshot;
use pots_vault::{Stop, Visit};
use std::collections::BTreeSet;
use std::fs;
use std::sync::Wait;
use std::thread::Threads;

/// Fetches files, or one snapshot, from the racks in which they stand.
pub fn fetch<X: Threads + Wait + Sync, P: Program>(
    sessions: &Sessions<'_, X, P>,
    visit: &Visit,
    asked: &Asked,
) -> Result<u8, Stop> {
    let words = asked.words;
    let names = words.get_strs("NAME").unwrap_or(&[]);
    let is_told = words.contains_id("at") || words.contains_id("path");
    if words.get_flag("all") {
        if is_told {
            return Err(visit.refuse(2, "--at and --path are of one snapshot: give one name"));
        }
        return fetch_all(sessions, visit, asked);
    }
    let (racks, unread) = readable(visit, asked.home)?;
    let all = all_snapshots(visit.alloc(), &racks)?;
    if is_told || is_snapshot(visit, (&racks, &all), names)? {
        return take_snapshot(sessions, visit, asked, (&all, unread));
    }
    take_names(sessions, visit, asked, (&racks, unread))
}

// Whether the one name is that of a snapshot, and of no file.
fn is_snapshot(
    visit: &Visit,
    (racks, all): (&[Held], &[(u32, Snapshot)]),
    names: &[&str],
) -> Result<bool, Stop> {
    match names.first() {
        Some(name) if names.len() == 1 && rack_of(racks, name).is_none() => {
            Ok(rack_of_snapshot(visit, all, name, None)?.is_some())
        }
        _ => Ok(false),
    }
}

// Fetches every file of each rack.
fn fetch_all<X: Threads + Wait + Sync, P: Program>(
    sessions: &Sessions<'_, X, P>,
    visit: &Visit,
    asked: &Asked,
) -> Result<u8, Stop> {
    let mut status = 0;
    for before in 0..asked.home.count {
        let rack = before.saturating_add(1);
        let line = words_with_goal(visit, asked, rack)?;
        let ended = work_in(sessions, visit, asked.home, (rack, line.as_slice()))?;
        status = joined(status, ended);
    }
    Ok(status)
}

// The words of a command for a rack, up to its operands, with the folder that it fetches into.
fn words_with_goal(visit: &Visit, asked: &Asked, rack: u32) -> Result<Vec<String>, Stop> {
    let alloc = visit.alloc();
    let mut line = common_words(visit, asked, rack)?;
    if asked.verb == Verb::Fetch {
        let folder = match asked.words.get_str("to") {
            Some(folder) => asked.home.whole(alloc, folder)?,
            None => String::from_str(alloc, asked.home.folder.as_str())?,
        };
        line.push(format!(in alloc; "--to={folder}")?)?;
    }
    append(&mut line, alloc, "--")?;
    Ok(line)
}

/// Splits files anew, each in the first rack in which it stands.
pub fn by_names<X: Threads + Wait + Sync, P: Program>(
    sessions: &Sessions<'_, X, P>,
    visit: &Visit,
    asked: &Asked,
) -> Result<u8, Stop> {
    if asked.words.get_flag("all") {
        return over_each(sessions, visit, asked);
    }
    let (racks, unread) = readable(visit, asked.home)?;
    take_names(sessions, visit, asked, (&racks, unread))
}

// Works the command on the files that the words name, in the racks in which they stand.
fn take_names<X: Threads + Wait + Sync, P: Program>(
    sessions: &Sessions<'_, X, P>,
    visit: &Visit,
    asked: &Asked,
    (racks, unread): (&[Held], u32),
) -> Result<u8, Stop> {
    let names = asked.words.get_strs("NAME").unwrap_or(&[]);
    if names.is_empty() {
        return Err(visit.refuse(2, "no file was named: give names, or --all"));
    }
    look_for_twice(visit, names)?;
    let are_there = are_stored(visit, racks, names, unread)?;
    let mut status = if are_there && unread == 0 { 0 } else { 1 };
    for held in racks.iter() {
        let mut line = words_with_goal(visit, asked, held.rack)?;
        let mut has_one = false;
        for name in names {
            if rack_of(racks, name) == Some(held.rack) {
                append(&mut line, visit.alloc(), name)?;
                has_one = true;
            }
        }
        if has_one {
            let ended = work_in(sessions, visit, asked.home, (held.rack, line.as_slice()))?;
            status = joined(status, ended);
        }
    }
    Ok(status)
}

// Ends the command where a file is named twice.
fn look_for_twice(visit: &Visit, names: &[&str]) -> Result<(), Stop> {
    let mut seen: BTreeSet<&str> = BTreeSet::new(visit.alloc());
    for name in names {
        if !seen.insert(*name)? {
            let line = format!(in visit.alloc();
                "{name} is named twice, and nothing was done: name it once"
            )?;
            return Err(visit.refuse(2, line.as_str()));
        }
    }
    Ok(())
}

// Whether each name stands in a rack that can be read. Where all can be read and one stands in none
// the command ends.
fn are_stored(visit: &Visit, racks: &[Held], names: &[&str], unread: u32) -> Result<bool, Stop> {
    let mut are_there = true;
    for name in names {
        if rack_of(racks, name).is_some() {
            continue;
        }
        let line = format!(in visit.alloc(); "{name} is not stored: pots list tells what is")?;
        if unread == 0 {
            return Err(visit.refuse(1, line.as_str()));
        }
        are_there = false;
        let rt = &visit.rt;
        let _ = eprintln!(rt; "pots: {name} stands in none of the racks that can be read");
    }
    Ok(are_there)
}

/// Works a command on the newest snapshot of a name, in the rack that has it.
pub fn by_snapshot<X: Threads + Wait + Sync, P: Program>(
    sessions: &Sessions<'_, X, P>,
    visit: &Visit,
    asked: &Asked,
) -> Result<u8, Stop> {
    let (racks, unread) = readable(visit, asked.home)?;
    let all = all_snapshots(visit.alloc(), &racks)?;
    take_snapshot(sessions, visit, asked, (&all, unread))
}

/// Works a command on the newest snapshot of a name, of these snapshots of racks. So many racks
/// more could not be read.
pub fn take_snapshot<X: Threads + Wait + Sync, P: Program>(
    sessions: &Sessions<'_, X, P>,
    visit: &Visit,
    asked: &Asked,
    (all, unread): (&[(u32, Snapshot)], u32),
) -> Result<u8, Stop> {
    let alloc = visit.alloc();
    let words = asked.words;
    let names = words.get_strs("NAME").unwrap_or(&[]);
    let name = match names.first() {
        Some(name) if names.len() == 1 => *name,
        _ => return Err(visit.refuse(2, "--at and --path are of one snapshot: give one name")),
    };
    look_at_goal(visit, asked)?;
    let Some(rack) = rack_of_snapshot(visit, all, name, words.get_str("at"))? else {
        let line = format!(in alloc;
            "there is no snapshot {name} of that date or before in the racks that can be read: pots list tells which there are"
        )?;
        return Err(visit.refuse(1, line.as_str()));
    };
    let mut line = common_words(visit, asked, rack)?;
    if let Some(folder) = words.get_str("to") {
        let folder = asked.home.whole(alloc, folder)?;
        line.push(format!(in alloc; "--to={folder}")?)?;
    }
    append(&mut line, alloc, "--")?;
    append(&mut line, alloc, name)?;
    if let Some(path) = words.get_str("PATH") {
        append(&mut line, alloc, path)?;
    }
    let status = work_in(sessions, visit, asked.home, (rack, line.as_slice()))?;
    Ok(joined(status, if unread == 0 { 0 } else { 1 }))
}

// Ends the command where a snapshot is to be put into the folder of the vault.
fn look_at_goal(visit: &Visit, asked: &Asked) -> Result<(), Stop> {
    let Some(folder) = asked.words.get_str("to") else {
        return Ok(());
    };
    match fs::canonicalize(&visit.rt, folder) {
        Ok(path) if path.as_str() == asked.home.folder.as_str() => Err(visit.refuse(
            2,
            "a snapshot is not put among the vault's own files: give another folder with --to",
        )),
        _ => Ok(()),
    }
}
