//! A place that is gone, and all racks whose files are split anew over the others.

use crate::commands::place::asked_place;
use crate::program::{Program, Sessions};
use crate::racks::Asked;
use crate::racks::going::{joined, tell_rack, work_in};
use crate::racks::placing::bring_empty;
use crate::racks::rewording::{append, common_words};
use pots_racks::{folder_of, part_for};
use pots_vault::{Stop, Visit};
use std::str::from_utf8;
use std::sync::Wait;
use std::thread::Threads;

/// Takes new archives in the place of those that are gone, in each rack that has some. Before any
/// of it is done each rack has judged that it can be.
pub fn evacuate<X: Threads + Wait + Sync, P: Program>(
    sessions: &Sessions<'_, X, P>,
    visit: &Visit,
    asked: &Asked,
) -> Result<u8, Stop> {
    let list = asked.words.get_str("ARCHIVES").unwrap_or("");
    let folder = asked.words.get_str("FOLDER").unwrap_or("");
    let found = asked_place(visit, list)?;
    let judged = over_racks(sessions, visit, asked, (found.is_some(), true))?;
    if judged != 0 {
        return Err(visit.refuse(
            judged,
            "nothing was done: each rack has to be able to go on without these archives, and one is not",
        ));
    }
    if asked.words.get_flag("dry-run") {
        return Ok(0);
    }
    if let Some((named, place)) = &found {
        bring_empty(visit, asked.home, (named, *place, folder))?;
    }
    over_racks(sessions, visit, asked, (found.is_some(), false))
}

// Works the command in each rack that it names, where it is a place in all of them.
fn over_racks<X: Threads + Wait + Sync, P: Program>(
    sessions: &Sessions<'_, X, P>,
    visit: &Visit,
    asked: &Asked,
    (is_place, only_tell): (bool, bool),
) -> Result<u8, Stop> {
    let mut status = 0;
    for before in 0..asked.home.count {
        let rack = before.saturating_add(1);
        let Some(line) = line_of(visit, asked, rack, (is_place, only_tell))? else {
            continue;
        };
        tell_rack(visit, rack)?;
        let ended = work_in(sessions, visit, asked.home, (rack, line.as_slice()))?;
        status = joined(status, ended);
    }
    Ok(status)
}

// The words of the command for a rack. None where they name archives, and none of this rack.
fn line_of(
    visit: &Visit,
    asked: &Asked,
    rack: u32,
    (is_place, only_tell): (bool, bool),
) -> Result<Option<Vec<String>>, Stop> {
    let alloc = visit.alloc();
    let list = asked.words.get_str("ARCHIVES").unwrap_or("");
    let folder = asked.words.get_str("FOLDER").unwrap_or("");
    let whole = asked.home.whole(alloc, folder)?;
    let mut line = common_words(visit, asked, rack)?;
    if only_tell && !asked.words.get_flag("dry-run") {
        append(&mut line, alloc, "--dry-run")?;
    }
    append(&mut line, alloc, "--")?;
    if is_place {
        append(&mut line, alloc, list)?;
        line.push(whole)?;
        return Ok(Some(line));
    }
    let Some(own) = part_for(alloc, list, rack)? else {
        return Ok(None);
    };
    line.push(own)?;
    let bytes = folder_of(rack);
    let name = from_utf8(&bytes).unwrap_or("rack-000");
    line.push(format!(in alloc; "{whole}/{name}")?)?;
    Ok(Some(line))
}
