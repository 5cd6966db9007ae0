//! A command that is worked in one rack after another.

use crate::answering::work_words;
use crate::program::{Program, Sessions};
use crate::racks::Asked;
use crate::racks::entering::Home;
use crate::racks::rewording::words_for;
use pots_racks::folder_of;
use pots_vault::{Stop, UNREAD, Visit};
use serde_json::json;
use std::str::from_utf8;
use std::sync::Wait;
use std::thread::Threads;

/// Works the command of these words in the folder of a rack, and answers its status. What ended it
/// early was said.
pub fn work_in<X: Threads + Wait + Sync, P: Program>(
    sessions: &Sessions<'_, X, P>,
    visit: &Visit,
    home: &Home,
    (rack, line): (u32, &[String]),
) -> Result<u8, Stop> {
    let rt = &visit.rt;
    if let Err(stop) = home.enter(rt, rack) {
        return Ok(stop.status(rt));
    }
    let status = match work_words(rt, sessions, line) {
        Ok(status) => status,
        Err(stop) => stop.status(rt),
    };
    home.leave(rt)?;
    if status != 0 && status != UNREAD {
        tell_ended(visit, home, rack, status)?;
    }
    Ok(status)
}

/// Tells in which rack a command did not come to a good end.
pub fn tell_ended(visit: &Visit, home: &Home, rack: u32, status: u8) -> Result<(), Stop> {
    let rt = &visit.rt;
    let path = home.path(visit.alloc(), rack)?;
    let _ = eprintln!(rt;
        "pots: this is of {path}, where the command ended with {status}: pots -C {path} works on this rack alone"
    );
    Ok(())
}

/// The status of a command over racks, with that of one rack more: 1 where not all is well in one
/// of them.
pub fn joined(so_far: u8, rack: u8) -> u8 {
    if rack == 0 || so_far == 1 {
        so_far
    } else if rack == UNREAD {
        UNREAD
    } else {
        1
    }
}

/// Works a command in each rack that it names, all where it names none, and tells of each which it
/// is. Where the words are refused in one it ends: the others get the same ones.
pub fn over_each<X: Threads + Wait + Sync, P: Program>(
    sessions: &Sessions<'_, X, P>,
    visit: &Visit,
    asked: &Asked,
) -> Result<u8, Stop> {
    let mut status = 0;
    for before in 0..asked.home.count {
        let rack = before.saturating_add(1);
        let Some(line) = words_for(visit, asked, rack)? else {
            continue;
        };
        tell_rack(visit, rack)?;
        let ended = work_in(sessions, visit, asked.home, (rack, line.as_slice()))?;
        if ended == 2 {
            return Ok(2);
        }
        status = joined(status, ended);
    }
    Ok(status)
}

/// Tells of which rack the lines behind are.
pub fn tell_rack(visit: &Visit, rack: u32) -> Result<(), Stop> {
    let bytes = folder_of(rack);
    let name = from_utf8(&bytes).unwrap_or("rack-000");
    if visit.json {
        let line = json!(in visit.alloc(); {"rack": name})?;
        let line = line.to_string(visit.alloc())?;
        println!(visit; "{line}")
    } else {
        println!(visit; "{name}")
    }
}
