//! Files that are stored at once, each in the first rack with room for all of it.

use crate::commands::store::{Item, asked as asked_items};
use crate::commands::store_folder::folder_in;
use crate::program::{Program, Sessions};
use crate::racks::Asked;
use crate::racks::entering::Home;
use crate::racks::going::{joined, work_in};
use crate::racks::held::{Held, readable};
use crate::racks::putting::put_folder;
use crate::racks::rewording::{append, common_words};
use pot_report::{Size, name_text};
use pots_racks::{Choice, choose};
use pots_vault::{Stop, Visit, is_stored};
use std::alloc::Global;
use std::sync::Wait;
use std::thread::Threads;

/// Stores files, or a folder. Room for all of them is looked for before the first byte is stored.
/// What is given at once is one unit: all of it is stored to its end, or what is missing is told.
pub fn store<X: Threads + Wait + Sync, P: Program>(
    sessions: &Sessions<'_, X, P>,
    visit: &Visit,
    asked: &Asked,
) -> Result<u8, Stop> {
    if let Some(folder) = folder_in(visit, asked.words) {
        return put_folder(sessions, visit, asked, folder);
    }
    let items = asked_items(visit, asked.words)?;
    let mut racks = all_racks(visit, asked.home)?;
    let goals = placed(visit, &mut racks, &items)?;
    drop(racks);
    let mut status = 0;
    for before in 0..asked.home.count {
        let rack = before.saturating_add(1);
        if goals.contains(&rack) {
            let line = line_of(visit, asked, (&items, &goals), rack)?;
            let ended = work_in(sessions, visit, asked.home, (rack, line.as_slice()))?;
            status = joined(status, ended);
        }
    }
    Ok(joined(status, tell_missing(visit, asked.home, &items)?))
}

/// What each rack holds.
///
/// # Errors
/// A desk cannot be read, which was said. Then a name may stand in a rack of which nobody knows.
pub fn all_racks(visit: &Visit, home: &Home) -> Result<Vec<Held>, Stop> {
    let (racks, unread) = readable(visit, home)?;
    if unread == 0 {
        return Ok(racks);
    }
    Err(visit.refuse(
        7,
        "nothing was stored: a name that stands in one rack is not stored in another, so each desk has to be read; mend that rack first",
    ))
}

// The rack of each file, where there is room for all that is not stored yet.
fn placed(visit: &Visit, racks: &mut [Held], items: &[Item]) -> Result<Vec<u32>, Stop> {
    let mut goals = Vec::new(visit.alloc());
    for item in items {
        match goal_of(visit.alloc(), racks, item)? {
            Some(rack) => goals.push(rack)?,
            None => return Err(no_room(visit, racks, item)?),
        }
    }
    Ok(goals)
}

// The rack of a file, whose room there is taken. None where there is not so much.
fn goal_of(alloc: Global, racks: &mut [Held], item: &Item) -> Result<Option<u32>, Stop> {
    let mut stands = Vec::new(alloc);
    let mut has_room = Vec::new(alloc);
    for held in racks.iter() {
        stands.push(held.known.kept(&item.name).is_some())?;
        has_room.push(held.has_room(alloc, &item.name, item.length)?)?;
    }
    let at = match choose(&stands, &has_room) {
        Choice::Stands(at) => at,
        Choice::Goes(at) => at,
        Choice::Nowhere => return Ok(None),
    };
    let Some(held) = racks.get_mut(at) else {
        return Ok(None);
    };
    let fits = held.take_room(&item.name, item.length);
    Ok(if fits { Some(held.rack) } else { None })
}

// The end of the command where a file has no room.
fn no_room(visit: &Visit, racks: &[Held], item: &Item) -> Result<Stop, Stop> {
    let most = racks
        .iter()
        .fold(0u64, |most, held| most.max(held.room.bytes()));
    let name = name_text(&item.name);
    let size = Size(item.length);
    let most = Size(most);
    let line = format!(in visit.alloc();
        "there is no room for all of these, and nothing was stored: beside those before it, {name} of {size} finds no rack with room for all of it, of which the most is {most}; a file lies in one rack, so store fewer, or make more racks with pots racks add 1"
    )?;
    Ok(visit.refuse(1, line.as_str()))
}

// The words that store the files of a rack.
fn line_of(
    visit: &Visit,
    asked: &Asked,
    (items, goals): (&[Item], &[u32]),
    rack: u32,
) -> Result<Vec<String>, Stop> {
    let alloc = visit.alloc();
    let mut line = common_words(visit, asked, rack)?;
    append(&mut line, alloc, "--")?;
    for (item, goal) in items.iter().zip(goals.iter()) {
        if *goal == rack {
            line.push(asked.home.whole(alloc, item.path.as_str())?)?;
        }
    }
    Ok(line)
}

// Tells which of the files are not stored to their end, and answers the status.
fn tell_missing(visit: &Visit, home: &Home, items: &[Item]) -> Result<u8, Stop> {
    let (racks, _) = readable(visit, home)?;
    let rt = &visit.rt;
    let mut missing = 0u64;
    for item in items {
        if !is_there(&racks, item) {
            missing = missing.saturating_add(1);
            let name = name_text(&item.name);
            let _ = eprintln!(rt; "pots: {name} is not stored to its end");
        }
    }
    if missing == 0 {
        return Ok(0);
    }
    let all = items.len();
    let _ = eprintln!(rt;
        "pots: {missing} of {all} files are missing: once what was refused can be stored, the same command goes on, and passes by what is stored"
    );
    Ok(1)
}

fn is_there(racks: &[Held], item: &Item) -> bool {
    racks.iter().any(|held| match held.known.kept(&item.name) {
        Some(kept) => is_stored(&kept),
        None => false,
    })
}
