//! The snapshots of a vault, and their lists.

use crate::program::{Program, Sessions};
use crate::whole::fetch_whole;
use pot_bytes::Name;
use pot_image::Image;
use pot_report::{Kept, kept_files, name_text};
use pot_tree::{Entry, ListFault, read_list};
use pots_folders::{Snapshot, are_in_folders, date_of};
use pots_vault::{Stop, Visit};
use std::sync::Wait;
use std::thread::Threads;

/// A snapshot whose list is in the vault.
#[derive(Clone, Copy)]
pub struct Stored {
    pub snapshot: Snapshot,
    pub kept: Kept,
}

/// The snapshots of an image whose lists are there, by name and date.
pub fn snapshots(visit: &Visit, image: &Image) -> Result<Vec<Stored>, Stop> {
    let mut all = Vec::new(visit.alloc());
    for (name, kept) in kept_files(visit.alloc(), image)?.iter() {
        if let Some(snapshot) = Snapshot::read(*name) {
            if kept.is_whole() {
                all.push(Stored {
                    snapshot,
                    kept: *kept,
                })?;
            }
        }
    }
    Ok(all)
}

/// The newest snapshot of a name, or the newest at a date.
pub fn newest(
    visit: &Visit,
    image: &Image,
    name: &str,
    at: Option<&str>,
) -> Result<Option<Stored>, Stop> {
    let date = match at {
        Some(text) => Some(asked_date(visit, text)?),
        None => None,
    };
    let mut found = None;
    for stored in snapshots(visit, image)? {
        let is_at = match &date {
            Some(date) => stored.snapshot.is_at(date.as_str()),
            None => true,
        };
        if is_at && stored.snapshot.name() == name {
            found = Some(stored);
        }
    }
    Ok(found)
}

/// The date that a text gives.
pub fn asked_date(visit: &Visit, text: &str) -> Result<String, Stop> {
    match date_of(visit.alloc(), text)? {
        Some(date) => Ok(date),
        None => Err(visit.refuse(
            2,
            "a date is given as 2026-01-31, or 20260131t235959z as pots list has it",
        )),
    }
}

/// The snapshot of a name that has to be there.
pub fn asked_snapshot(
    visit: &Visit,
    image: &Image,
    name: &str,
    at: Option<&str>,
) -> Result<Stored, Stop> {
    match newest(visit, image, name, at)? {
        Some(stored) => Ok(stored),
        None => {
            let line = format!(in visit.alloc();
                "there is no snapshot {name} of that date or before: pots list tells which there are"
            )?;
            Err(visit.refuse(1, line.as_str()))
        }
    }
}

/// The entries of a snapshot.
pub fn entries_of<X: Threads + Wait + Sync, P: Program>(
    sessions: &Sessions<'_, X, P>,
    visit: &mut Visit,
    stored: &Stored,
) -> Result<Vec<Entry>, Stop> {
    let mut lists = list_texts(sessions, visit, &[*stored])?;
    entries_in(visit, stored, lists.pop().flatten())
}

/// The lists of snapshots in their order, which are fetched together. None for one that did not
/// come, which was told.
pub fn list_texts<X: Threads + Wait + Sync, P: Program>(
    sessions: &Sessions<'_, X, P>,
    visit: &mut Visit,
    all: &[Stored],
) -> Result<Vec<Option<Vec<u8>>>, Stop> {
    let mut files = Vec::new(visit.alloc());
    for stored in all {
        files.push((stored.snapshot.list, stored.kept))?;
    }
    fetch_whole(sessions, visit, &files)
}

/// The entries of a snapshot whose list is this text.
pub fn entries_in(
    visit: &Visit,
    stored: &Stored,
    text: Option<Vec<u8>>,
) -> Result<Vec<Entry>, Stop> {
    let list = &stored.snapshot.list;
    let Some(text) = text else {
        return Err(lost_list(visit, list)?);
    };
    match read_list(visit.alloc(), &text) {
        Ok(entries) if are_in_folders(visit.alloc(), &entries)? => Ok(entries),
        Ok(_) => Err(odd_list(visit, list, 0)?),
        Err(ListFault::NoMemory) => Err(Stop::NoMemory),
        Err(ListFault::NoHead) => Err(odd_list(visit, list, 1)?),
        Err(ListFault::OddLine(line) | ListFault::OddPath(line)) => {
            Err(odd_list(visit, list, line)?)
        }
    }
}

fn lost_list(visit: &Visit, list: &Name) -> Result<Stop, Stop> {
    let text = name_text(list);
    let line = format!(in visit.alloc();
        "the list {text} could not be fetched: mend with pots repair, or take a snapshot of another date with --at"
    )?;
    Ok(visit.refuse(1, line.as_str()))
}

fn odd_list(visit: &Visit, list: &Name, number: u64) -> Result<Stop, Stop> {
    let text = name_text(list);
    let line = format!(in visit.alloc();
        "{text} is no list of a snapshot, by its line {number}: nothing was written; fetch the file itself with pots fetch {text}"
    )?;
    Ok(visit.refuse(1, line.as_str()))
}
