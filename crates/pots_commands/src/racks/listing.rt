//! The files of all racks, by the catalog where their desks stand as it says.

use crate::commands::list::{tell_kept, tell_nothing};
use crate::program::{Program, Sessions};
use crate::racks::Asked;
use crate::racks::catalog::{Catalog, Section, kept_of, section_here};
use crate::racks::going::{joined, over_each, tell_ended, tell_rack};
use crate::racks::held::tell_unread;
use crate::racks::taking::take_snapshot;
use pots_folders::Snapshot;
use pots_racks::Line;
use pots_vault::{Stop, Visit};
use std::alloc::AllocError;
use std::sync::Wait;
use std::thread::Threads;

/// Lists the files of each rack. A rack whose desk stands as the catalog says is not opened. Words
/// that a rack looks at itself are worked in each.
pub fn list<X: Threads + Wait + Sync, P: Program>(
    sessions: &Sessions<'_, X, P>,
    visit: &Visit,
    asked: &Asked,
) -> Result<u8, Stop> {
    if asked.words.contains_id("at") || asked.words.contains_id("without") {
        return over_each(sessions, visit, asked);
    }
    let mut catalog = Catalog::load(visit)?;
    let mut status = 0;
    for before in 0..asked.home.count {
        let rack = before.saturating_add(1);
        tell_rack(visit, rack)?;
        status = joined(status, list_rack(visit, asked, &mut catalog, rack)?);
    }
    save(visit, asked, &catalog);
    Ok(status)
}

// Writes the catalog anew, unless the vault is to stay as it is.
fn save(visit: &Visit, asked: &Asked, catalog: &Catalog) {
    if !asked.words.get_flag("read-only") {
        catalog.save(visit);
    }
}

// Lists the files of a rack, and answers the status. What ended that early was said.
fn list_rack(visit: &Visit, asked: &Asked, catalog: &mut Catalog, rack: u32) -> Result<u8, Stop> {
    let section = match catalog.known(visit, asked.home, rack)? {
        Some(section) => section,
        None => match read_rack(visit, asked, rack)? {
            Ok(section) => section,
            Err(status) => return Ok(status),
        },
    };
    catalog.add(&section)?;
    tell_files(visit, asked, &section)?;
    Ok(0)
}

// What a rack has, by its desk. Where that could not be read, which was said: the status.
fn read_rack(visit: &Visit, asked: &Asked, rack: u32) -> Result<Result<Section, u8>, Stop> {
    let rt = &visit.rt;
    if let Err(stop) = asked.home.enter(rt, rack) {
        return Ok(Err(stop.status(rt)));
    }
    let read = section_here(rt, rack);
    asked.home.leave(rt)?;
    match read {
        Ok(section) => Ok(Ok(section)),
        Err(stop) => {
            let status = stop.status(rt);
            tell_ended(visit, asked.home, rack, status)?;
            Ok(Err(status))
        }
    }
}

fn tell_files(visit: &Visit, asked: &Asked, section: &Section) -> Result<(), Stop> {
    let all = asked.words.get_flag("all");
    if section.files.is_empty() {
        tell_nothing(&visit.rt);
    }
    for line in section.files.iter() {
        if let Line::OfFile(listed) = line {
            tell_kept(visit, all, (&listed.name, &kept_of(listed)))?;
        }
    }
    Ok(())
}

/// Lists what the newest snapshot of a name has. Of the racks whose desks stand as the catalog says
/// only the one that has the snapshot is opened.
pub fn list_snapshot<X: Threads + Wait + Sync, P: Program>(
    sessions: &Sessions<'_, X, P>,
    visit: &Visit,
    asked: &Asked,
) -> Result<u8, Stop> {
    let mut catalog = Catalog::load(visit)?;
    let mut all = Vec::new(visit.alloc());
    let mut unread = 0u32;
    for before in 0..asked.home.count {
        let rack = before.saturating_add(1);
        match section_in(visit, asked, &catalog, rack) {
            Ok(section) => {
                catalog.add(&section)?;
                append_snapshots(&mut all, rack, &section)?;
            }
            Err(Stop::Said(_)) => {
                unread = unread.saturating_add(1);
                tell_unread(visit, asked.home, rack)?;
            }
            Err(stop) => return Err(stop),
        }
    }
    save(visit, asked, &catalog);
    take_snapshot(sessions, visit, asked, (&all, unread))
}

// What a rack has, by the catalog or by its desk.
fn section_in(visit: &Visit, asked: &Asked, catalog: &Catalog, rack: u32) -> Result<Section, Stop> {
    if let Some(section) = catalog.known(visit, asked.home, rack)? {
        return Ok(section);
    }
    asked.home.enter(&visit.rt, rack)?;
    let read = section_here(&visit.rt, rack);
    asked.home.leave(&visit.rt)?;
    read
}

// Adds the snapshots of a rack whose lists are there.
fn append_snapshots(
    all: &mut Vec<(u32, Snapshot)>,
    rack: u32,
    section: &Section,
) -> Result<(), AllocError> {
    for line in section.files.iter() {
        let Line::OfFile(listed) = line else {
            continue;
        };
        if let Some(snapshot) = Snapshot::read(listed.name) {
            if kept_of(listed).is_whole() {
                all.push((rack, snapshot))?;
            }
        }
    }
    Ok(())
}
