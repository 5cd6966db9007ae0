//! The folders of places, and the links to archives in them, as a new vault has them.

use crate::named::Named;
use pot_bytes::{Name, Rack};
use pot_report::{name_text, place_of};
use pots_places::{PLACES_FILE, places_text};
use pots_vault::{Stop, Visit, archive_name, put_file, sync_folder_of};
use std::os::unix::fs::symlink;
use std::{fs, io};

/// Makes a folder for each place in the folder of the vault, and the file that names them.
pub fn make_places(visit: &Visit, names: &[Name]) -> Result<(), Stop> {
    for name in names {
        let name = name_text(name);
        let folder = format!(in visit.alloc(); "places/{name}")?;
        if fs::create_dir_all(&visit.rt, folder.as_str()).is_err() {
            return Err(unmade(visit, folder.as_str())?);
        }
    }
    let text = places_text(visit.alloc(), names)?;
    match put_file(&visit.rt, PLACES_FILE, &text, true) {
        Ok(()) => Ok(()),
        Err(_) => Err(unmade(visit, PLACES_FILE)?),
    }
}

fn unmade(visit: &Visit, path: &str) -> Result<Stop, Stop> {
    let line = format!(in visit.alloc();
        "{path} could not be made: see that this folder may be written and that its disk has room, and give the command once more"
    )?;
    Ok(visit.refuse(5, line.as_str()))
}

/// Makes an empty archive at its place for each that a new vault of this shape has, and a link to
/// it in the working folder. What is there already stays.
pub fn lay_archives(visit: &Visit, named: &Named, rack: &Rack) -> Result<(), Stop> {
    named.look_at_count(visit, rack)?;
    look_for_mounts(visit, named)?;
    let width = u32::from(rack.columns).saturating_add(u32::from(rack.parity));
    for group in 0..rack.groups {
        let place = place_of(rack, group);
        let first = u32::from(group).saturating_mul(width);
        for column in 0..width {
            lay_one(visit, named, (place, first.saturating_add(column)))?;
        }
    }
    Ok(())
}

// Ends the command where a place is not mounted: each has the archives of the first rack.
fn look_for_mounts(visit: &Visit, named: &Named) -> Result<(), Stop> {
    if named.rack.is_empty() || named.rack.as_str() == "rack-001/" {
        return Ok(());
    }
    for place in 0..named.names.len() {
        let place = u8::try_from(place).unwrap_or(u8::MAX);
        let folder = named.folder(visit.alloc(), place)?;
        let first = format!(in visit.alloc(); "{folder}/rack-001")?;
        if fs::metadata(&visit.rt, first.as_str()).is_err() {
            let name = named.name(place);
            let line = format!(in visit.alloc();
                "place {name} is not mounted, and no rack was made: mount its disk, or tell where it is with pots place {name} FOLDER"
            )?;
            return Err(visit.refuse(8, line.as_str()));
        }
    }
    Ok(())
}

fn lay_one(visit: &Visit, named: &Named, (place, number): (u8, u32)) -> Result<(), Stop> {
    let name = archive_name(visit.alloc(), number)?;
    let target = named.target(visit.alloc(), place, number)?;
    match make_and_link(&visit.rt, name.as_str(), target.as_str()) {
        Ok(()) => Ok(()),
        Err(_) => Err(unmade(visit, target.as_str())?),
    }
}

// Makes an empty file where there is none, and a link to it where nothing has the name.
fn make_and_link(rt: &HostRuntime, name: &str, target: &str) -> io::Result<()> {
    if fs::symlink_metadata(rt, name).is_ok() {
        return Ok(());
    }
    make_file(rt, target)?;
    symlink(rt, target, name)?;
    sync_folder_of(rt, name)
}

/// Makes an empty file, and the folders above it. What has the name already stays.
pub fn make_file(rt: &HostRuntime, path: &str) -> io::Result<()> {
    if fs::symlink_metadata(rt, path).is_ok() {
        return Ok(());
    }
    make_folder_of(rt, path)?;
    put_file(rt, path, &[], false)
}

/// Makes the folders above a path.
pub fn make_folder_of(rt: &HostRuntime, path: &str) -> io::Result<()> {
    match path.rsplit_once('/') {
        Some((folder, _)) => fs::create_dir_all(rt, folder),
        None => Ok(()),
    }
}
