//! A place that is brought to another folder: its archives are copied, and then one link leads
//! there.
//!
//! 1. Archives are copied first, and what is at the goal already stays as it is (`Way::copy`).
//! 2. Then the link of the place gets its name (`swap`). A stopped command is taken up by the same
//!    one: until then the place is where it was (`heal`).
//! 3. Then archives that lie elsewhere get links to the place (`Way::relink`), and copies that the
//!    place leaves behind in the vault are taken away (`Way::forget`).

use crate::laying::{make_file, make_folder_of};
use crate::named::{Named, archives_of};
use pot_image::Image;
use pot_report::{Holding, holdings, place_of};
use pots_vault::{MOST_PLACES, Stop, Visit, archive_name, look_for_file, put_file, sync_folder_of};
use std::alloc::{AllocError, Global};
use std::io::ErrorKind;
use std::os::unix::fs::symlink;
use std::{fs, io};

/// A place that goes to another folder.
#[derive(Clone, Copy)]
pub struct Way<'a> {
    pub named: &'a Named,
    pub place: u8,
    /// The folder that it goes to, from the root.
    pub goal: &'a str,
}

/// Puts the folder of a place back that a stopped command moved aside.
pub fn heal(visit: &Visit, named: &Named, place: u8) -> Result<(), Stop> {
    let rt = &visit.rt;
    let folder = named.folder(visit.alloc(), place)?;
    let before = beside(visit.alloc(), named, (place, "BEFORE"))?;
    if fs::symlink_metadata(rt, folder.as_str()).is_err() {
        let _ = fs::rename(rt, before.as_str(), folder.as_str());
    }
    Ok(())
}

// The path beside a place with this word before its name.
fn beside(alloc: Global, named: &Named, (place, word): (u8, &str)) -> Result<String, AllocError> {
    let up = named.up;
    let name = named.name(place);
    format!(in alloc; "{up}places/{word}-{name}")
}

/// Gives the place the link to its goal. A folder that has its name is moved aside.
pub fn swap(visit: &Visit, way: &Way) -> Result<(), Stop> {
    let alloc = visit.alloc();
    let folder = way.named.folder(alloc, way.place)?;
    let link = beside(alloc, way.named, (way.place, "LINK"))?;
    let before = beside(alloc, way.named, (way.place, "BEFORE"))?;
    let paths = (folder.as_str(), link.as_str(), before.as_str());
    match swap_links(&visit.rt, paths, way.goal) {
        Ok(()) => Ok(()),
        Err(e) => {
            let line = format!(in alloc;
                "{folder} could not be made a link, and its archives stay where they are: {e}; see that the vault's folder may be written, and give the command once more"
            )?;
            Err(visit.refuse(8, line.as_str()))
        }
    }
}

fn swap_links(
    rt: &HostRuntime,
    (folder, link, before): (&str, &str, &str),
    goal: &str,
) -> io::Result<()> {
    if leads_to(rt, folder, goal) {
        return Ok(());
    }
    if let Some((parent, _)) = folder.rsplit_once('/') {
        fs::create_dir_all(rt, parent)?;
    }
    if is_link(rt, link) {
        fs::remove_file(rt, link)?;
    }
    symlink(rt, goal, link)?;
    if fs::symlink_metadata(rt, folder).is_ok() && !is_link(rt, folder) {
        fs::rename(rt, folder, before)?;
    }
    fs::rename(rt, link, folder)?;
    sync_folder_of(rt, folder)
}

// Whether a path leads to this folder, which is given from the root.
fn leads_to(rt: &HostRuntime, path: &str, goal: &str) -> bool {
    fs::canonicalize(rt, path).is_ok_and(|found| found.as_str() == goal)
}

fn is_link(rt: &HostRuntime, name: &str) -> bool {
    fs::symlink_metadata(rt, name).is_ok_and(|found| found.is_symlink())
}

impl<'a> Way<'a> {
    /// Ends the command where the goal is that of another place, or lies in the place itself.
    pub fn look_at_goal(&self, visit: &Visit) -> Result<(), Stop> {
        for other in 0..MOST_PLACES {
            if other == self.place || self.named.name(other).is_empty() {
                continue;
            }
            let folder = self.named.folder(visit.alloc(), other)?;
            if leads_to(&visit.rt, folder.as_str(), self.goal) {
                return Err(visit.refuse(
                    2,
                    "this folder is that of another place, and nothing was done: who has it would have the archives of both",
                ));
            }
        }
        let folder = self.named.folder(visit.alloc(), self.place)?;
        let inside = match fs::canonicalize(&visit.rt, folder.as_str()) {
            Ok(path) => match self.goal.strip_prefix(path.as_str()) {
                Some(rest) => rest.starts_with('/'),
                None => false,
            },
            Err(_) => false,
        };
        if inside {
            return Err(visit.refuse(
                2,
                "this folder lies in that of the place itself, and nothing was done: give a folder on another disk",
            ));
        }
        Ok(())
    }

    /// The folder on another disk that the place leads to, where that is not its goal.
    pub fn old_folder(&self, visit: &Visit) -> Result<Option<String>, Stop> {
        let folder = self.named.folder(visit.alloc(), self.place)?;
        match fs::read_link(&visit.rt, folder.as_str()) {
            Ok(target) if self.is_old(&visit.rt, target.as_str()) => {
                Ok(Some(target.into_string()))
            }
            _ => Ok(None),
        }
    }

    fn is_old(&self, rt: &HostRuntime, target: &str) -> bool {
        target != self.goal && fs::metadata(rt, target).is_ok()
    }

    /// Whether the place leads to its goal already.
    pub fn is_there(&self, visit: &Visit) -> Result<bool, Stop> {
        let folder = self.named.folder(visit.alloc(), self.place)?;
        Ok(leads_to(&visit.rt, folder.as_str(), self.goal))
    }

    /// Copies the archives of the place to its goal, where they are not there yet. Of one that
    /// should have blocks and has none here, what is at the goal stays.
    pub fn copy(&self, visit: &Visit, image: &Image) -> Result<(), Stop> {
        for holding in holdings(visit.alloc(), image)?.iter() {
            if place_of(&image.rack, holding.group) == self.place {
                look_for_file(visit, holding.archive)?;
                self.copy_one(visit, holding)?;
            }
        }
        Ok(())
    }

    fn copy_one(&self, visit: &Visit, holding: &Holding) -> Result<(), Stop> {
        let number = holding.archive;
        let name = archive_name(visit.alloc(), number)?;
        let target = self.goal_of(visit.alloc(), number)?;
        let is_new = holding.length == 0;
        match copy_file(&visit.rt, (name.as_str(), target.as_str()), is_new) {
            Ok(()) => Ok(()),
            Err(e) => {
                let line = format!(in visit.alloc();
                    "{name} could not be brought to {target}, and stays where it is: {e}; see that both disks are mounted and that there is room; where another file of that name is there, move it away and remove nothing"
                )?;
                Err(visit.refuse(8, line.as_str()))
            }
        }
    }

    // The path of an archive at the goal.
    fn goal_of(&self, alloc: Global, number: u32) -> Result<String, AllocError> {
        let goal = self.goal;
        let rack = self.named.rack.as_str();
        format!(in alloc; "{goal}/{rack}archive-{number}")
    }

    /// Makes an empty archive at the goal for each of the place that is not there.
    pub fn make_empty(&self, visit: &Visit, image: &Image) -> Result<(), Stop> {
        for number in archives_of(visit.alloc(), image, self.place)?.iter() {
            let target = self.goal_of(visit.alloc(), *number)?;
            if make_file(&visit.rt, target.as_str()).is_err() {
                let line = format!(in visit.alloc();
                    "{target} could not be made: see that its disk is mounted and may be written"
                )?;
                return Err(visit.refuse(8, line.as_str()));
            }
        }
        Ok(())
    }

    /// Gives each archive of the place the link that leads there by the place's name.
    pub fn relink(&self, visit: &Visit, image: &Image) -> Result<(), Stop> {
        for number in archives_of(visit.alloc(), image, self.place)?.iter() {
            let name = archive_name(visit.alloc(), *number)?;
            let target = self.named.target(visit.alloc(), self.place, *number)?;
            if relink_one(&visit.rt, name.as_str(), target.as_str()).is_err() {
                let line = format!(in visit.alloc();
                    "{name} could not be made a link to {target}, and is where it was: see that the vault's folder may be written, and give the command once more"
                )?;
                return Err(visit.refuse(8, line.as_str()));
            }
        }
        Ok(())
    }

    /// Takes the copies of archives away that the place left in the vault, where the same bytes are
    /// at the goal, and the shares of the desk beside them.
    pub fn forget(&self, visit: &Visit, image: &Image) -> Result<(), Stop> {
        let alloc = visit.alloc();
        let rt = &visit.rt;
        let before = beside(alloc, self.named, (self.place, "BEFORE"))?;
        let before = before.as_str();
        let rack = self.named.rack.as_str();
        for number in archives_of(alloc, image, self.place)?.iter() {
            let path = format!(in alloc; "{before}/{rack}archive-{number}")?;
            let goal = self.goal_of(alloc, *number)?;
            if are_same(rt, path.as_str(), goal.as_str()) {
                let _ = fs::remove_file(rt, path.as_str());
            }
        }
        let place = self.place;
        let share = format!(in alloc; "{before}/{rack}desk-share-{place}")?;
        let _ = fs::remove_file(rt, share.as_str());
        let own = format!(in alloc; "{before}/{rack}")?;
        let _ = fs::remove_dir(rt, own.as_str());
        Ok(())
    }

    /// Takes the folder away that the place had in the vault, and tells where that is not empty.
    pub fn end(&self, visit: &Visit) -> Result<(), Stop> {
        let rt = &visit.rt;
        let before = beside(visit.alloc(), self.named, (self.place, "BEFORE"))?;
        let _ = fs::remove_dir(rt, before.as_str());
        if fs::symlink_metadata(rt, before.as_str()).is_ok() {
            let _ = eprintln!(rt;
                "pots: {before} is left with files that are not at the new folder: see what they are, and take them away where nobody needs them"
            );
        }
        Ok(())
    }
}

fn is_file(rt: &HostRuntime, path: &str) -> bool {
    fs::metadata(rt, path).is_ok_and(|found| found.is_file())
}

// Copies a file, where it is not at its goal yet. One that is not where it was may be there.
fn copy_file(rt: &HostRuntime, (name, target): (&str, &str), is_new: bool) -> io::Result<()> {
    if leads_to(rt, name, target) {
        return Ok(());
    }
    let bytes = match fs::read(rt, name) {
        Ok(bytes) => bytes,
        Err(e) if e.kind() == ErrorKind::NotFound && is_file(rt, target) => return Ok(()),
        Err(e) if e.kind() == ErrorKind::NotFound && is_new && !is_link(rt, name) => {
            Vec::new(rt.alloc())
        }
        Err(e) => return Err(e),
    };
    make_folder_of(rt, target)?;
    match put_file(rt, target, &bytes, false) {
        Err(e) if e.kind() == ErrorKind::AlreadyExists => match fs::read(rt, target) {
            Ok(found) if found.as_slice() == bytes.as_slice() => Ok(()),
            Ok(_) if bytes.is_empty() && !is_new => Ok(()),
            _ => Err(e),
        },
        done => done,
    }
}

fn relink_one(rt: &HostRuntime, name: &str, target: &str) -> io::Result<()> {
    if fs::read_link(rt, name).is_ok_and(|found| found.as_str() == target) {
        return Ok(());
    }
    let link = format!(in rt.alloc(); "{name}.link")?;
    let link = link.as_str();
    if is_link(rt, link) {
        fs::remove_file(rt, link)?;
    }
    symlink(rt, target, link)?;
    fs::rename(rt, link, name)?;
    sync_folder_of(rt, name)
}

// Whether two files have the same bytes.
fn are_same(rt: &HostRuntime, first: &str, second: &str) -> bool {
    match (fs::read(rt, first), fs::read(rt, second)) {
        (Ok(first), Ok(second)) => first.as_slice() == second.as_slice(),
        _ => false,
    }
}
