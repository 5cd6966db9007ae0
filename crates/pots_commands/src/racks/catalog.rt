//! The catalog of a vault of racks: a cache of what `list` tells. It counts of a rack only where
//! the rack's desk stands as it did, and for nothing but `list`.

use crate::racks::entering::Home;
use pot_bytes::Name;
use pot_report::{Kept, kept_files};
use pots_racks::{
    CATALOG_FILE, Line, Listed, RackDesk, catalog_text, may_be_catalog, read_catalog, section_of,
};
use pots_vault::{DeskStanding, Stop, Visit, desk_standing, image, put_file};
use std::alloc::AllocError;
use std::fs;
use std::io::ErrorKind;

/// The most bytes of a catalog that is read or written.
const LONGEST: u64 = 1 << 30;

/// What a rack has, as lists tell it.
#[derive(Drop)]
pub struct Section {
    /// How its desk stood when the files were read. None where that cannot be told.
    desk: Option<RackDesk>,
    /// The lines of its files, by name.
    pub files: Vec<Line>,
}

/// The catalog as it was found, and as it is to be.
#[derive(Drop)]
pub struct Catalog {
    found: Vec<Line>,
    now: Vec<Line>,
    /// Whether the file of its name may be replaced: there is none, or it is no file of somebody's
    /// own.
    may_be_ours: bool,
}

impl Catalog {
    /// The catalog of the working folder. One that is missing, cannot be read or is no whole
    /// catalog has no line.
    pub fn load(visit: &Visit) -> Result<Catalog, Stop> {
        let (found, may_be_ours) = lines_found(visit)?;
        Ok(Catalog {
            found,
            now: Vec::new(visit.alloc()),
            may_be_ours,
        })
    }

    /// What the catalog has of a rack, where its desk stands as it did then.
    pub fn known(&self, visit: &Visit, home: &Home, rack: u32) -> Result<Option<Section>, Stop> {
        let Some((desk, files)) = section_of(&self.found, rack) else {
            return Ok(None);
        };
        let path = home.path(visit.alloc(), rack)?;
        let path = format!(in visit.alloc(); "{path}/desk.pss")?;
        match desk_standing(&visit.rt, path.as_str()) {
            Some(standing) if desk_of(rack, standing) == desk => Ok(Some(Section {
                desk: Some(desk),
                files: Vec::from_slice(visit.alloc(), files)?,
            })),
            _ => Ok(None),
        }
    }

    /// Takes up what a rack has, the racks in order.
    pub fn add(&mut self, section: &Section) -> Result<(), AllocError> {
        if let Some(desk) = section.desk {
            self.now.push(Line::OfRack(desk))?;
            self.now.extend_from_slice(&section.files)?;
        }
        Ok(())
    }

    /// Writes the catalog anew, where it is another one now. That it could not be written is told,
    /// and changes nothing else.
    pub fn save(&self, visit: &Visit) {
        let rt = &visit.rt;
        if self.now.as_slice() == self.found.as_slice() {
            return;
        }
        if !self.may_be_ours {
            let _ = eprintln!(rt;
                "pots: CATALOG is no catalog of pots, and stays as it is: move it away, and the next list makes one"
            );
        } else if !put_lines(visit, &self.now) {
            let _ = eprintln!(rt;
                "pots: CATALOG could not be written, so the next list reads the desks again: see that this folder may be written and that its disk has room"
            );
        }
    }
}

// The lines of the file of a catalog, none where it is no whole catalog, and whether it may be
// replaced.
fn lines_found(visit: &Visit) -> Result<(Vec<Line>, bool), Stop> {
    let none = Vec::new(visit.alloc());
    match fs::metadata(&visit.rt, CATALOG_FILE) {
        Ok(found) if found.is_file() && found.len() <= LONGEST => {}
        Err(e) if e.kind() == ErrorKind::NotFound => return Ok((none, true)),
        _ => return Ok((none, false)),
    }
    match fs::read(&visit.rt, CATALOG_FILE) {
        Ok(text) => match read_catalog(visit.alloc(), &text)? {
            Some(lines) => Ok((lines, true)),
            None => Ok((none, may_be_catalog(&text))),
        },
        Err(e) if e.kind() == ErrorKind::OutOfMemory => Err(Stop::NoMemory),
        Err(_) => Ok((none, false)),
    }
}

// Puts a catalog of these lines in the place of the one before. Answers whether it did, or did not
// have to, since it would be too long.
fn put_lines(visit: &Visit, lines: &[Line]) -> bool {
    match catalog_text(visit.alloc(), lines) {
        Ok(text) if text.len() as u64 > LONGEST => true,
        Ok(text) => put_file(&visit.rt, CATALOG_FILE, &text, true).is_ok(),
        Err(_) => false,
    }
}

fn desk_of(rack: u32, standing: DeskStanding) -> RackDesk {
    RackDesk {
        rack,
        generation: standing.generation,
        length: standing.length,
        digest: standing.digest,
    }
}

/// What the rack of the working folder has, by its desk. How that stands is read while it is
/// locked, so it is the desk of these files.
pub fn section_here(rt: &HostRuntime, rack: u32) -> Result<Section, Stop> {
    let mut own = Visit::begin(rt, false, None)?;
    let image = image(&mut own)?;
    let desk = match desk_standing(rt, "desk.pss") {
        Some(standing) => Some(desk_of(rack, standing)),
        None => None,
    };
    let mut files = Vec::new(own.alloc());
    for (name, kept) in kept_files(own.alloc(), &image)?.iter() {
        files.push(Line::OfFile(listed(name, kept)))?;
    }
    Ok(Section { desk, files })
}

fn listed(name: &Name, kept: &Kept) -> Listed {
    Listed {
        name: *name,
        direct: kept.direct,
        parts: kept.parts,
        bytes: kept.length,
        complete: kept.complete,
    }
}

/// What is stored under the name of a line.
pub fn kept_of(listed: &Listed) -> Kept {
    Kept {
        direct: listed.direct,
        parts: listed.parts,
        length: listed.bytes,
        complete: listed.complete,
    }
}
