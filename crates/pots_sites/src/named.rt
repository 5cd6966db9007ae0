//! The places of a vault by name, as they are seen from the working folder.

use pot_bytes::{Name, Rack};
use pot_files::read_file;
use pot_image::Image;
use pot_report::{holdings, name_text, place_of, places_of};
use pots_places::{PLACES_FILE, are_places, is_of_other_version, place_named, read_places};
use pots_racks::read_rack;
use pots_vault::{Stop, Visit, refuse};
use std::alloc::{AllocError, Global};
use std::fs;
use std::path::Path;

/// The most bytes of the file that names places.
const LONGEST: u64 = 1_200;

/// The places of a vault by name.
#[derive(Drop)]
pub struct Named {
    pub names: Vec<Name>,
    /// What leads from the working folder to that of the vault: nothing, or `../` from a rack.
    pub up: &'static str,
    /// The folder of the rack with a slash behind it, or nothing in a vault with one desk.
    pub rack: String,
}

/// The places of the vault of the working folder, or of the vault of racks whose rack that is. None
/// where they have no names.
///
/// # Errors
/// What is wrong with the file that names them was said.
pub fn places_here(rt: &HostRuntime) -> Result<Option<Named>, Stop> {
    if fs::metadata(rt, PLACES_FILE).is_ok_and(|found| found.is_file()) {
        return Ok(Some(Named {
            names: names_in(rt, PLACES_FILE)?,
            up: "",
            rack: String::new(rt.alloc()),
        }));
    }
    let Some(rack) = rack_here(rt)? else {
        return Ok(None);
    };
    if !fs::metadata(rt, "../PLACES").is_ok_and(|found| found.is_file()) {
        return Ok(None);
    }
    Ok(Some(Named {
        names: names_in(rt, "../PLACES")?,
        up: "../",
        rack,
    }))
}

// The name of the working folder and a slash, where it is that of a rack.
fn rack_here(rt: &HostRuntime) -> Result<Option<String>, Stop> {
    let Ok(here) = fs::canonicalize(rt, ".") else {
        return Ok(None);
    };
    let Some(name) = Path::new(here.as_str()).file_name() else {
        return Ok(None);
    };
    match name.strip_prefix("rack-") {
        Some(digits) if read_rack(digits.as_bytes()).is_some() => {
            Ok(Some(format!(in rt.alloc(); "{name}/")?))
        }
        _ => Ok(None),
    }
}

// The names in the file of this path.
fn names_in(rt: &HostRuntime, path: &str) -> Result<Vec<Name>, Stop> {
    let Ok(text) = read_file(rt, path, LONGEST) else {
        return Err(refuse(
            rt,
            7,
            "PLACES could not be read: see that it is a file, and that it can be read",
        ));
    };
    match read_places(rt.alloc(), &text)? {
        Some(names) => Ok(names),
        None if is_of_other_version(&text) => Err(refuse(
            rt,
            7,
            "PLACES is of another version of pots, and nothing was done: use that one",
        )),
        None => Err(refuse(
            rt,
            7,
            "PLACES is damaged, and nothing was done: write it anew, as potshards-recovery(7) tells",
        )),
    }
}

/// The names that a list gives, as `home,office,sister`.
pub fn asked_names(visit: &Visit, list: &str) -> Result<Vec<Name>, Stop> {
    let mut names = Vec::new(visit.alloc());
    for word in list.split(',') {
        match Name::read(word.as_bytes()) {
            Some(name) => names.push(name)?,
            None => return Err(odd_names(visit)),
        }
    }
    if are_places(&names) {
        Ok(names)
    } else {
        Err(odd_names(visit))
    }
}

fn odd_names(visit: &Visit) -> Stop {
    visit.refuse(
        2,
        "--places takes 2 to 16 names that differ, joined by commas, as home,office,sister: each begins with a letter of a-z, and has letters, digits, points, dashes and low lines behind it",
    )
}

impl Named {
    /// The number of the place that has a name.
    pub fn number(&self, text: &str) -> Option<u8> {
        let name = Name::read(text.as_bytes())?;
        let number = place_named(&self.names, &name)?;
        u8::try_from(number).ok()
    }

    /// The name of a place.
    pub fn name(&self, place: u8) -> &str {
        match self.names.get(usize::from(place)) {
            Some(name) => name_text(name),
            None => "",
        }
    }

    /// The path of a place.
    pub fn folder(&self, alloc: Global, place: u8) -> Result<String, AllocError> {
        let up = self.up;
        let name = self.name(place);
        format!(in alloc; "{up}places/{name}")
    }

    /// Where the link of an archive leads.
    pub fn target(&self, alloc: Global, place: u8, number: u32) -> Result<String, AllocError> {
        let up = self.up;
        let name = self.name(place);
        let rack = self.rack.as_str();
        format!(in alloc; "{up}places/{name}/{rack}archive-{number}")
    }

    /// Ends the command where there are not as many names as the vault has places.
    pub fn look_at_count(&self, visit: &Visit, rack: &Rack) -> Result<(), Stop> {
        let count = places_of(rack);
        if self.names.len() == usize::from(count) {
            return Ok(());
        }
        let named = self.names.len();
        let line = format!(in visit.alloc();
            "PLACES names {named} places, and this vault has {count}: write it anew, as potshards-recovery(7) tells"
        )?;
        Err(visit.refuse(7, line.as_str()))
    }
}

/// A place by its name where it has one, and else by its number.
pub fn place_word(alloc: Global, named: &Option<Named>, place: u8) -> Result<String, AllocError> {
    match named {
        Some(named) => String::from_str(alloc, named.name(place)),
        None => format!(in alloc; "{place}"),
    }
}

/// The archives of a place, by the desk.
pub fn archives_of(alloc: Global, image: &Image, place: u8) -> Result<Vec<u32>, AllocError> {
    let mut numbers = Vec::new(alloc);
    for holding in holdings(alloc, image)?.iter() {
        if place_of(&image.rack, holding.group) == place {
            numbers.push(holding.archive)?;
        }
    }
    Ok(numbers)
}
