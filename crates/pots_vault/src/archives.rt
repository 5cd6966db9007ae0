//! The files of archives: their names, where they lie, and how they stand.

use crate::stop::Stop;
use crate::visit::Visit;
use pot_report::Holding;
use std::alloc::{AllocError, Global};
use std::fs;

/// How the file of an archive stands beside what the desk knows of it.
#[derive(Clone, Copy, Debug, PartialEq, Eq)]
pub enum Standing {
    There,
    Missing,
    /// It ends before a block that should be there.
    Short,
    /// It is a folder, a pipe or a device.
    NoFile,
}

/// The name of the file of an archive.
pub fn archive_name(alloc: Global, number: u32) -> Result<String, AllocError> {
    format!(in alloc; "archive-{number}")
}

/// How the file of an archive stands. Of one that holds no block yet the file need not be there.
pub fn look_at(rt: &HostRuntime, holding: &Holding) -> Result<Standing, AllocError> {
    let name = archive_name(rt.alloc(), holding.archive)?;
    match fs::metadata(rt, name.as_str()) {
        Ok(file) if !file.is_file() => Ok(Standing::NoFile),
        Ok(file) if file.len() < holding.length => Ok(Standing::Short),
        Ok(_) => Ok(Standing::There),
        Err(_) if holding.length == 0 => Ok(Standing::There),
        Err(_) => Ok(Standing::Missing),
    }
}

/// Ends the command where a folder, a pipe or a device has the place of an archive: to read it may
/// have no end.
///
/// # Errors
/// What stands there was said.
pub fn look_for_file(visit: &Visit, number: u32) -> Result<(), Stop> {
    let name = archive_name(visit.alloc(), number)?;
    match fs::metadata(&visit.rt, name.as_str()) {
        Ok(found) if !found.is_file() => Err(no_file(visit, number)?),
        _ => Ok(()),
    }
}

// The end of the command where a folder, a pipe or a device has the place of an archive.
fn no_file(visit: &Visit, number: u32) -> Result<Stop, Stop> {
    let name = named(visit, number)?;
    let line = format!(in visit.alloc();
        "{name} is no file: move it away, and put the archive's file there"
    )?;
    Ok(visit.refuse(8, line.as_str()))
}

/// Where the file of an archive lies.
pub fn place_text(visit: &Visit, number: u32) -> Result<String, Stop> {
    let name = archive_name(visit.alloc(), number)?;
    match fs::read_link(&visit.rt, name.as_str()) {
        Ok(target) => Ok(target.into_string()),
        Err(_) => Ok(name),
    }
}

/// An archive by the name of its file, and where that leads.
pub fn named(visit: &Visit, number: u32) -> Result<String, Stop> {
    let name = archive_name(visit.alloc(), number)?;
    with_place(visit, number, name)
}

/// An archive by its number, and where its file leads.
pub fn numbered(visit: &Visit, number: u32) -> Result<String, Stop> {
    let name = format!(in visit.alloc(); "archive {number}")?;
    with_place(visit, number, name)
}

// The text, with where the archive's file leads behind it if it is a link.
fn with_place(visit: &Visit, number: u32, mut text: String) -> Result<String, Stop> {
    let name = archive_name(visit.alloc(), number)?;
    if let Ok(target) = fs::read_link(&visit.rt, name.as_str()) {
        text.push_str(" at ")?;
        text.push_str(target.as_str())?;
    }
    Ok(text)
}
