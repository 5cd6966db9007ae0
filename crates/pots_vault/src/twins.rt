//! Two archives in one file: each would write over the blocks of the other.

use crate::archives::{archive_name, named};
use crate::stop::Stop;
use crate::visit::Visit;
use pot_report::Holding;
use std::collections::BTreeMap;
use std::fs;
use std::os::unix::fs::MetadataExt;

/// Ends the command where the numbers of two archives lead to one file.
pub fn look_for_twins(visit: &Visit, all: &[Holding]) -> Result<(), Stop> {
    let mut files: BTreeMap<(u64, u64), u32> = BTreeMap::new(visit.alloc());
    for holding in all.iter() {
        let number = holding.archive;
        let Some(file) = file_of(visit, number)? else {
            continue;
        };
        let Some(other) = files.insert(file, number)? else {
            continue;
        };
        if lead_to_one(visit, other, number)? {
            return Err(one_file(visit, other, number)?);
        }
    }
    Ok(())
}

// The device and the number on it of the file of an archive, where there is one.
fn file_of(visit: &Visit, number: u32) -> Result<Option<(u64, u64)>, Stop> {
    let name = archive_name(visit.alloc(), number)?;
    match fs::metadata(&visit.rt, name.as_str()) {
        Ok(file) => Ok(Some((file.dev(), file.ino()))),
        Err(_) => Ok(None),
    }
}

// Whether two archives whose files have one number have one file: they lead to one path, or it has
// several names. A file system that gives all its files one number shows no more than that.
fn lead_to_one(visit: &Visit, first: u32, second: u32) -> Result<bool, Stop> {
    let other = archive_name(visit.alloc(), first)?;
    let name = archive_name(visit.alloc(), second)?;
    let rt = &visit.rt;
    let has_names = match fs::metadata(rt, name.as_str()) {
        Ok(file) => file.nlink() > 1,
        Err(_) => false,
    };
    Ok(
        match (
            fs::canonicalize(rt, other.as_str()),
            fs::canonicalize(rt, name.as_str()),
        ) {
            (Ok(other), Ok(name)) => has_names || other.as_str() == name.as_str(),
            _ => has_names,
        },
    )
}

// The end of the command where two archives have one file.
fn one_file(visit: &Visit, first: u32, second: u32) -> Result<Stop, Stop> {
    let other = named(visit, first)?;
    let name = named(visit, second)?;
    let line = format!(in visit.alloc();
        "{other} and {name} are one file, and each would write over the blocks of the other: give each link the file of its own archive"
    )?;
    Ok(visit.refuse(8, line.as_str()))
}
