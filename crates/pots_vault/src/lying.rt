//! The folders in which archives really lie, and the shares of a desk beside them.

use crate::archives::archive_name;
use crate::numbers::MOST_ARCHIVES;
use crate::stop::Stop;
use crate::visit::Visit;
use std::alloc::{AllocError, Global};
use std::fs;
use std::path::Path;

/// The most places that an archive has.
pub const MOST_PLACES: u8 = 16;

/// Where the file of an archive lies.
#[derive(Drop)]
pub struct Lying {
    /// The path of its folder.
    pub folder: String,
    /// Whether the folder is there: a link may lead to a disk that is not mounted.
    pub is_there: bool,
}

/// Where the file of an archive lies. One that is not made yet is to lie in the working folder.
pub fn lying_of(visit: &Visit, number: u32) -> Result<Lying, Stop> {
    let rt = &visit.rt;
    let name = archive_name(visit.alloc(), number)?;
    if let Ok(path) = fs::canonicalize(rt, name.as_str()) {
        let folder = folder_in(visit.alloc(), path.as_str())?;
        return Ok(Lying {
            folder,
            is_there: true,
        });
    }
    match fs::read_link(rt, name.as_str()) {
        Ok(target) => Ok(Lying {
            folder: folder_in(visit.alloc(), target.as_str())?,
            is_there: false,
        }),
        Err(_) => Ok(Lying {
            folder: own_folder(visit)?,
            is_there: true,
        }),
    }
}

/// The path of the working folder.
pub fn own_folder(visit: &Visit) -> Result<String, Stop> {
    match fs::canonicalize(&visit.rt, ".") {
        Ok(path) => Ok(path.into_string()),
        Err(_) => Ok(String::from_str(visit.alloc(), ".")?),
    }
}

// The folder in which a path is.
fn folder_in(alloc: Global, path: &str) -> Result<String, AllocError> {
    match Path::new(path).parent() {
        Some(parent) if !parent.as_str().is_empty() => String::from_str(alloc, parent.as_str()),
        _ => String::from_str(alloc, "."),
    }
}

/// The path of the share of a place in a folder.
pub fn share_path(alloc: Global, folder: &str, place: u8) -> Result<String, AllocError> {
    format!(in alloc; "{folder}/desk-share-{place}")
}

/// The working folder, and those in which the archives lie that are here, by file or by link.
pub fn folders_about(visit: &Visit) -> Result<Vec<String>, Stop> {
    let mut folders = Vec::new(visit.alloc());
    folders.push(own_folder(visit)?)?;
    for number in 0..MOST_ARCHIVES {
        let name = archive_name(visit.alloc(), number)?;
        if fs::symlink_metadata(&visit.rt, name.as_str()).is_ok() {
            let lying = lying_of(visit, number)?;
            if !has_folder(&folders, lying.folder.as_str()) {
                folders.push(lying.folder)?;
            }
        }
    }
    Ok(folders)
}

// Whether a folder is among these.
fn has_folder(folders: &[String], folder: &str) -> bool {
    folders.iter().any(|other| other.as_str() == folder)
}

/// Whether a share of a desk lies in one of the folders of the archives that are here.
pub fn are_shares_about(visit: &Visit) -> Result<bool, Stop> {
    for folder in folders_about(visit)?.iter() {
        if has_share(visit, folder.as_str())? {
            return Ok(true);
        }
    }
    Ok(false)
}

fn has_share(visit: &Visit, folder: &str) -> Result<bool, Stop> {
    for place in 0..MOST_PLACES {
        let path = share_path(visit.alloc(), folder, place)?;
        if fs::metadata(&visit.rt, path.as_str()).is_ok_and(|found| found.is_file()) {
            return Ok(true);
        }
    }
    Ok(false)
}
