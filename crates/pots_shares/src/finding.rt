//! Shares of a desk that are found in folders.

use pot_desk_shares::{LONGEST, read_share};
use pots_vault::{MOST_PLACES, Stop, Visit, share_path};
use std::fs;

/// The most bytes of the file of a share: those of the longest text, a head and two digests.
const MOST_BYTES: u64 = LONGEST + 96;

/// A share that was found.
#[derive(Drop)]
pub struct Found {
    pub path: String,
    pub bytes: Vec<u8>,
}

/// The shares that lie in these folders. A file of such a name that is no share is told.
pub fn shares_in(visit: &Visit, folders: &[String]) -> Result<Vec<Found>, Stop> {
    let mut found = Vec::new(visit.alloc());
    for folder in folders.iter() {
        for place in 0..MOST_PLACES {
            if let Some(share) = share_at(visit, folder.as_str(), place)? {
                found.push(share)?;
            }
        }
    }
    Ok(found)
}

/// The share of a place in a folder. One that is none is told.
pub fn share_at(visit: &Visit, folder: &str, place: u8) -> Result<Option<Found>, Stop> {
    let path = share_path(visit.alloc(), folder, place)?;
    match fs::metadata(&visit.rt, path.as_str()) {
        Ok(file) if file.is_file() && file.len() <= MOST_BYTES => {}
        Ok(_) => return told_odd(visit, path.as_str()),
        Err(_) => return Ok(None),
    }
    let Ok(bytes) = fs::read(&visit.rt, path.as_str()) else {
        return told_odd(visit, path.as_str());
    };
    if read_share(&bytes).is_none() {
        return told_odd(visit, path.as_str());
    }
    Ok(Some(Found { path, bytes }))
}

// Tells that a file is no share.
fn told_odd(visit: &Visit, path: &str) -> Result<Option<Found>, Stop> {
    let rt = &visit.rt;
    let _ = eprintln!(rt; "pots: {path} is no share of a desk, or a damaged one, and is left out");
    Ok(None)
}
