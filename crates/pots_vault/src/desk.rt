//! What the desk says.

use crate::lying::are_shares_about;
use crate::stop::Stop;
use crate::visit::Visit;
use pot_image::{Image, read_image};
use pot_outside::{Desk, DeskFault};

/// The bytes of the desk's image.
pub fn image_bytes(visit: &mut Visit) -> Result<Vec<u8>, Stop> {
    match visit.desk.read() {
        Ok(Some(bytes)) => Ok(bytes),
        Ok(None) => Err(no_desk(visit)?),
        Err(DeskFault::NoMemory) => Err(Stop::NoMemory),
        Err(DeskFault::Failed) => Err(visit.refuse(
            6,
            "the desk could not be locked or read: see that no other program works in this folder, that desk.pss and desk.lock can be written, and that a desk.psi is a file that can be read",
        )),
    }
}

// The end of the command where there is no desk.
fn no_desk(visit: &Visit) -> Result<Stop, Stop> {
    let line = if are_shares_about(visit)? {
        "the desk of this archive is gone, and shares of it lie beside the archives: get it back with pots recover-desk"
    } else {
        "there is no archive in this folder: go to the folder of one, or make one with pots init; where the desk of this one is lost, potshards-recovery(7) tells how it comes back"
    };
    Ok(visit.refuse(7, line))
}

// The end of the command where the desk's image is damaged.
fn damaged(visit: &Visit) -> Result<Stop, Stop> {
    let line = if are_shares_about(visit)? {
        "the desk's image is damaged, and shares of it lie beside the archives: get it back with pots recover-desk"
    } else {
        "the desk's image is damaged: put a copy of it back as potshards-recovery(7) tells, or get the files back with pots recover"
    };
    Ok(visit.refuse(7, line))
}

/// The desk's image.
pub fn image(visit: &mut Visit) -> Result<Image, Stop> {
    let bytes = image_bytes(visit)?;
    parsed(visit, &bytes)
}

/// The image that bytes are.
pub fn parsed(visit: &Visit, bytes: &[u8]) -> Result<Image, Stop> {
    match read_image(visit.alloc(), bytes) {
        Ok(image) => Ok(image),
        Err(_) => Err(damaged(visit)?),
    }
}
