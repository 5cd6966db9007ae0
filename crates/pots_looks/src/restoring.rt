//! A copy of the desk that is put back.

use pot_image::{Image, read_image};
use pot_outside::{Desk, DeskFault};
use pots_vault::{Stop, Visit, keep_image};
use std::fs;

/// The bytes of the longest image that a desk has room for.
const LONGEST: u64 = (1 << 30) - 4096;

/// The desk that is here before.
#[derive(Clone, Copy)]
enum Before {
    None,
    Damaged,
    Sound(u32),
}

/// Puts a copy of the desk's image in the place of the desk, where that is missing or damaged, or
/// where it may be replaced. A sound one that is replaced is kept beside it.
pub fn restore(visit: &mut Visit, path: &str, may_replace: bool) -> Result<(), Stop> {
    let bytes = copy_at(visit, path)?;
    let session = image_of(visit, path, &bytes)?.session;
    let was = looked_at(visit, may_replace, session)?;
    if visit.desk.replace(&bytes).is_err() {
        return Err(visit.refuse(
            6,
            "the desk could not be written: see that desk.pss is a file that can be written and that its disk has room; a desk.pss that is damaged may be moved away",
        ));
    }
    tell_restored(visit, path, session, &was)
}

// The bytes of a copy.
fn copy_at(visit: &Visit, path: &str) -> Result<Vec<u8>, Stop> {
    let rt = &visit.rt;
    let is_fit = match fs::metadata(rt, path) {
        Ok(found) => found.is_file() && found.len() <= LONGEST,
        Err(_) => false,
    };
    if is_fit {
        if let Ok(bytes) = fs::read(rt, path) {
            return Ok(bytes);
        }
    }
    let line = format!(in visit.alloc();
        "{path} could not be read: give a file that pots backup-desk wrote, or a desk-NNNN.bak"
    )?;
    Err(visit.refuse(4, line.as_str()))
}

// The image that a copy is.
fn image_of(visit: &Visit, path: &str, bytes: &[u8]) -> Result<Image, Stop> {
    match read_image(visit.alloc(), bytes) {
        Ok(image) => Ok(image),
        Err(_) => {
            let line = format!(in visit.alloc();
                "{path} is no sound copy of a desk, and nothing was written: take another one; a copy of desk.pss itself goes back under that name"
            )?;
            Err(visit.refuse(7, line.as_str()))
        }
    }
}

// The desk that is here before. One that is sound ends the command, unless it may be replaced: then
// it is kept.
fn looked_at(visit: &mut Visit, may_replace: bool, session: u32) -> Result<Before, Stop> {
    let bytes = match visit.desk.read() {
        Ok(Some(bytes)) => bytes,
        Ok(None) => return Ok(Before::None),
        Err(DeskFault::NoMemory) => return Err(Stop::NoMemory),
        Err(DeskFault::Failed) => {
            return Err(visit.refuse(
                6,
                "the desk could not be locked or read: see that no other program works in this folder, and that desk.pss is a file; one that cannot be read may be moved away",
            ));
        }
    };
    let Ok(image) = read_image(visit.alloc(), &bytes) else {
        return Ok(Before::Damaged);
    };
    let here = image.session;
    if !may_replace {
        let line = format!(in visit.alloc();
            "the desk here is sound, of session {here}, and the copy is of session {session}: nothing was written; what was stored since the copy is not in it; where it is to go back all the same, give --force"
        )?;
        return Err(visit.refuse(10, line.as_str()));
    }
    keep_image(visit, here, &bytes)?;
    Ok(Before::Sound(here))
}

fn tell_restored(visit: &Visit, path: &str, session: u32, was: &Before) -> Result<(), Stop> {
    if visit.json {
        return visit.tell_file("restored", path);
    }
    match was {
        Before::None => println!(visit;
            "{path}, of session {session}, is the desk now; there was none"
        )?,
        Before::Damaged => {
            println!(visit;
                "{path}, of session {session}, is the desk now; the one before was damaged"
            )?
        }
        Before::Sound(here) => println!(visit;
            "{path}, of session {session}, is the desk now; the one before, of session {here}, is kept as desk-{here:04}.bak"
        )?,
    }
    println!(visit;
        "look and mend with pots check and pots repair; pots recover finds files that were stored after the copy, before anything else is stored"
    )
}
