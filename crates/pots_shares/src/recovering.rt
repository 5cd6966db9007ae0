//! A desk comes back from its shares.

use crate::finding::{Found, shares_in};
use pot_desk_shares::{DeskShare, JoinFault, Joined, ShareHead, join, read_share};
use pot_image::{Image, read_image};
use pot_outside::{Desk, DeskFault};
use pot_report::kept_files;
use pots_vault::{Stop, Visit, put_file};
use std::alloc::AllocError;

/// Writes the newest desk of which enough shares lie in these folders.
///
/// # Errors
/// What is wanting was said. A desk that is sound stays as it is.
pub fn recover_desk(visit: &mut Visit, folders: &[String]) -> Result<(), Stop> {
    look_for_desk(visit)?;
    let found = shares_in(visit, folders)?;
    let Joined { head, text } = joined_of(visit, &found)?;
    let image = image_in(visit, &text)?;
    if visit.desk.replace(&text).is_err() {
        return Err(visit.refuse(
            6,
            "the desk could not be written: see that files can be made in this folder and that its disk has room",
        ));
    }
    tell_newer(visit, &found, &head);
    tell_back(visit, &image)
}

// Ends the command where there is a sound desk. One that is damaged is kept beside.
fn look_for_desk(visit: &mut Visit) -> Result<(), Stop> {
    let bytes = match visit.desk.read() {
        Ok(None) => return Ok(()),
        Ok(Some(bytes)) => bytes,
        Err(DeskFault::NoMemory) => return Err(Stop::NoMemory),
        Err(DeskFault::Failed) => {
            return Err(visit.refuse(
                6,
                "the desk could not be locked or read: see that no other program works in this folder, and that desk.pss and desk.lock can be written",
            ));
        }
    };
    if read_image(visit.alloc(), &bytes).is_ok() {
        return Err(visit.refuse(
            10,
            "there is a desk in this folder already, and it stays as it is: where it is the wrong one, move desk.pss and desk.psi away, and give the command once more",
        ));
    }
    keep_damaged(visit, &bytes)
}

fn keep_damaged(visit: &Visit, bytes: &[u8]) -> Result<(), Stop> {
    if put_file(&visit.rt, "desk-damaged.bak", bytes, true).is_ok() {
        return Ok(());
    }
    Err(visit.refuse(
        6,
        "the damaged desk could not be kept as desk-damaged.bak: see that files can be made in this folder and that its disk has room",
    ))
}

// What the shares are joined to.
fn joined_of(visit: &Visit, found: &[Found]) -> Result<Joined, Stop> {
    let mut shares: Vec<DeskShare> = Vec::new(visit.alloc());
    for one in found.iter() {
        if let Some(share) = read_share(&one.bytes) {
            shares.push(share)?;
        }
    }
    match join(visit.alloc(), &shares) {
        Ok(joined) => Ok(joined),
        Err(JoinFault::NoMemory) => Err(Stop::NoMemory),
        Err(JoinFault::NoShare) => Err(visit.refuse(
            7,
            "no share of a desk is here: see that the disks of the places are mounted, and make links to their archives or name their folders, as pots recover-desk /mnt/office /mnt/home",
        )),
        Err(JoinFault::Few { head, have }) => Err(too_few(visit, &head, have)?),
        Err(JoinFault::Damaged { head }) => without_one(visit, found, &shares, &head),
    }
}

// The end of the command where too few shares are here.
fn too_few(visit: &Visit, head: &ShareHead, have: u8) -> Result<Stop, Stop> {
    let need = head.need;
    let wanting = need.saturating_sub(have);
    let count = head.count;
    let line = format!(in visit.alloc();
        "shares of the desk that are wanting: {wanting}; of the {count} of the newest one {have} are here, and {need} give it back; see that the disks of the other places are mounted, and make links to their archives or name their folders"
    )?;
    Ok(visit.refuse(7, line.as_str()))
}

// What the shares are joined to without one of them, which is forged.
fn without_one(
    visit: &Visit,
    found: &[Found],
    shares: &[DeskShare],
    head: &ShareHead,
) -> Result<Joined, Stop> {
    for (left, one) in found.iter().enumerate() {
        let others = all_but(visit, shares, left)?;
        if let Ok(joined) = join(visit.alloc(), &others) {
            if joined.head.generation == head.generation {
                let rt = &visit.rt;
                let path = one.path.as_str();
                let _ = eprintln!(rt; "pots: {path} is forged, and was left out");
                return Ok(joined);
            }
        }
    }
    Err(visit.refuse(
        7,
        "enough shares of the newest desk are here, and some of them are forged: name the folders of those places that you trust, as pots recover-desk /mnt/office /mnt/home",
    ))
}

fn all_but<'a>(
    visit: &Visit,
    shares: &[DeskShare<'a>],
    left: usize,
) -> Result<Vec<DeskShare<'a>>, AllocError> {
    let mut others = Vec::new(visit.alloc());
    for (at, share) in shares.iter().enumerate() {
        if at != left {
            others.push(*share)?;
        }
    }
    Ok(others)
}

// The image that a joined text is.
fn image_in(visit: &Visit, text: &[u8]) -> Result<Image, Stop> {
    match read_image(visit.alloc(), text) {
        Ok(image) => Ok(image),
        Err(_) => Err(visit.refuse(
            7,
            "what the shares give is no desk of this version: get the files back with pots recover",
        )),
    }
}

// Tells of shares that are newer than the desk that came back.
fn tell_newer(visit: &Visit, found: &[Found], head: &ShareHead) {
    for one in found.iter() {
        if let Some(share) = read_share(&one.bytes) {
            if share.head.generation > head.generation {
                let rt = &visit.rt;
                let path = one.path.as_str();
                let session = share.head.generation;
                let _ = eprintln!(rt;
                    "pots: {path} is of session {session}, and too few shares of that are here: what was stored since is not in this desk; get it with pots recover, before anything is stored"
                );
            }
        }
    }
}

fn tell_back(visit: &Visit, image: &Image) -> Result<(), Stop> {
    if visit.json {
        return visit.tell_file("recovered", "desk.pss");
    }
    let session = image.session;
    let files = kept_files(visit.alloc(), image)?.len();
    println!(visit;
        "the desk is back, as session {session} left it, with {files} files: see pots list and pots status; the next command that holds a session first repairs all groups"
    )
}
