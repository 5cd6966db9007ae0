//! Refusals as lines that say what failed and what to do next.

use crate::sizes::Size;
use crate::texts::spoken_name;
use pot_bytes::Name;
use pot_script::Reply;
use std::alloc::{AllocError, Global};

/// The line of a refusal, and of any other reply an empty one.
pub fn refusal_line(alloc: Global, reply: &Reply) -> Result<String, AllocError> {
    match reply {
        Reply::Long { name, length } => long(alloc, name, *length),
        Reply::Exists { name } => exists(alloc, name),
        Reply::Full { group } => full(alloc, *group),
        Reply::Absent { name } => absent(alloc, name),
        Reply::Lost {
            name,
            piece,
            fragment,
            have,
            need,
        } => lost(alloc, name, (*piece, *fragment), (*have, *need)),
        Reply::Odd { name, .. } => odd(alloc, name),
        _ => of_archives(alloc, reply),
    }
}

// The line of a refusal that names no file's bytes.
fn of_archives(alloc: Global, reply: &Reply) -> Result<String, AllocError> {
    match reply {
        Reply::Fault { group, column } => fault(alloc, *group, *column),
        Reply::LogFull { group } => format!(in alloc;
            "the log of group {group} has no room in this session: give the command once more"
        ),
        Reply::IndexLogFull => String::from_str(
            alloc,
            "the log of the index has no room in this session: give the command once more",
        ),
        Reply::NoArchive { number } => format!(in alloc;
            "archive {number} is in no use: pots place tells which are"
        ),
        Reply::InUse { number } => format!(in alloc;
            "archive {number} is in use, or was in this session: name one that was never used"
        ),
        Reply::Often { name } => often(alloc, name),
        _ => Ok(String::new(alloc)),
    }
}

fn long(alloc: Global, name: &Name, length: u64) -> Result<String, AllocError> {
    let name = spoken_name(alloc, name)?;
    let length = Size(length);
    format!(in alloc;
        "{name} has {length} and was not stored: no part may have more than 884736 bytes"
    )
}

fn exists(alloc: Global, name: &Name) -> Result<String, AllocError> {
    let name = spoken_name(alloc, name)?;
    format!(in alloc;
        "{name} is stored already, and stays as it is: store it under another name with --as"
    )
}

fn full(alloc: Global, group: u8) -> Result<String, AllocError> {
    format!(in alloc;
        "group {group} has no room left: make a second archive in another folder, with pots init"
    )
}

fn absent(alloc: Global, name: &Name) -> Result<String, AllocError> {
    let name = spoken_name(alloc, name)?;
    format!(in alloc; "{name} is not stored: pots list tells what is")
}

fn lost(alloc: Global, name: &Name, at: (u32, u8), count: (u8, u8)) -> Result<String, AllocError> {
    let name = spoken_name(alloc, name)?;
    let (piece, fragment) = at;
    let (have, need) = count;
    format!(in alloc;
        "{name} is not there as a whole: of fragment {fragment} of piece {piece} only {have} of {need} shards were found; pots repair mends what parity gives back; where archives are only not mounted, mount them, and what they hold is found again"
    )
}

fn odd(alloc: Global, name: &Name) -> Result<String, AllocError> {
    let name = spoken_name(alloc, name)?;
    format!(in alloc;
        "{name} came back with other bytes than were stored, and was not written: put an older desk back, as potshards-recovery(7) tells, or try pots recover"
    )
}

fn fault(alloc: Global, group: u8, column: u8) -> Result<String, AllocError> {
    let line = u64::from(column).saturating_add(1);
    format!(in alloc;
        "the archive of column {column} of group {group} failed: pots place tells where it lies, in line {line} of that group where none of its columns moves; see that its disk can be read and written and has room, or put a new one in its place with pots replace"
    )
}

fn often(alloc: Global, name: &Name) -> Result<String, AllocError> {
    let name = spoken_name(alloc, name)?;
    format!(in alloc;
        "{name} was split anew as often as a file may be: fetch it, and store it under another name"
    )
}
