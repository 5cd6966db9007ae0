//! `cat`: one file, or one of a snapshot, on standard output.

use crate::program::{Program, Sessions};
use crate::snapshots::{asked_snapshot, entries_of};
use crate::whole::fetch_whole;
use crate::words::{operand, option, reading_command};
use clap::{Arg, ArgAction, ArgMatches};
use pot_bytes::{Digest, Name, digest_of};
use pot_report::kept_files;
use pot_tree::{Content, Entry, read_pack};
use pots_vault::{Stop, Visit, image};
use std::alloc::{AllocError, Global};
use std::io;
use std::io::Write;
use std::sync::Wait;
use std::thread::Threads;

/// Its words.
pub fn words<'a>(alloc: Global) -> Result<clap::Command<'a>, AllocError> {
    reading_command(
        alloc,
        "cat",
        "Write one file, or one of a snapshot, to standard output",
    )?
    .arg(operand(alloc, "NAME", "The name of the file, or of the snapshot"))?
    .arg(
        Arg::new(alloc, "PATH")
            .action(ArgAction::Set)
            .help("The path in the snapshot"),
    )?
    .arg(option(
        alloc,
        "at",
        "DATE",
        "Of the newest snapshot of this date or before, as 2026-01-31",
    ))
}

/// Writes one file, or one of a snapshot, to standard output.
pub fn work<X: Threads + Wait + Sync, P: Program>(
    sessions: &Sessions<'_, X, P>,
    visit: &mut Visit,
    words: &ArgMatches,
) -> Result<u8, Stop> {
    let name = words.get_str("NAME").unwrap_or("");
    match words.get_str("PATH") {
        Some(path) => write_path(sessions, visit, words, (name, path)),
        None if words.get_str("at").is_some() => {
            Err(visit.refuse(2, "--at is of a snapshot: give the path too"))
        }
        None => write_file(sessions, visit, name),
    }
}

// Writes a stored file, once all of it is there.
fn write_file<X: Threads + Wait + Sync, P: Program>(
    sessions: &Sessions<'_, X, P>,
    visit: &mut Visit,
    name: &str,
) -> Result<u8, Stop> {
    let image = image(visit)?;
    let files = kept_files(visit.alloc(), &image)?;
    let found = Name::read(name.as_bytes()).and_then(|name| files
        .get(&name)
        .map(|kept| (name, *kept)));
    let Some(found) = found else {
        let line = format!(in visit.alloc();
            "{name} is not stored: pots list tells what is; of a snapshot give the path too"
        )?;
        return Err(visit.refuse(1, line.as_str()));
    };
    match fetch_whole(sessions, visit, &[found])?.pop() {
        Some(Some(bytes)) => write_out(visit, &bytes),
        _ => Err(visit.refuse(1, "the file could not be fetched, and nothing was written")),
    }
}

// Writes one file of a snapshot.
fn write_path<X: Threads + Wait + Sync, P: Program>(
    sessions: &Sessions<'_, X, P>,
    visit: &mut Visit,
    words: &ArgMatches,
    (name, path): (&str, &str),
) -> Result<u8, Stop> {
    let image = image(visit)?;
    let stored = asked_snapshot(visit, &image, name, words.get_str("at"))?;
    let entries = entries_of(sessions, visit, &stored)?;
    let Some((digest, pack)) = place_of(&entries, path) else {
        let line = format!(in visit.alloc();
            "the snapshot has no file {path}: pots list {name} tells what it has"
        )?;
        return Err(visit.refuse(1, line.as_str()));
    };
    let files = kept_files(visit.alloc(), &image)?;
    let mut packs = Vec::new(visit.alloc());
    if let Some(kept) = files.get(&pack) {
        packs.push((pack, *kept))?;
    }
    let mut fetched = fetch_whole(sessions, visit, &packs)?;
    match fetched.pop() {
        Some(Some(bytes)) => write_held(visit, &bytes, &digest),
        _ => Err(lost(visit)),
    }
}

// The digest and the pack of the file at a path.
fn place_of(entries: &[Entry], path: &str) -> Option<(Digest, Name)> {
    for entry in entries {
        if let Content::File { digest, pack, .. } = &entry.content {
            if entry.path.as_slice() == path.as_bytes() {
                return Some((*digest, *pack));
            }
        }
    }
    None
}

fn lost(visit: &Visit) -> Stop {
    visit.refuse(
        1,
        "the pack that holds this file could not be fetched: mend with pots repair",
    )
}

// Writes the file of this digest that a pack holds.
fn write_held(visit: &Visit, pack: &[u8], digest: &Digest) -> Result<u8, Stop> {
    let Ok(files) = read_pack(visit.alloc(), pack) else {
        return Err(lost(visit));
    };
    for file in files {
        if digest_of(file.as_slice()) == *digest {
            return write_out(visit, file.as_slice());
        }
    }
    Err(lost(visit))
}

fn write_out(visit: &Visit, bytes: &[u8]) -> Result<u8, Stop> {
    let mut out = io::writer(&visit.rt);
    match out.write_all(bytes) {
        Ok(()) => Ok(0),
        Err(e) if e.kind() == io::ErrorKind::BrokenPipe => Ok(0),
        Err(_) => Err(Stop::Output),
    }
}
