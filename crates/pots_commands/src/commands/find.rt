//! `find`: where a name stands, among the files and in all snapshots.

use crate::program::{Program, Sessions};
use crate::snapshots::{Stored, entries_in, list_texts, snapshots};
use crate::words::{operand, reading_command};
use clap::ArgMatches;
use pot_image::Image;
use pot_report::{Size, digest_text, kept_files, name_text};
use pot_tree::{Content, Entry};
use pots_folders::{Snapshot, fits_path, is_pack};
use pots_vault::{Stop, Visit, image, is_stored};
use serde_json::json;
use std::alloc::{AllocError, Global};
use std::str::from_utf8;
use std::sync::Wait;
use std::thread::Threads;

/// Its words.
pub fn words<'a>(alloc: Global) -> Result<clap::Command<'a>, AllocError> {
    let about = "Find files by name, and paths in all snapshots";
    reading_command(alloc, "find", about)?.arg(operand(
        alloc,
        "PATTERN",
        "What the name or the last part of the path fits, with * and ?; with a slash, the whole path",
    ))
}

/// Tells which files and which paths of snapshots fit a pattern.
pub fn work<X: Threads + Wait + Sync, P: Program>(
    sessions: &Sessions<'_, X, P>,
    visit: &mut Visit,
    words: &ArgMatches,
) -> Result<u8, Stop> {
    let pattern = words.get_str("PATTERN").unwrap_or("").as_bytes();
    let (count, status) = search(sessions, visit, pattern)?;
    if count > 0 {
        return Ok(status);
    }
    tell_none(visit);
    Ok(1)
}

/// Tells that nothing fits a pattern.
pub fn tell_none(visit: &Visit) {
    let rt = &visit.rt;
    let _ = eprintln!(rt; "pots: nothing was found: see that the pattern stands between quotes");
}

/// Tells which files and which paths of snapshots fit a pattern. The lists of all snapshots are
/// fetched together. Answers how many fit, and the status.
pub fn search<X: Threads + Wait + Sync, P: Program>(
    sessions: &Sessions<'_, X, P>,
    visit: &mut Visit,
    pattern: &[u8],
) -> Result<(u64, u8), Stop> {
    let image = image(visit)?;
    let mut count = find_files(visit, &image, pattern)?;
    let all = snapshots(visit, &image)?;
    drop(image);
    let mut status = 0;
    let texts = list_texts(sessions, visit, &all)?;
    for (stored, text) in all.iter().zip(texts) {
        match entries_in(visit, stored, text) {
            Ok(entries) => {
                count = count.saturating_add(find_paths(visit, stored, &entries, pattern)?);
            }
            Err(Stop::Said(_)) => status = 1,
            Err(stop) => return Err(stop),
        }
    }
    Ok((count, status))
}

// Tells the files whose names fit, and answers how many.
fn find_files(visit: &Visit, image: &Image, pattern: &[u8]) -> Result<u64, Stop> {
    let mut count = 0u64;
    for (name, kept) in kept_files(visit.alloc(), image)?.iter() {
        let is_plain = Snapshot::read(*name).is_none() && !is_pack(name);
        if !is_plain || !is_stored(kept) || !fits_path(visit.alloc(), pattern, name.bytes())? {
            continue;
        }
        count = count.saturating_add(1);
        let text = name_text(name);
        let length = kept.direct.unwrap_or(kept.length);
        if visit.json {
            let line = json!(in visit.alloc(); {"name": text, "length": length})?;
            let line = line.to_string(visit.alloc())?;
            println!(visit; "{line}")?;
        } else {
            let size = Size(length);
            let size = format!(in visit.alloc(); "{size}")?;
            let size = size.as_str();
            println!(visit; "{size:>10}  {text}")?;
        }
    }
    Ok(count)
}

// Tells the paths of a snapshot that fit, and answers how many.
fn find_paths(
    visit: &Visit,
    stored: &Stored,
    entries: &[Entry],
    pattern: &[u8],
) -> Result<u64, Stop> {
    let mut count = 0u64;
    for entry in entries {
        if fits_path(visit.alloc(), pattern, entry.path.as_slice())? {
            count = count.saturating_add(1);
            tell_path(visit, &stored.snapshot, entry)?;
        }
    }
    Ok(count)
}

fn tell_path(visit: &Visit, snapshot: &Snapshot, entry: &Entry) -> Result<(), Stop> {
    if visit.json {
        return tell_path_json(visit, snapshot, entry);
    }
    let path = from_utf8(entry.path.as_slice()).unwrap_or("a path that is no UTF-8");
    let name = snapshot.name();
    let stamp = snapshot.stamp();
    let what = match &entry.content {
        Content::Folder => String::from_str(visit.alloc(), "folder")?,
        Content::Link { .. } => String::from_str(visit.alloc(), "link")?,
        Content::File { size, .. } => {
            let size = Size(*size);
            format!(in visit.alloc(); "{size}")?
        }
    };
    let what = what.as_str();
    println!(visit; "{what:>10}  {path}  in {name} of {stamp}")
}

fn tell_path_json(visit: &Visit, snapshot: &Snapshot, entry: &Entry) -> Result<(), Stop> {
    let path = from_utf8(entry.path.as_slice()).unwrap_or("a path that is no UTF-8");
    let name = snapshot.name();
    let stamp = snapshot.stamp();
    let line = match &entry.content {
        Content::File { size, digest, .. } => {
            let digest = digest_text(visit.alloc(), digest)?;
            let digest = digest.as_str();
            json!(in visit.alloc(); {"snapshot": name, "at": stamp, "path": path, "kind": "file", "length": *size, "sha256": digest})?
        }
        Content::Folder => {
            json!(in visit.alloc(); {"snapshot": name, "at": stamp, "path": path, "kind": "folder"})?
        }
        Content::Link { .. } => {
            json!(in visit.alloc(); {"snapshot": name, "at": stamp, "path": path, "kind": "link"})?
        }
    };
    let line = line.to_string(visit.alloc())?;
    println!(visit; "{line}")
}
