//! `list`: the files and snapshots that are stored, by the desk alone; or what one snapshot has.

use crate::program::{Program, Sessions};
use crate::snapshots::{asked_snapshot, entries_of};
use crate::words::{option, reading_command, switch};
use clap::{Arg, ArgAction, ArgMatches};
use pot_bytes::Name;
use pot_report::{Kept, Size, digest_text, kept_files, name_text};
use pot_tree::{Content, Entry};
use pots_folders::{Snapshot, is_pack, minute_text};
use pots_vault::{Stop, Visit, image, is_stored};
use serde_json::json;
use std::alloc::{AllocError, Global};
use std::str::from_utf8;
use std::sync::Wait;
use std::thread::Threads;

/// Its words.
pub fn words<'a>(alloc: Global) -> Result<clap::Command<'a>, AllocError> {
    let command = reading_command(
        alloc,
        "list",
        "List the files and snapshots that are stored, or what one snapshot has",
    )?;
    command
        .arg(
            Arg::new(alloc, "NAME")
                .action(ArgAction::Set)
                .help("The name of a snapshot"),
        )?
        .arg(option(
            alloc,
            "at",
            "DATE",
            "Of the newest snapshot of this date or before, as 2026-01-31",
        ))?
        .arg(switch(alloc, "all", "List the packs and lists of snapshots too"))
}

/// Lists what is stored, or what one snapshot has.
pub fn work<X: Threads + Wait + Sync, P: Program>(
    sessions: &Sessions<'_, X, P>,
    visit: &mut Visit,
    words: &ArgMatches,
) -> Result<u8, Stop> {
    match words.get_str("NAME") {
        Some(name) => list_snapshot(sessions, visit, words, name),
        None if words.get_str("at").is_some() => {
            Err(visit.refuse(2, "--at is of one snapshot: give its name"))
        }
        None => list_files(visit, words.get_flag("all")),
    }
}

// Lists the files that are stored.
fn list_files(visit: &mut Visit, all: bool) -> Result<u8, Stop> {
    let image = image(visit)?;
    if image.records.is_empty() {
        tell_nothing(&visit.rt);
    }
    for (name, kept) in kept_files(visit.alloc(), &image)?.iter() {
        tell_kept(visit, all, (name, kept))?;
    }
    Ok(0)
}

/// Tells that nothing is stored yet.
pub fn tell_nothing(rt: &HostRuntime) {
    let _ = eprintln!(rt; "pots: nothing is stored yet");
}

/// Tells a file or a snapshot that is stored. Of packs and lists nothing is told, unless all are to
/// be.
pub fn tell_kept(visit: &Visit, all: bool, (name, kept): (&Name, &Kept)) -> Result<(), Stop> {
    if all {
        tell_stored(visit, name, kept)
    } else if is_pack(name) {
        Ok(())
    } else if let Some(snapshot) = Snapshot::read(*name) {
        tell_snapshot(visit, &snapshot, kept)
    } else {
        tell_stored(visit, name, kept)
    }
}

fn tell_stored(visit: &Visit, name: &Name, kept: &Kept) -> Result<(), Stop> {
    if visit.json {
        tell_file_json(visit, name, kept)
    } else {
        tell_file(visit, name, kept)
    }
}

// Tells a snapshot by its name and date. The date goes into --at as it stands.
fn tell_snapshot(visit: &Visit, snapshot: &Snapshot, kept: &Kept) -> Result<(), Stop> {
    let name = snapshot.name();
    let stamp = snapshot.stamp();
    let whole = kept.is_whole();
    if visit.json {
        let line = json!(in visit.alloc(); {"snapshot": name, "at": stamp, "whole": whole})?;
        let line = line.to_string(visit.alloc())?;
        return println!(visit; "{line}");
    }
    let end = if whole { "" } else { "  not stored to its end" };
    println!(visit; "  snapshot  {name}  of {stamp}{end}")
}

// Lists what a snapshot has.
fn list_snapshot<X: Threads + Wait + Sync, P: Program>(
    sessions: &Sessions<'_, X, P>,
    visit: &mut Visit,
    words: &ArgMatches,
    name: &str,
) -> Result<u8, Stop> {
    let image = image(visit)?;
    let stored = asked_snapshot(visit, &image, name, words.get_str("at"))?;
    for entry in entries_of(sessions, visit, &stored)? {
        tell_entry(visit, &entry)?;
    }
    Ok(0)
}

fn tell_entry(visit: &Visit, entry: &Entry) -> Result<(), Stop> {
    let path = from_utf8(entry.path.as_slice()).unwrap_or("a path that is no UTF-8");
    let time = entry.time;
    match &entry.content {
        Content::Folder => tell_plain(visit, "folder", (path, time), ""),
        Content::Link { target } => {
            let target = from_utf8(target.as_slice()).unwrap_or("");
            tell_plain(visit, "link", (path, time), target)
        }
        Content::File { size, digest, .. } if visit.json => {
            let digest = digest_text(visit.alloc(), digest)?;
            let digest = digest.as_str();
            let line =
                json!(in visit.alloc(); {"path": path, "length": *size, "time": time, "mode": entry.mode, "sha256": digest})?;
            let line = line.to_string(visit.alloc())?;
            println!(visit; "{line}")
        }
        Content::File { size, .. } => {
            let size = Size(*size);
            let size = format!(in visit.alloc(); "{size}")?;
            tell_plain(visit, size.as_str(), (path, time), "")
        }
    }
}

// Tells a path with its time, behind what it is or its size.
fn tell_plain(
    visit: &Visit,
    kind: &str,
    (path, time): (&str, u64),
    target: &str,
) -> Result<(), Stop> {
    if visit.json {
        let line =
            json!(in visit.alloc(); {"path": path, "kind": kind, "time": time, "target": target})?;
        let line = line.to_string(visit.alloc())?;
        return println!(visit; "{line}");
    }
    let date = minute_text(visit.alloc(), time)?;
    let date = date.as_str();
    if target.is_empty() {
        println!(visit; "{kind:>10}  {date}  {path}")
    } else {
        println!(visit; "{kind:>10}  {date}  {path}  to {target}")
    }
}

fn tell_file(visit: &Visit, name: &Name, kept: &Kept) -> Result<(), Stop> {
    let text = name_text(name);
    let size = Size(kept.direct.unwrap_or(kept.length));
    let size = format!(in visit.alloc(); "{size}")?;
    let size = size.as_str();
    if kept.direct.is_some() {
        println!(visit; "{size:>10}  {text}")?;
    } else if is_stored(kept) {
        let parts = kept.parts;
        println!(visit; "{size:>10}  {text}  in {parts} parts")?;
    } else {
        println!(visit; "{size:>10}  {text}  not stored to its end")?;
    }
    Ok(())
}

fn tell_file_json(visit: &Visit, name: &Name, kept: &Kept) -> Result<(), Stop> {
    let length = kept.direct.unwrap_or(kept.length);
    let whole = is_stored(kept);
    let line =
        json!(in visit.alloc(); {"name": name_text(name), "length": length, "parts": kept.parts, "whole": whole})?;
    let line = line.to_string(visit.alloc())?;
    println!(visit; "{line}")
}
