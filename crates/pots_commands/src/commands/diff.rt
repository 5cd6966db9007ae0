//! `diff`: what differs between two snapshots of a folder.

use crate::program::{Program, Sessions};
use crate::snapshots::{Stored, asked_snapshot, entries_in, list_texts};
use crate::words::{operand, reading_command};
use clap::{Arg, ArgAction, ArgMatches};
use pot_tree::Entry;
use pots_folders::{Change, Difference, differences};
use pots_vault::{Stop, Visit, image};
use serde_json::json;
use std::alloc::{AllocError, Global};
use std::str::from_utf8;
use std::sync::Wait;
use std::thread::Threads;

/// Its words.
pub fn words<'a>(alloc: Global) -> Result<clap::Command<'a>, AllocError> {
    let about = "Tell which paths were added, removed and changed between two snapshots";
    reading_command(alloc, "diff", about)?
        .arg(operand(alloc, "NAME", "The name of the snapshots"))?
        .arg(operand(
            alloc,
            "DATE1",
            "From the newest of this date or before, as 2026-01-31",
        ))?
        .arg(
            Arg::new(alloc, "DATE2").action(ArgAction::Set).help(
                "To the newest of this date or before; the newest of all where it is left out",
            ),
        )
}

/// Tells which paths differ between two snapshots, whose lists are fetched together.
pub fn work<X: Threads + Wait + Sync, P: Program>(
    sessions: &Sessions<'_, X, P>,
    visit: &mut Visit,
    words: &ArgMatches,
) -> Result<u8, Stop> {
    let name = words.get_str("NAME").unwrap_or("");
    let image = image(visit)?;
    let from = asked_snapshot(visit, &image, name, words.get_str("DATE1"))?;
    let to = asked_snapshot(visit, &image, name, words.get_str("DATE2"))?;
    drop(image);
    let mut texts = list_texts(sessions, visit, &[from, to])?;
    let new = entries_in(visit, &to, texts.pop().flatten())?;
    let old = entries_in(visit, &from, texts.pop().flatten())?;
    tell(visit, (&from, &to), (&old, &new))?;
    Ok(0)
}

/// Tells each path that differs, and how many there are of each kind.
pub fn tell(
    visit: &Visit,
    (from, to): (&Stored, &Stored),
    (old, new): (&[Entry], &[Entry]),
) -> Result<(), Stop> {
    let found = differences(visit.alloc(), old, new)?;
    for difference in found.iter() {
        tell_one(visit, difference)?;
    }
    let from = from.snapshot.stamp();
    let to = to.snapshot.stamp();
    let added = count(&found, Change::Added);
    let removed = count(&found, Change::Removed);
    let changed = count(&found, Change::Changed);
    let touched = count(&found, Change::Touched);
    if visit.json {
        let line =
            json!(in visit.alloc(); {"from": from, "to": to, "added": added, "removed": removed, "changed": changed, "touched": touched})?;
        let line = line.to_string(visit.alloc())?;
        return println!(visit; "{line}");
    }
    println!(visit;
        "from {from} to {to}: {added} added, {removed} removed, {changed} changed, {touched} touched"
    )
}

fn count(found: &[Difference], change: Change) -> u64 {
    let mut count = 0u64;
    for difference in found {
        if difference.change == change {
            count = count.saturating_add(1);
        }
    }
    count
}

fn tell_one(visit: &Visit, difference: &Difference) -> Result<(), Stop> {
    let path = from_utf8(difference.path).unwrap_or("a path that is no UTF-8");
    let word = match difference.change {
        Change::Added => "added",
        Change::Removed => "removed",
        Change::Changed => "changed",
        Change::Touched => "touched",
    };
    if visit.json {
        let line = json!(in visit.alloc(); {"path": path, "change": word})?;
        let line = line.to_string(visit.alloc())?;
        return println!(visit; "{line}");
    }
    println!(visit; "{word:>10}  {path}")
}
