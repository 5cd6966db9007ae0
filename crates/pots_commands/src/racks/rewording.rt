//! The words of a command as each rack gets them.

use crate::racks::Asked;
use crate::verbs::Verb;
use clap::ArgMatches;
use pots_racks::{are_of_racks, begins_with_rack, folder_of, names_one, part_for};
use pots_vault::{Stop, Visit};
use std::alloc::{AllocError, Global};
use std::str::from_utf8;

/// The switches of all commands that go over racks.
const SWITCHES: [&str; 8] = [
    "json",
    "quiet",
    "all",
    "force",
    "dry-run",
    "robust",
    "unbounded",
    "read-only",
];

/// Their options whose values each rack gets as they are.
const VALUES: [&str; 11] = [
    "as",
    "at",
    "path",
    "fragments",
    "need",
    "shards",
    "blur",
    "archives",
    "stripes",
    "columns",
    "parity",
];

/// The operands that name archives or groups by rack.
const LISTS: [&str; 2] = ["ARCHIVES", "GROUP"];

/// The words of a command for a rack, but for its operands, and for a folder or file that it
/// writes.
pub fn common_words(visit: &Visit, asked: &Asked, rack: u32) -> Result<Vec<String>, Stop> {
    let alloc = visit.alloc();
    let words = asked.words;
    let mut line = Vec::new(alloc);
    append(&mut line, alloc, "pots")?;
    append(&mut line, alloc, asked.name)?;
    for name in SWITCHES {
        if words.get_flag(name) {
            line.push(format!(in alloc; "--{name}")?)?;
        }
    }
    for name in VALUES {
        if let Some(value) = words.get_str(name) {
            line.push(format!(in alloc; "--{name}={value}")?)?;
        }
    }
    for value in words.get_strs("exclude").unwrap_or(&[]) {
        line.push(format!(in alloc; "--exclude={value}")?)?;
    }
    append_without(&mut line, alloc, words, rack)?;
    Ok(line)
}

// Adds the archives of a rack that the command goes on without.
fn append_without(
    line: &mut Vec<String>,
    alloc: Global,
    words: &ArgMatches,
    rack: u32,
) -> Result<(), AllocError> {
    if let Some(list) = words.get_str("without") {
        if let Some(own) = part_for(alloc, list, rack)? {
            line.push(format!(in alloc; "--without={own}")?)?;
        }
    }
    Ok(())
}

/// Adds a word.
pub fn append(line: &mut Vec<String>, alloc: Global, word: &str) -> Result<(), AllocError> {
    line.push(String::from_str(alloc, word)?)?;
    Ok(())
}

/// All words of a command that goes over each rack. None where they name archives or groups, and
/// none of this rack.
pub fn words_for(visit: &Visit, asked: &Asked, rack: u32) -> Result<Option<Vec<String>>, Stop> {
    let alloc = visit.alloc();
    let home = asked.home;
    let mut line = common_words(visit, asked, rack)?;
    let bytes = folder_of(rack);
    let own = from_utf8(&bytes).unwrap_or("rack-000");
    if let Some(folder) = asked.words.get_str("to") {
        let folder = home.whole(alloc, folder)?;
        line.push(format!(in alloc; "--to={folder}/{own}")?)?;
    }
    append(&mut line, alloc, "--")?;
    if !append_lists(&mut line, visit, asked, rack)? {
        return Ok(None);
    }
    if let Some(folder) = asked.words.get_str("FOLDER") {
        let folder = home.whole(alloc, folder)?;
        line.push(format!(in alloc; "{folder}/{own}")?)?;
    }
    if let Some(file) = asked.words.get_str("FILE") {
        let file = home.whole(alloc, file)?;
        line.push(format!(in alloc; "{file}.{own}")?)?;
    }
    Ok(Some(line))
}

// Adds the archives or groups of a rack. Answers whether some of it are named, or none at all.
fn append_lists(
    line: &mut Vec<String>,
    visit: &Visit,
    asked: &Asked,
    rack: u32,
) -> Result<bool, Stop> {
    let mut is_named = true;
    for id in LISTS {
        let lists = asked.words.get_strs(id).unwrap_or(&[]);
        if lists.is_empty() {
            continue;
        }
        is_named = false;
        for list in lists {
            if let Some(own) = part_for(visit.alloc(), list, rack)? {
                is_named = true;
                append_own(line, visit.alloc(), asked.verb, own.as_str())?;
            }
        }
    }
    Ok(is_named)
}

// Adds numbers: groups word by word, archives as one word.
fn append_own(
    line: &mut Vec<String>,
    alloc: Global,
    verb: Verb,
    own: &str,
) -> Result<(), AllocError> {
    match verb {
        Verb::Check | Verb::Repair => {
            for group in own.split(',') {
                append(line, alloc, group)?;
            }
            Ok(())
        }
        _ => append(line, alloc, own),
    }
}

/// Ends the command where it names a rack that the vault has not, or goes on without archives of
/// which it does not say of which rack they are.
pub fn look_at_racks(visit: &Visit, asked: &Asked) -> Result<(), Stop> {
    let count = asked.home.count;
    for id in ["ARCHIVES", "GROUP", "without"] {
        for list in asked.words.get_strs(id).unwrap_or(&[]) {
            if names_one(list) && !are_of_racks(list, count) {
                let line = format!(in visit.alloc();
                    "{list} names no rack of this vault: archives and groups are given by rack and number, as 001/0-3, and there are {count} racks"
                )?;
                return Err(visit.refuse(2, line.as_str()));
            }
        }
    }
    match asked.words.get_str("without") {
        Some(list) if !begins_with_rack(list) => Err(visit.refuse(
            2,
            "say of which rack the archives are that are gone, as --without 002/4,5",
        )),
        _ => Ok(()),
    }
}
