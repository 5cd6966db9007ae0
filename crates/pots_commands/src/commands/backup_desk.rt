//! `backup-desk`: a copy of the desk.

use crate::words::{command, operand, switch};
use clap::ArgMatches;
use pots_looks::{Habit, remember};
use pots_vault::{Stop, Visit, image_bytes, own_folder, put_file};
use std::alloc::{AllocError, Global};
use std::io::ErrorKind;
use std::{fs, io};

/// Its words.
pub fn words<'a>(alloc: Global) -> Result<clap::Command<'a>, AllocError> {
    command(alloc, "backup-desk", "Write a copy of the desk's image")?
        .arg(operand(alloc, "FILE", "The file to write"))?
        .arg(switch(
            alloc,
            "force",
            "Write over a file that is there, as in a line of cron",
        ))
}

/// Writes a copy of the desk's image.
pub fn work(visit: &mut Visit, words: &ArgMatches) -> Result<u8, Stop> {
    let bytes = image_bytes(visit)?;
    let path = words.get_str("FILE").unwrap_or("desk.copy");
    put(visit, words, path, &bytes)?;
    if is_outside(visit, path)? {
        remember(visit, Habit::Copy)?;
    }
    if visit.json {
        visit.tell_file("kept", path)?;
    } else {
        println!(visit;
            "{path} has the desk as it is now: keep it at another place, where you would keep a list of names; to go back to it, give pots restore-desk {path}"
        )?;
    }
    Ok(0)
}

// Whether a file lies in another folder than that of the vault.
fn is_outside(visit: &Visit, path: &str) -> Result<bool, Stop> {
    let own = own_folder(visit)?;
    let Ok(whole) = fs::canonicalize(&visit.rt, path) else {
        return Ok(false);
    };
    Ok(match whole.as_path().parent() {
        Some(folder) => folder.as_str() != own.as_str(),
        None => false,
    })
}

/// Writes a text to the file that the words name, and tells it.
pub fn put_text(visit: &Visit, words: &ArgMatches, text: &str) -> Result<u8, Stop> {
    let path = words.get_str("FILE").unwrap_or("");
    put(visit, words, path, text.as_bytes())?;
    visit.tell_file("wrote", path)?;
    Ok(0)
}

// Writes a file, over one that is there where the words say so.
fn put(visit: &Visit, words: &ArgMatches, path: &str, bytes: &[u8]) -> Result<(), Stop> {
    match put_file(&visit.rt, path, bytes, words.get_flag("force")) {
        Ok(()) => Ok(()),
        Err(e) => Err(unwritten(visit, path, &e)?),
    }
}

// The end of a command whose file could not be written.
fn unwritten(visit: &Visit, path: &str, error: &io::Error) -> Result<Stop, Stop> {
    let line = if error.kind() == ErrorKind::AlreadyExists {
        format!(in visit.alloc();
            "{path} is there, and stays as it is: give another name, or --force to write over it"
        )?
    } else {
        format!(in visit.alloc();
            "{path} could not be written: {error}; see that its folder may be written and that its disk has room"
        )?
    };
    Ok(visit.refuse(5, line.as_str()))
}
