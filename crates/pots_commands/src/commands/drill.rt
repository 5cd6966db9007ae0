//! `drill`: over two files of one length, that the blocks which are seen tell neither.

use crate::program::{Program, Sessions};
use crate::session::{call, ended, words_of};
use crate::words::{command, operand, option};
use clap::ArgMatches;
use pot_client::PART_SIZE;
use pots_looks::{Habit, remember};
use pots_vault::{Stop, Visit, image, read_number};
use serde_json::json;
use std::alloc::{AllocError, Global};
use std::fs;
use std::str::from_utf8;
use std::sync::Wait;
use std::thread::Threads;

/// Its words.
pub fn words<'a>(alloc: Global) -> Result<clap::Command<'a>, AllocError> {
    let about = "Show that what some archives have of one file is what they would have of another";
    command(alloc, "drill", about)?
        .arg(operand(alloc, "FILE", "A file"))?
        .arg(operand(alloc, "OTHER", "Another file of the same length"))?
        .arg(option(
            alloc,
            "hidden",
            "J",
            "The fragment of which few points are seen; 1 where it is left out",
        ))?
        .arg(option(
            alloc,
            "seen",
            "X,X",
            "The points of it that are seen; none where it is left out",
        ))
}

/// Shows that what some archives have of a file is what they would have of another.
pub fn work<X: Threads + Wait + Sync, P: Program>(
    sessions: &Sessions<'_, X, P>,
    visit: &mut Visit,
    words: &ArgMatches,
) -> Result<u8, Stop> {
    let line = drill_line(visit, words)?;
    let input = two_files(visit, words)?;
    let words = words_of(visit.alloc(), line.as_str())?;
    let ran = call(sessions, visit, &words, input)?;
    if ran.status > 1 {
        return Err(ended(visit, &ran));
    }
    tell_drill(visit, from_utf8(&ran.written).unwrap_or(""))?;
    remember(visit, Habit::Drill)?;
    Ok(ran.status)
}

// Tells what the first line of a drill says: `explained LEN PIECES BLOCKS`, or `exposed HIDDEN HAVE
// NEED`.
fn tell_drill(visit: &Visit, text: &str) -> Result<(), Stop> {
    let mut words = text.lines().next().unwrap_or("").split(' ');
    let explained = words.next() == Some("explained");
    let _ = words.next();
    let first = words.next().and_then(read_number).unwrap_or(0);
    let second = words.next().and_then(read_number).unwrap_or(0);
    if visit.json {
        return tell_drill_json(visit, explained, (first, second));
    }
    if explained {
        println!(visit;
            "explained: the {second} blocks that are seen, of {first} pieces of the one file, are those of the other under other random bytes: who has them cannot tell the two apart"
        )?;
    } else {
        println!(visit;
            "exposed: {first} points of the fragment are seen, and {second} give it: who has them has the file"
        )?;
    }
    Ok(())
}

fn tell_drill_json(visit: &Visit, explained: bool, numbers: (u32, u32)) -> Result<(), Stop> {
    let (first, second) = numbers;
    let line = if explained {
        json!(in visit.alloc(); {"drill": "explained", "pieces": first, "blocks": second})?
    } else {
        json!(in visit.alloc(); {"drill": "exposed", "have": first, "need": second})?
    };
    let line = line.to_string(visit.alloc())?;
    println!(visit; "{line}")
}

// The command line of the drill, with the archive's way to split files.
fn drill_line(visit: &mut Visit, words: &ArgMatches) -> Result<String, Stop> {
    let geometry = image(visit)?.rack.geometry;
    let fragments = geometry.fragments;
    let need = geometry.need;
    let shards = geometry.shards;
    let blur = geometry.blur;
    let hidden = words.get_str("hidden").unwrap_or("1");
    let mut line = format!(in visit.alloc();
        "drill --fragments {fragments} --need {need} --shards {shards} --blur {blur} --hidden {hidden}"
    )?;
    if let Some(seen) = words.get_str("seen") {
        line.push_str(" --seen ")?;
        line.push_str(seen)?;
    }
    Ok(line)
}

// The two files as a drill reads them.
fn two_files(visit: &Visit, words: &ArgMatches) -> Result<Vec<u8>, Stop> {
    let first = file_of(visit, words.get_str("FILE").unwrap_or(""))?;
    let second = file_of(visit, words.get_str("OTHER").unwrap_or(""))?;
    if first.len() != second.len() {
        return Err(visit.refuse(3, "the two files have not one length: give two that have"));
    }
    if first.len() > PART_SIZE {
        return Err(visit.refuse(
            3,
            "a drill is over files of at most 884,736 bytes: give the front of each",
        ));
    }
    let length = first.len();
    let head = format!(in visit.alloc(); "{length}\n")?;
    let mut input = Vec::new(visit.alloc());
    input.extend_from_slice(head.as_bytes())?;
    input.extend_from_slice(&first)?;
    input.push(b'\n')?;
    input.extend_from_slice(&second)?;
    input.push(b'\n')?;
    Ok(input)
}

fn file_of(visit: &Visit, path: &str) -> Result<Vec<u8>, Stop> {
    match fs::read(&visit.rt, path) {
        Ok(bytes) => Ok(bytes),
        Err(_) => {
            let line = format!(in visit.alloc();
                "{path} could not be read: see that it is there and may be read"
            )?;
            Err(visit.refuse(4, line.as_str()))
        }
    }
}
