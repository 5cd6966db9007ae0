//! `audit`: how much of each file is exposed to who has some of the archives.

use crate::program::{Program, Sessions};
use crate::session::{call, ended, words_of};
use crate::words::{command, operand};
use clap::ArgMatches;
use pot_bytes::Name;
use pot_image::Image;
use pot_report::{Exposure, Exposures, Holding, LooseColumn, holdings, name_text, read_exposures};
use pots_vault::{Stop, Visit, image, listed_archives};
use serde_json::json;
use std::alloc::{AllocError, Global};
use std::sync::Wait;
use std::thread::Threads;

/// Its words.
pub fn words<'a>(alloc: Global) -> Result<clap::Command<'a>, AllocError> {
    let about =
        "Tell of each file how much is exposed to who has these archives, and of blocks in no file";
    command(alloc, "audit", about)?.arg(operand(
        alloc,
        "ARCHIVES",
        "The numbers of the archives, as 0-3 or 4,5",
    ))
}

/// Tells of each file how much is exposed to who has these archives, and which of them have blocks
/// that stand in no file.
pub fn work<X: Threads + Wait + Sync, P: Program>(
    sessions: &Sessions<'_, X, P>,
    visit: &mut Visit,
    words: &ArgMatches,
) -> Result<u8, Stop> {
    let numbers = listed_archives(&visit.rt, words.get_str("ARCHIVES").unwrap_or(""))?;
    audit_archives(sessions, visit, &numbers)
}

/// Tells what is exposed to who has these archives, and answers the status.
pub fn audit_archives<X: Threads + Wait + Sync, P: Program>(
    sessions: &Sessions<'_, X, P>,
    visit: &mut Visit,
    numbers: &[u32],
) -> Result<u8, Stop> {
    let image = image(visit)?;
    let (status, Exposures { files, loose }) = exposures_of(sessions, visit, &image, numbers)?;
    for (name, exposure) in files.iter() {
        tell_exposure(visit, name, exposure)?;
    }
    let holdings = holdings(visit.alloc(), &image)?;
    for column in loose.iter() {
        tell_loose(visit, &holdings, column)?;
    }
    Ok(status)
}

/// The status of the audit of who has these archives, and what it says.
pub(crate) fn exposures_of<X: Threads + Wait + Sync, P: Program>(
    sessions: &Sessions<'_, X, P>,
    visit: &mut Visit,
    image: &Image,
    numbers: &[u32],
) -> Result<(u8, Exposures), Stop> {
    let line = audit_line(visit, image, numbers)?;
    let words = words_of(visit.alloc(), line.as_str())?;
    let ran = call(sessions, visit, &words, Vec::new(visit.alloc()))?;
    if ran.status > 1 {
        return Err(ended(visit, &ran));
    }
    match read_exposures(visit.alloc(), &ran.written)? {
        Some(exposures) => Ok((ran.status, exposures)),
        None => Err(visit.refuse(
            5,
            "what the audit says was not understood: pots and potshards are of different versions",
        )),
    }
}

// The command line of the audit, with the columns that these archives serve.
fn audit_line(visit: &Visit, image: &Image, numbers: &[u32]) -> Result<String, Stop> {
    let holdings = holdings(visit.alloc(), image)?;
    look_for_all(visit, &holdings, numbers)?;
    let mut line = String::from_str(visit.alloc(), "audit --seen ")?;
    let mut last = None;
    for holding in holdings.iter() {
        let Holding { group, column, .. } = *holding;
        if !numbers.contains(&holding.archive) || last == Some((group, column)) {
            continue;
        }
        let comma = if last.is_some() { "," } else { "" };
        line.push_str(format!(in visit.alloc(); "{comma}{group}.{column}")?.as_str())?;
        last = Some((group, column));
    }
    line.push_str(" --loose yes")?;
    Ok(line)
}

/// Ends the command where the desk does not speak of one of these archives.
pub fn look_for_all(visit: &Visit, holdings: &[Holding], numbers: &[u32]) -> Result<(), Stop> {
    for number in numbers {
        if !holdings.iter().any(|holding| holding.archive == *number) {
            let line = format!(in visit.alloc();
                "archive {number} is in no use: pots status tells which are; of one that was replaced, name the one in its place"
            )?;
            return Err(visit.refuse(2, line.as_str()));
        }
    }
    Ok(())
}

fn tell_exposure(visit: &Visit, name: &Name, exposure: &Exposure) -> Result<(), Stop> {
    if visit.json {
        return tell_exposure_json(visit, name, exposure);
    }
    let text = name_text(name);
    let Exposure {
        pieces,
        bare,
        wanting,
    } = *exposure;
    if bare == 0 {
        println!(visit; "{text}: hidden; of each piece at least {wanting} more shards are wanting")
    } else {
        println!(visit; "{text}: exposed, {bare} of {pieces} pieces")
    }
}

fn tell_exposure_json(visit: &Visit, name: &Name, exposure: &Exposure) -> Result<(), Stop> {
    let Exposure {
        pieces,
        bare,
        wanting,
    } = *exposure;
    let line =
        json!(in visit.alloc(); {"audit": name_text(name), "pieces": pieces, "exposed": bare, "wanting": wanting})?;
    let line = line.to_string(visit.alloc())?;
    println!(visit; "{line}")
}

// Tells of a column with blocks that stand in no file.
fn tell_loose(visit: &Visit, holdings: &[Holding], loose: &LooseColumn) -> Result<(), Stop> {
    let archives = archives_of(visit, holdings, loose)?;
    let archives = archives.as_str();
    let LooseColumn {
        group,
        column,
        blocks,
    } = *loose;
    if visit.json {
        let line =
            json!(in visit.alloc(); {"loose": blocks, "group": group, "column": column, "archives": archives})?;
        let line = line.to_string(visit.alloc())?;
        return println!(visit; "{line}");
    }
    println!(visit;
        "archive {archives}: exposed, {blocks} blocks of stores or renewals that were given up; they may be most of such a file"
    )
}

// The archives of a column, two where it moves, as `3` or `3,9`.
fn archives_of(
    visit: &Visit,
    holdings: &[Holding],
    loose: &LooseColumn,
) -> Result<String, AllocError> {
    let mut archives = String::new(visit.alloc());
    for holding in holdings.iter() {
        if (holding.group, holding.column) == (loose.group, loose.column) {
            let comma = if archives.is_empty() { "" } else { "," };
            let number = holding.archive;
            archives.push_str(format!(in visit.alloc(); "{comma}{number}")?.as_str())?;
        }
    }
    Ok(archives)
}
