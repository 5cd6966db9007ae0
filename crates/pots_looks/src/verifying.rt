//! Whether archives have the blocks that the desk calls live.

ghost use Rattle.std.specs.Prelude.{◌<◌};
ghost use Rattle.pot_machine.specs.Table.{width};

use crate::reading::{Given, bytes_of};
use pot_image::Image;
use pot_looks::{Looked, look};
use pot_machine::GroupTable;
use pot_report::{Holding, holdings};
use pots_vault::{Progress, Stop, Visit, image, named};
use serde_json::json;

/// How many archives and blocks were looked at.
#[derive(Clone, Copy)]
struct Tally {
    archives: u32,
    away: u32,
    blocks: u64,
    /// So many blocks are damaged or missing.
    wrong: u64,
    /// So many archives cannot be read.
    shut: u32,
}

/// Compares each block that the desk calls live with its digest, in these archives, or in all that
/// are there where none is named, and tells what it found. It writes nothing. Answers whether all
/// that was looked at is as it must be, and each archive that was named is there.
pub fn verify_archives(visit: &mut Visit, asked: &[u32]) -> Result<bool, Stop> {
    let image = image(visit)?;
    let all = holdings(visit.alloc(), &image)?;
    look_for_asked(visit, &all, asked)?;
    let mut progress = Progress::begin(&visit.rt, bytes_in(&all, asked));
    let mut tally = Tally {
        archives: 0,
        away: 0,
        blocks: 0,
        wrong: 0,
        shut: 0,
    };
    for holding in all.iter() {
        if is_asked(holding, asked) {
            verify_one(visit, &image, holding, &mut tally)?;
            progress.add(&visit.rt, holding.length);
        }
    }
    tell_tally(visit, &tally, asked)
}

// Whether an archive is to be looked at. One that holds no block yet has nothing to look at.
fn is_asked(holding: &Holding, asked: &[u32]) -> bool {
    if asked.is_empty() {
        holding.live > 0
    } else {
        asked.contains(&holding.archive)
    }
}

// The bytes that are to be read.
fn bytes_in(all: &[Holding], asked: &[u32]) -> u64 {
    all.iter()
        .filter(|holding| is_asked(holding, asked))
        .fold(0u64, |sum, holding| sum.saturating_add(holding.length))
}

// Ends the command where the desk does not speak of an archive that is named.
fn look_for_asked(visit: &Visit, all: &[Holding], asked: &[u32]) -> Result<(), Stop> {
    for number in asked {
        if !all.iter().any(|holding| holding.archive == *number) {
            let line = format!(in visit.alloc();
                "archive {number} is in no use: pots status tells which are"
            )?;
            return Err(visit.refuse(2, line.as_str()));
        }
    }
    Ok(())
}

// Looks at an archive, and tells what it found.
fn verify_one(
    visit: &Visit,
    image: &Image,
    holding: &Holding,
    tally: &mut Tally,
) -> Result<(), Stop> {
    match bytes_of(visit, holding.archive, image.rack.stripes)? {
        Given::Bytes(bytes) => {
            let looked = looked_at(image, holding, &bytes);
            tally.archives = tally.archives.saturating_add(1);
            tally.blocks = tally.blocks.saturating_add(u64::from(looked.compared));
            tally.wrong = tally.wrong.saturating_add(wrong_in(&looked));
            tell_looked(visit, holding, &looked)
        }
        Given::Away => {
            tally.away = tally.away.saturating_add(1);
            tell_unread(visit, holding, "is not here")
        }
        Given::Shut(why) => {
            tally.shut = tally.shut.saturating_add(1);
            tell_unread(visit, holding, why)
        }
    }
}

// What the bytes of an archive have of its blocks.
fn looked_at(image: &Image, holding: &Holding, bytes: &[u8]) -> Looked {
    match image.tables.get(usize::from(holding.group)) {
        Some(table) => looked_in(table, holding, bytes),
        None => nothing(),
    }
}

fn looked_in(table: &GroupTable, holding: &Holding, bytes: &[u8]) -> Looked {
    if holding.column < table.data_columns() + table.parity() {
        look(table, holding.column, holding.archive, bytes)
    } else {
        nothing()
    }
}

fn nothing() -> Looked {
    Looked {
        compared: 0,
        damaged: 0,
        missing: 0,
    }
}

// How many blocks are damaged or missing.
fn wrong_in(looked: &Looked) -> u64 {
    u64::from(looked.damaged).saturating_add(u64::from(looked.missing))
}

fn tell_looked(visit: &Visit, holding: &Holding, looked: &Looked) -> Result<(), Stop> {
    if visit.json {
        return tell_looked_json(visit, holding, looked);
    }
    let name = named(visit, holding.archive)?;
    let Looked {
        compared,
        damaged,
        missing,
    } = *looked;
    if wrong_in(looked) == 0 {
        return println!(visit; "{name}: {compared} blocks compared, all as they must be");
    }
    println!(visit; "{name}: {compared} blocks compared, {damaged} damaged, {missing} missing")?;
    tell_cure(visit, holding, looked)
}

fn tell_looked_json(visit: &Visit, holding: &Holding, looked: &Looked) -> Result<(), Stop> {
    let file = named(visit, holding.archive)?;
    let line =
        json!(in visit.alloc(); {"archive": holding.archive, "group": holding.group, "file": file.as_str(), "compared": looked.compared, "damaged": looked.damaged, "missing": looked.missing})?;
    let line = line.to_string(visit.alloc())?;
    println!(visit; "{line}")
}

// Says which command mends an archive. Where not one block is the one that the desk knows, it is
// more likely another archive.
fn tell_cure(visit: &Visit, holding: &Holding, looked: &Looked) -> Result<(), Stop> {
    let rt = &visit.rt;
    let name = named(visit, holding.archive)?;
    let group = holding.group;
    if wrong_in(looked) == u64::from(looked.compared) {
        let _ = eprintln!(rt;
            "pots: {name} has no block that the desk knows: see that it is this archive, where the link leads and which disk is mounted where, before anything is mended"
        );
    } else {
        let _ = eprintln!(rt;
            "pots: {name} is ailing: where all archives are mounted, pots check {group} and then pots repair {group} mend it"
        );
    }
    Ok(())
}

// Tells that an archive was not read, and why.
fn tell_unread(visit: &Visit, holding: &Holding, why: &str) -> Result<(), Stop> {
    let name = named(visit, holding.archive)?;
    if visit.json {
        let line =
            json!(in visit.alloc(); {"archive": holding.archive, "group": holding.group, "file": name.as_str(), "unread": why})?;
        let line = line.to_string(visit.alloc())?;
        println!(visit; "{line}")
    } else {
        println!(visit; "{name}: {why}; not looked at")
    }
}

// Tells what was looked at in all, and answers whether it is as it must be.
fn tell_tally(visit: &Visit, tally: &Tally, asked: &[u32]) -> Result<bool, Stop> {
    let Tally {
        archives,
        away,
        blocks,
        wrong,
        shut,
    } = *tally;
    if archives == 0 && (away > 0 || shut > 0) {
        return Err(visit.refuse(
            8,
            "no archive was here to be looked at: mount a disk that has some",
        ));
    }
    if !visit.json {
        let left = away.saturating_add(shut);
        println!(visit;
            "{archives} archives looked at, {left} not; of {blocks} blocks {wrong} are damaged or missing"
        )?;
    }
    Ok(wrong == 0 && shut == 0 && (asked.is_empty() || away == 0))
}
