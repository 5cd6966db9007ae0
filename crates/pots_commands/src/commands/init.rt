//! `init`: an archive that is made.

use crate::program::{Program, Sessions};
use crate::racks::entering::has_desk;
use crate::session::{call, ended, words_of};
use crate::splitting::{geometry_of, number, small};
use crate::words::{command, option, switch};
use clap::ArgMatches;
use pot_bytes::{Geometry, Name, Rack};
use pot_report::{Plan, Wish, name_text, places_of, read_size};
use pots_sites::{asked_names, lay_archives, layout_text, make_places, numbers_of, places_here};
use pots_vault::{MOST_ARCHIVES, Stop, Visit, archive_name};
use serde_json::json;
use std::alloc::{AllocError, Global};
use std::fs;
use std::sync::Wait;
use std::thread::Threads;

/// Its words.
pub fn words<'a>(alloc: Global) -> Result<clap::Command<'a>, AllocError> {
    let init = command(
        alloc,
        "init",
        "Make an archive in this folder, and tell what follows from its shape",
    )?
    .arg(option(
        alloc,
        "sites",
        "N",
        "At how many places archives are kept, 2 to 16; 3 where it is left out",
    ))?
    .arg(option(
        alloc,
        "survive",
        "S",
        "How many of the places may vanish, at most N - 2; 1 where it is left out, or 0 for two places",
    ))?
    .arg(option(
        alloc,
        "places",
        "NAMES",
        "Names of the places, as home,office,sister, each with one disk for all its archives",
    ))?
    .arg(option(
        alloc,
        "room",
        "SIZE",
        "How much is to be kept, as 20MB, which it is where it is left out",
    ))?
    .arg(switch(alloc, "dry-run", "Only tell what would follow"))?
    .arg(option(
        alloc,
        "racks",
        "N",
        "Make a vault of so many racks, 1 to 999, each of this shape with a desk of its own",
    ))?;
    add_numbers(alloc, init)
}

// The numbers of a rack, each in place of what follows from the wish.
fn add_numbers<'a>(
    alloc: Global,
    init: clap::Command<'a>,
) -> Result<clap::Command<'a>, AllocError> {
    init.arg(option(
        alloc,
        "groups",
        "G",
        "Groups of archives, from the number of shards to 16",
    ))?
    .arg(option(alloc, "columns", "C", "Data archives of a group, 1 to 16"))?
    .arg(option(alloc, "parity", "P", "Parity archives of a group, 1 or 2"))?
    .arg(option(alloc, "stripes", "Z", "Blocks of an archive, 1 to 4096"))?
    .arg(option(alloc, "fragments", "K", "Fragments of a piece, 2 to 8"))?
    .arg(option(alloc, "need", "M", "Shards that give a fragment, 1 to N"))?
    .arg(option(alloc, "shards", "N", "Shards of a fragment, at most 16"))?
    .arg(option(
        alloc,
        "blur",
        "B",
        "Low bits that a pointer leaves out, 0 to 63",
    ))
}

/// Makes an archive in the working folder, and tells what follows from its shape.
pub fn work<X: Threads + Wait + Sync, P: Program>(
    sessions: &Sessions<'_, X, P>,
    visit: &mut Visit,
    words: &ArgMatches,
) -> Result<u8, Stop> {
    let names = places_asked(visit, words)?;
    let plan = planned(visit, words, names.as_deref())?;
    if !words.get_flag("dry-run") {
        look_for_archives(visit)?;
        if let Some(names) = &names {
            look_for_desk(visit)?;
            make_places(visit, names)?;
        }
        lay_new(visit, &plan.rack)?;
        make(sessions, visit, &plan.rack)?;
    }
    tell_plan(visit, &plan, names.as_deref())?;
    Ok(0)
}

/// The names that the words give the places.
pub fn places_asked(visit: &Visit, words: &ArgMatches) -> Result<Option<Vec<Name>>, Stop> {
    match words.get_str("places") {
        Some(list) => Ok(Some(asked_names(visit, list)?)),
        None => Ok(None),
    }
}

// Ends the command where the working folder has a desk.
fn look_for_desk(visit: &Visit) -> Result<(), Stop> {
    if !has_desk(&visit.rt) {
        return Ok(());
    }
    Err(visit.refuse(
        10,
        "there is an archive in this folder already, and it stays as it is: make the new one in another folder",
    ))
}

/// Lays empty archives at their places, where these have names. Ends the command where one of them
/// has blocks.
pub fn lay_new(visit: &Visit, rack: &Rack) -> Result<(), Stop> {
    let Some(named) = places_here(&visit.rt)? else {
        return Ok(());
    };
    lay_archives(visit, &named, rack)?;
    look_for_archives(visit)
}

/// Ends the command where an archive of this folder has blocks: a new desk would let them be
/// written over.
pub fn look_for_archives(visit: &Visit) -> Result<(), Stop> {
    for number in 0..MOST_ARCHIVES {
        let name = archive_name(visit.alloc(), number)?;
        let name = name.as_str();
        match fs::metadata(&visit.rt, name) {
            Ok(file) if file.len() > 0 => {
                let line = format!(in visit.alloc();
                    "there is an archive in this folder already, with blocks in {name}, and it stays as it is: make the new one in another folder; where the desk is gone, put a copy back, as potshards-recovery(7) tells, or get files back with pots recover"
                )?;
                return Err(visit.refuse(10, line.as_str()));
            }
            _ => {}
        }
    }
    Ok(())
}

/// The shape that is asked for, with as many places as have names.
pub fn planned(visit: &Visit, words: &ArgMatches, names: Option<&[Name]>) -> Result<Plan, Stop> {
    let sites = sites_asked(visit, words, names)?;
    let survive = number(visit, words, "survive", if sites == 2 { 0 } else { 1 })?;
    let room = room_asked(visit, words)?;
    let wish = Wish {
        sites: small(sites),
        survive: small(survive),
        room,
    };
    let wished = match wish.plan() {
        Ok(plan) => plan,
        Err(why) => return Err(visit.refuse(2, format!(in visit.alloc(); "{why}")?.as_str())),
    };
    let plan = match Plan::of(with_numbers(visit, words, wished.rack)?) {
        Ok(plan) => plan,
        Err(why) => return Err(visit.refuse(2, format!(in visit.alloc(); "{why}")?.as_str())),
    };
    look_at_count(visit, &plan.rack, names)?;
    Ok(plan)
}

// At how many places archives are kept.
fn sites_asked(visit: &Visit, words: &ArgMatches, names: Option<&[Name]>) -> Result<u32, Stop> {
    let Some(names) = names else {
        return number(visit, words, "sites", 3);
    };
    let count = u32::try_from(names.len()).unwrap_or(u32::MAX);
    if number(visit, words, "sites", count)? == count {
        return Ok(count);
    }
    Err(visit.refuse(
        2,
        "--places gives other than --sites places: leave --sites out",
    ))
}

// Ends the command where the shape has more places or fewer than have names.
fn look_at_count(visit: &Visit, rack: &Rack, names: Option<&[Name]>) -> Result<(), Stop> {
    let Some(names) = names else {
        return Ok(());
    };
    if names.len() == usize::from(places_of(rack)) {
        return Ok(());
    }
    Err(visit.refuse(
        2,
        "with these numbers there is not one place for each name: give as many shards as places, and a multiple of them as groups",
    ))
}

fn room_asked(visit: &Visit, words: &ArgMatches) -> Result<u64, Stop> {
    match read_size(words.get_str("room").unwrap_or("20MB")) {
        Some(room) => Ok(room),
        None => Err(visit.refuse(2, "--room takes a size, as 20MB or 512KiB")),
    }
}

// A rack with those numbers in the place of its own that the words give.
fn with_numbers(visit: &Visit, words: &ArgMatches, own: Rack) -> Result<Rack, Stop> {
    Ok(Rack {
        groups: small(number(visit, words, "groups", u32::from(own.groups))?),
        columns: small(number(visit, words, "columns", u32::from(own.columns))?),
        parity: small(number(visit, words, "parity", u32::from(own.parity))?),
        stripes: number(visit, words, "stripes", own.stripes)?,
        geometry: geometry_of(visit, words, own.geometry)?,
    })
}

/// Makes the image of an empty archive.
pub fn make<X: Threads + Wait + Sync, P: Program>(
    sessions: &Sessions<'_, X, P>,
    visit: &mut Visit,
    rack: &Rack,
) -> Result<(), Stop> {
    let line = init_line(visit, rack)?;
    let words = words_of(visit.alloc(), line.as_str())?;
    let ran = call(sessions, visit, &words, Vec::new(visit.alloc()))?;
    if ran.status == 0 {
        Ok(())
    } else {
        Err(ended(visit, &ran))
    }
}

fn init_line(visit: &Visit, rack: &Rack) -> Result<String, Stop> {
    let Rack {
        groups,
        columns,
        parity,
        stripes,
        geometry,
    } = *rack;
    let Geometry {
        fragments,
        need,
        shards,
        blur,
    } = geometry;
    Ok(format!(in visit.alloc();
        "init --groups {groups} --columns {columns} --parity {parity} --stripes {stripes} --fragments {fragments} --need {need} --shards {shards} --blur {blur}"
    )?)
}

/// Tells what follows from a shape, and how its archives come to their places.
pub fn tell_plan(visit: &Visit, plan: &Plan, names: Option<&[Name]>) -> Result<(), Stop> {
    if visit.json {
        return tell_plan_json(visit, &plan.rack, names);
    }
    let text = plan.text(visit.alloc())?;
    for line in text.as_str().lines() {
        if names.is_none() {
            println!(visit; "{line}")?;
        } else if line.starts_with("archives: ") {
            let front = line.split_once(';').map_or(line, |parts| parts.0);
            println!(visit; "{front}")?;
        } else if !line.starts_with("place ") {
            println!(visit; "{line}")?;
        }
    }
    let layout = layout_text(visit.alloc(), &plan.rack, names)?;
    print!(visit; "{layout}")
}

fn tell_plan_json(visit: &Visit, rack: &Rack, names: Option<&[Name]>) -> Result<(), Stop> {
    let line =
        json!(in visit.alloc(); {"groups": rack.groups, "columns": rack.columns, "parity": rack.parity, "stripes": rack.stripes, "fragments": rack.geometry.fragments, "need": rack.geometry.need, "shards": rack.geometry.shards, "blur": rack.geometry.blur})?;
    let line = line.to_string(visit.alloc())?;
    println!(visit; "{line}")?;
    let Some(names) = names else {
        return Ok(());
    };
    for (place, name) in names.iter().enumerate() {
        let place = u8::try_from(place).unwrap_or(u8::MAX);
        let archives = numbers_of(visit.alloc(), rack, place)?;
        let archives = archives.as_str();
        let line = json!(in visit.alloc(); {"place": name_text(name), "archives": archives})?;
        let line = line.to_string(visit.alloc())?;
        println!(visit; "{line}")?;
    }
    Ok(())
}
