//! Racks that are made, and what there is of them.

use crate::commands::init::{lay_new, look_for_archives, make, places_asked, planned, tell_plan};
use crate::program::{Program, Sessions};
use crate::racks::Asked;
use crate::racks::entering::{Home, has_desk};
use crate::racks::going::joined;
use crate::racks::held::{image_in, tell_unread};
use crate::words::command;
use clap::{Arg, ArgAction, ArgMatches};
use pot_bytes::Rack;
use pot_image::Image;
use pot_report::{Room, Size, kept_files};
use pots_racks::{MOST_RACKS, folder_of};
use pots_sites::{make_places, places_here};
use pots_vault::{Stop, Visit, image, read_number};
use serde_json::json;
use std::alloc::{AllocError, Global};
use std::fs;
use std::str::from_utf8;
use std::sync::Wait;
use std::thread::Threads;

/// The words of `racks`.
pub fn words<'a>(alloc: Global) -> Result<clap::Command<'a>, AllocError> {
    let about = "Tell which racks a vault has, or make more of them with add N";
    command(alloc, "racks", about)?.arg(
        Arg::new(alloc, "WORD")
            .action(ArgAction::Append)
            .num_args(0..)
            .help("add and how many, as add 2"),
    )
}

/// The end of `racks` in a folder that is no vault of racks.
pub fn no_racks(visit: &Visit) -> Stop {
    visit.refuse(
        7,
        "this folder is no vault of racks: go to the folder of one, or make one with pots init --racks 3",
    )
}

/// Tells which racks there are, or makes more of them.
pub fn work_racks<X: Threads + Wait + Sync, P: Program>(
    sessions: &Sessions<'_, X, P>,
    visit: &Visit,
    asked: &Asked,
) -> Result<u8, Stop> {
    let given = asked.words.get_strs("WORD").unwrap_or(&[]);
    if given.is_empty() {
        return tell_racks(visit, asked.home);
    }
    let count = match given {
        [word, count] if *word == "add" => *count,
        _ => return Err(visit.refuse(
            2,
            "racks takes no word, or add and how many: pots racks add 2",
        )),
    };
    let more = asked_count(visit, asked.home.count, count)?;
    let rack = shape_of(visit, asked.home)?;
    let mut home = Home::new(&visit.rt)?;
    home.count = asked.home.count;
    add_racks(sessions, visit, &mut home, (more, &rack))?;
    Ok(0)
}

// How many racks are to be made.
fn asked_count(visit: &Visit, there: u32, text: &str) -> Result<u32, Stop> {
    match read_number(text) {
        Some(count) if count > 0 && count <= MOST_RACKS.saturating_sub(there) => Ok(count),
        _ => Err(visit.refuse(2, "a vault has 1 to 999 racks: give how many as a number")),
    }
}

// The shape of the first rack whose desk can be read.
fn shape_of(visit: &Visit, home: &Home) -> Result<Rack, Stop> {
    for before in 0..home.count {
        match image_in(visit, home, before.saturating_add(1)) {
            Ok(image) => return Ok(image.rack),
            Err(Stop::Said(_)) => {}
            Err(stop) => return Err(stop),
        }
    }
    Err(visit.refuse(
        7,
        "no rack was made: a new one has the shape of another, and no desk can be read",
    ))
}

/// Makes a vault of racks in the working folder.
pub fn init_racks<X: Threads + Wait + Sync, P: Program>(
    rt: &HostRuntime,
    sessions: &Sessions<'_, X, P>,
    words: &ArgMatches,
) -> Result<u8, Stop> {
    let mut visit = Visit::begin(rt, words.get_flag("json"), None)?;
    visit.quiet = words.get_flag("quiet");
    let names = places_asked(&visit, words)?;
    let plan = planned(&visit, words, names.as_deref())?;
    let count = asked_count(&visit, 0, words.get_str("racks").unwrap_or(""))?;
    tell_count(&visit, count)?;
    tell_plan(&visit, &plan, names.as_deref())?;
    if !words.get_flag("dry-run") {
        look_for_vault(&visit)?;
        if let Some(names) = &names {
            make_places(&visit, names)?;
        }
        let mut home = Home::new(rt)?;
        add_racks(sessions, &visit, &mut home, (count, &plan.rack))?;
    }
    Ok(visit.status(0))
}

fn tell_count(visit: &Visit, count: u32) -> Result<(), Stop> {
    if visit.json {
        let line = json!(in visit.alloc(); {"racks": count})?;
        let line = line.to_string(visit.alloc())?;
        println!(visit; "{line}")
    } else {
        println!(visit; "racks: {count}; of each, in its own folder:")
    }
}

// Ends the command where the working folder is a vault with one desk.
fn look_for_vault(visit: &Visit) -> Result<(), Stop> {
    if has_desk(&visit.rt) {
        return Err(visit.refuse(
            10,
            "there is an archive in this folder already, and it stays as it is: make the vault of racks in another folder",
        ));
    }
    look_for_archives(visit)
}

// Makes racks, one after another. Each is named by the vault's file before the next one is begun.
fn add_racks<X: Threads + Wait + Sync, P: Program>(
    sessions: &Sessions<'_, X, P>,
    visit: &Visit,
    home: &mut Home,
    (more, shape): (u32, &Rack),
) -> Result<(), Stop> {
    for _ in 0..more {
        let rack = home.count.saturating_add(1);
        make_rack(sessions, visit, home, (rack, shape))?;
        home.count = rack;
        home.write(&visit.rt)?;
        tell_made(visit, rack)?;
    }
    Ok(())
}

// Makes the folder of a rack, and an empty vault in it.
fn make_rack<X: Threads + Wait + Sync, P: Program>(
    sessions: &Sessions<'_, X, P>,
    visit: &Visit,
    home: &Home,
    (rack, shape): (u32, &Rack),
) -> Result<(), Stop> {
    let rt = &visit.rt;
    let path = home.path(visit.alloc(), rack)?;
    if fs::create_dir_all(rt, path.as_str()).is_err() {
        let line = format!(in visit.alloc();
            "{path} could not be made: see that nothing else has its name, and that its disk has room and may be written"
        )?;
        return Err(visit.refuse(5, line.as_str()));
    }
    home.enter(rt, rack)?;
    let made = make_here(rt, sessions, shape);
    home.leave(rt)?;
    made
}

// Makes an empty vault in the working folder. One that a stopped command left there is taken, where
// it is of this shape and nothing was done with it.
fn make_here<X: Threads + Wait + Sync, P: Program>(
    rt: &HostRuntime,
    sessions: &Sessions<'_, X, P>,
    shape: &Rack,
) -> Result<(), Stop> {
    let mut visit = Visit::begin(rt, false, None)?;
    look_for_archives(&visit)?;
    if !has_desk(rt) {
        lay_new(&visit, shape)?;
        return make(sessions, &mut visit, shape);
    }
    let left = image(&mut visit)?;
    if is_new(&left, shape) {
        return Ok(());
    }
    Err(visit.refuse(
        10,
        "the folder of the next rack has a vault that RACKS does not name, and it stays as it is: move it to another folder",
    ))
}

// Whether a desk is of this shape, and no session began with it.
fn is_new(image: &Image, shape: &Rack) -> bool {
    image.rack == *shape && image.session == 0 && image.records.is_empty()
}

// Tells that a rack was made, and where its archives are.
fn tell_made(visit: &Visit, rack: u32) -> Result<(), Stop> {
    let bytes = folder_of(rack);
    let name = from_utf8(&bytes).unwrap_or("rack-000");
    if visit.json {
        let line = json!(in visit.alloc(); {"did": "made", "rack": name})?;
        let line = line.to_string(visit.alloc())?;
        println!(visit; "{line}")
    } else if places_here(&visit.rt)?.is_some() {
        println!(visit; "made {name}, with empty archives at all places")
    } else {
        println!(visit;
            "made {name}: until pots place brings its archives to their places, they lie in its folder"
        )
    }
}

// Tells of each rack how many files it has, and how much room is left.
fn tell_racks(visit: &Visit, home: &Home) -> Result<u8, Stop> {
    let mut status = 0;
    for before in 0..home.count {
        let rack = before.saturating_add(1);
        match image_in(visit, home, rack) {
            Ok(image) => tell_one(visit, rack, &image)?,
            Err(Stop::Said(_)) => {
                tell_unread(visit, home, rack)?;
                status = joined(status, 1);
            }
            Err(stop) => return Err(stop),
        }
    }
    Ok(status)
}

fn tell_one(visit: &Visit, rack: u32, image: &Image) -> Result<(), Stop> {
    let alloc = visit.alloc();
    let bytes = folder_of(rack);
    let name = from_utf8(&bytes).unwrap_or("rack-000");
    let files = kept_files(alloc, image)?.len() as u64;
    let room = Room::left(alloc, image)?.bytes();
    if visit.json {
        let line = json!(in alloc; {"rack": name, "files": files, "room": room})?;
        let line = line.to_string(alloc)?;
        return println!(visit; "{line}");
    }
    let room = Size(room);
    println!(visit; "{name}  {files} files  room for {room} more")
}
