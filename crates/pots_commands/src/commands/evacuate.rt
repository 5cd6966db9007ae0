//! `evacuate`: all that is to be done where a place burnt, in one command.

use crate::commands::audit::{audit_archives, look_for_all};
use crate::commands::place::{asked_place, look_for_vault, place_one, whole_goal};
use crate::commands::renew::{all_names, judge_room, renew_names};
use crate::program::{Program, Sessions};
use crate::session::hold;
use crate::stopped::repairs_of;
use crate::words::{command, operand, switch};
use clap::ArgMatches;
use pot_image::Image;
use pot_report::{Room, Size, holdings};
use pots_readings::{can_read_without, groups_without};
use pots_sites::{Named, Way, archives_of, swap};
use pots_vault::{
    Standing, Stop, Visit, archive_name, image, listed_archives, look_at, named, ranges_text,
};
use serde_json::json;
use std::alloc::{AllocError, Global};
use std::fs;
use std::sync::Wait;
use std::thread::Threads;

/// The bytes of a file that one piece takes.
const PIECE: u64 = 864;

/// Its words.
pub fn words<'a>(alloc: Global) -> Result<clap::Command<'a>, AllocError> {
    let about =
        "Where all archives of a place are gone, take new ones, and split all files anew over all places";
    command(alloc, "evacuate", about)?
        .arg(operand(
            alloc,
            "ARCHIVES",
            "The name of the place that is gone, or the numbers of its archives, as 8-11",
        ))?
        .arg(operand(alloc, "FOLDER", "Where new, empty ones are to lie"))?
        .arg(switch(
            alloc,
            "dry-run",
            "Tell what would be done and how much room it takes, and do nothing",
        ))
}

/// What is to be done.
#[derive(Drop)]
struct Plan {
    numbers: Vec<u32>,
    /// The groups that lose archives, and of these the groups that parity mends.
    groups: Vec<u8>,
    mended: Vec<u8>,
    session: u32,
    /// The files, parts and lists that are split anew, their bytes, and the bytes that are left.
    files: u64,
    bytes: u64,
    room: u64,
}

/// Takes new archives in the place of those that are gone, and splits all files anew, once there is
/// room for all of them. It audits before and after.
pub fn work<X: Threads + Wait + Sync, P: Program>(
    sessions: &Sessions<'_, X, P>,
    visit: &mut Visit,
    words: &ArgMatches,
) -> Result<u8, Stop> {
    let text = words.get_str("ARCHIVES").unwrap_or("");
    let asked = asked_place(visit, text)?;
    let numbers = match &asked {
        Some((_, place)) => numbers_at(visit, *place)?,
        None => listed_archives(&visit.rt, text)?,
    };
    let folder = words.get_str("FOLDER").unwrap_or("");
    let plan = planned(visit, numbers)?;
    tell_plan(visit, &plan, (folder, asked.is_some()))?;
    if words.get_flag("dry-run") {
        return Ok(0);
    }
    let before = audited(sessions, visit, &plan, "before")?;
    match &asked {
        Some((named, place)) => bring_empty(visit, (named, *place, folder))?,
        None => bring_new(visit, &plan, folder)?,
    }
    for number in plan.numbers.iter() {
        visit.without.push(*number)?;
    }
    let repairs = repairs_of(visit.alloc(), &plan.mended)?;
    let replies = hold(sessions, visit, repairs)?;
    let repaired = visit.tell_all(&replies)?;
    let renewed = renew_all(sessions, visit)?;
    let after = audited(sessions, visit, &plan, "after")?;
    tell_done(visit, &plan)?;
    Ok(before.max(repaired).max(renewed).max(after))
}

// The archives of a place.
fn numbers_at(visit: &mut Visit, place: u8) -> Result<Vec<u32>, Stop> {
    let image = image(visit)?;
    Ok(archives_of(visit.alloc(), &image, place)?)
}

// Makes empty archives at the goal of a place that is gone, and has its link lead there. In a rack
// that was done before, for all racks.
fn bring_empty(visit: &mut Visit, (named, place, folder): (&Named, u8, &str)) -> Result<(), Stop> {
    let image = image(visit)?;
    let goal = whole_goal(visit, folder)?;
    let way = Way {
        named,
        place,
        goal: goal.as_str(),
    };
    if !way.is_there(visit)? {
        look_for_vault(visit, named)?;
    }
    way.look_at_goal(visit)?;
    way.make_empty(visit, &image)?;
    swap(visit, &way)?;
    way.relink(visit, &image)?;
    way.end(visit)
}

// What is to be done, where these archives are gone and no others.
fn planned(visit: &mut Visit, numbers: Vec<u32>) -> Result<Plan, Stop> {
    let image = image(visit)?;
    look_for_all(visit, &holdings(visit.alloc(), &image)?, &numbers)?;
    look_at_files(visit, &image, &numbers)?;
    let groups = groups_without(visit.alloc(), &image, &numbers, 0)?;
    let lost = groups_without(visit.alloc(), &image, &numbers, image.rack.parity)?;
    if !can_read_without(&image, &lost) {
        return Err(visit.refuse(
            1,
            "without these archives some files have too few shards, and nothing was done: see which disks of other places are left, and get back what there is with pots recover",
        ));
    }
    let (files, bytes, room) = judged(visit, &image)?;
    let mut mended = Vec::new(visit.alloc());
    for group in groups.iter() {
        if !lost.contains(group) {
            mended.push(*group)?;
        }
    }
    Ok(Plan {
        numbers,
        groups,
        mended,
        session: image.session,
        files,
        bytes,
        room,
    })
}

// Ends the command where one of these archives is here with its blocks, or another one is not.
fn look_at_files(visit: &Visit, image: &Image, numbers: &[u32]) -> Result<(), Stop> {
    for holding in holdings(visit.alloc(), image)?.iter() {
        let name = named(visit, holding.archive)?;
        let line = if numbers.contains(&holding.archive) {
            if !has_bytes(visit, holding.archive)? {
                continue;
            }
            format!(in visit.alloc();
                "{name} is here, and nothing was done: this is for archives that are gone; pots place brings one elsewhere, and where an evacuation was stopped pots renew --all goes on"
            )?
        } else {
            if look_at(&visit.rt, holding)? == Standing::There {
                continue;
            }
            format!(in visit.alloc();
                "{name} is not here as it should be, and nothing was done: mount its disk, or name it too"
            )?
        };
        return Err(visit.refuse(8, line.as_str()));
    }
    Ok(())
}

// Whether an archive has a file that is not empty.
fn has_bytes(visit: &Visit, number: u32) -> Result<bool, Stop> {
    let name = archive_name(visit.alloc(), number)?;
    Ok(fs::metadata(&visit.rt, name.as_str()).is_ok_and(|found| found.len() > 0))
}

// How many files there are, with their bytes and the bytes that are left. Ends the command where
// there is no room to split all of them anew. In each group the stripe that is being filled may be
// passed, so its room is left out.
fn judged(visit: &Visit, image: &Image) -> Result<(u64, u64, u64), Stop> {
    let mut room = Room::left(visit.alloc(), image)?;
    let left = room.bytes();
    let rack = &image.rack;
    let stripe = PIECE.saturating_mul(u64::from(rack.columns));
    let mut fits = room.take(stripe.saturating_mul(u64::from(rack.groups)));
    let mut bytes = 0u64;
    for record in image.records.iter() {
        fits = room.take(record.length) && fits;
        bytes = bytes.saturating_add(record.length);
    }
    if fits {
        return Ok((image.records.len() as u64, bytes, left));
    }
    let needed = Size(bytes);
    let left = Size(left);
    let line = format!(in visit.alloc();
        "there is no room to split all files anew, and nothing was done: {needed} are stored, and {left} are left; fetch all with pots fetch --read-only --all --to FOLDER, and store them in a new archive"
    )?;
    Err(visit.refuse(1, line.as_str()))
}

// Tells what is to be done.
fn tell_plan(visit: &Visit, plan: &Plan, (folder, is_place): (&str, bool)) -> Result<(), Stop> {
    let list = ranges_text(visit.alloc(), &plan.numbers)?;
    let list = list.as_str();
    let count = plan.files;
    if visit.json {
        let line =
            json!(in visit.alloc(); {"evacuate": list, "to": folder, "files": count, "bytes": plan.bytes, "room": plan.room})?;
        let line = line.to_string(visit.alloc())?;
        return println!(visit; "{line}");
    }
    let groups = plan.groups.len();
    let mended = plan.mended.len();
    let session = plan.session;
    let bytes = Size(plan.bytes);
    let room = Size(plan.room);
    println!(visit;
        "archives {list} of {groups} groups are gone; parity mends {mended} of these groups, and every file can still be read"
    )?;
    if is_place {
        println!(visit;
            "1. new, empty archives {list} lie in {folder}, and the place leads there"
        )?;
    } else {
        println!(visit;
            "1. new, empty archives {list} lie in {folder}; links of before go to gone-{session:04}"
        )?;
    }
    println!(visit; "2. what parity gives back is mended")?;
    println!(visit;
        "3. {count} files, parts and lists are split anew: {bytes}, of the {room} that are left"
    )
}

// Tells what who has the archives learns of each file. Answers the status.
fn audited<X: Threads + Wait + Sync, P: Program>(
    sessions: &Sessions<'_, X, P>,
    visit: &mut Visit,
    plan: &Plan,
    when: &str,
) -> Result<u8, Stop> {
    if visit.json {
        let line = json!(in visit.alloc(); {"audited": when})?;
        let line = line.to_string(visit.alloc())?;
        println!(visit; "{line}")?;
    } else {
        let list = ranges_text(visit.alloc(), &plan.numbers)?;
        let list = list.as_str();
        println!(visit; "{when}: what who has archives {list} learns")?;
    }
    audit_archives(sessions, visit, &plan.numbers)
}

// Moves links that lead nowhere away, and makes new archives in a folder.
fn bring_new(visit: &Visit, plan: &Plan, folder: &str) -> Result<(), Stop> {
    if fs::create_dir_all(&visit.rt, folder).is_err() {
        let line = format!(in visit.alloc();
            "the folder {folder} could not be made: see that its disk is mounted and may be written"
        )?;
        return Err(visit.refuse(8, line.as_str()));
    }
    for number in plan.numbers.iter() {
        move_link(visit, plan.session, *number)?;
        place_one(visit, *number, folder)?;
    }
    Ok(())
}

fn move_link(visit: &Visit, session: u32, number: u32) -> Result<(), Stop> {
    let rt = &visit.rt;
    let name = archive_name(visit.alloc(), number)?;
    let name = name.as_str();
    if fs::metadata(rt, name).is_ok() || fs::symlink_metadata(rt, name).is_err() {
        return Ok(());
    }
    let folder = format!(in visit.alloc(); "gone-{session:04}")?;
    let folder = folder.as_str();
    let target = format!(in visit.alloc(); "{folder}/{name}")?;
    let moved = fs::create_dir_all(rt, folder).is_ok()
        && fs::symlink_metadata(rt, target.as_str()).is_err()
        && fs::rename(rt, name, target.as_str()).is_ok();
    if moved {
        return Ok(());
    }
    let line = format!(in visit.alloc();
        "the link {name} could not be moved to {target}: move it away yourself, and give the command once more"
    )?;
    Err(visit.refuse(8, line.as_str()))
}

// Splits all files anew, as the archive splits them. Answers the status.
fn renew_all<X: Threads + Wait + Sync, P: Program>(
    sessions: &Sessions<'_, X, P>,
    visit: &mut Visit,
) -> Result<u8, Stop> {
    let image = image(visit)?;
    let geometry = image.rack.geometry;
    let names = all_names(visit.alloc(), &image)?;
    judge_room(visit, &image, &names)?;
    drop(image);
    renew_names(sessions, visit, &names, geometry)
}

fn tell_done(visit: &Visit, plan: &Plan) -> Result<(), Stop> {
    let list = ranges_text(visit.alloc(), &plan.numbers)?;
    let list = list.as_str();
    if visit.json {
        let line = json!(in visit.alloc(); {"did": "evacuated", "archives": list})?;
        let line = line.to_string(visit.alloc())?;
        return println!(visit; "{line}");
    }
    println!(visit;
        "new archives {list} are in use: look at all with pots check, and make a new copy of the desk with pots backup-desk"
    )
}
