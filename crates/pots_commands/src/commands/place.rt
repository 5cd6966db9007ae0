//! `place`: where archives lie, and archives that are brought elsewhere.

use crate::commands::status::tell_archives;
use crate::words::command;
use clap::{Arg, ArgAction, ArgMatches};
use pot_image::Image;
use pots_shares::lay_shares;
use pots_sites::{Named, Way, heal, places_here, swap, tell_places};
use pots_vault::{
    Stop, Visit, archive_name, image, listed_archives, look_for_file, put_file, sync_folder_of,
};
use std::alloc::{AllocError, Global};
use std::io::ErrorKind;
use std::os::unix::fs::symlink;
use std::{fs, io};

/// Its words.
pub fn words<'a>(alloc: Global) -> Result<clap::Command<'a>, AllocError> {
    let about =
        "Tell where each archive lies, or copy archives to another folder and leave links to them";
    command(alloc, "place", about)?
        .arg(
            Arg::new(alloc, "ARCHIVES")
                .action(ArgAction::Set)
                .requires_arg("FOLDER")?
                .help("The name of a place, or the numbers of archives, as 0-3"),
        )?
        .arg(
            Arg::new(alloc, "FOLDER")
                .action(ArgAction::Set)
                .help("Where they are to lie"),
        )
}

/// Tells where archives lie, or copies some of them to a folder and leaves links.
pub fn work(visit: &mut Visit, words: &ArgMatches) -> Result<u8, Stop> {
    let mut image = image(visit)?;
    let (Some(archives), Some(folder)) = (words.get_str("ARCHIVES"), words.get_str("FOLDER")) else {
        tell_archives(visit, &image)?;
        tell_places(visit, &image)?;
        return Ok(0);
    };
    if let Some((named, place)) = asked_place(visit, archives)? {
        bring_place(visit, &image, (&named, place, folder))?;
        lay_shares(visit, &mut image)?;
        return Ok(0);
    }
    let numbers = listed_archives(&visit.rt, archives)?;
    make_goal(visit, folder)?;
    for number in numbers.iter() {
        place_one(visit, *number, folder)?;
    }
    lay_shares(visit, &mut image)?;
    Ok(0)
}

/// The place of this name. None where the text begins with no letter, as a list of numbers does.
pub fn asked_place(visit: &Visit, text: &str) -> Result<Option<(Named, u8)>, Stop> {
    if !begins_with_letter(text) {
        return Ok(None);
    }
    if let Some(named) = places_here(&visit.rt)? {
        if let Some(place) = named.number(text) {
            return Ok(Some((named, place)));
        }
    }
    let line = format!(in visit.alloc();
        "there is no place {text}: pots status names the places, and archives are given by their numbers, as 0-3"
    )?;
    Err(visit.refuse(2, line.as_str()))
}

fn begins_with_letter(text: &str) -> bool {
    match text.as_bytes() {
        [first, ..] => first.is_ascii_lowercase(),
        [] => false,
    }
}

// Brings all archives of a place to a folder, and leaves one link.
fn bring_place(
    visit: &Visit,
    image: &Image,
    (named, place, folder): (&Named, u8, &str),
) -> Result<(), Stop> {
    look_for_vault(visit, named)?;
    named.look_at_count(visit, &image.rack)?;
    heal(visit, named, place)?;
    let goal = whole_goal(visit, folder)?;
    let way = Way {
        named,
        place,
        goal: goal.as_str(),
    };
    way.look_at_goal(visit)?;
    let old = way.old_folder(visit)?;
    way.copy(visit, image)?;
    swap(visit, &way)?;
    way.relink(visit, image)?;
    way.forget(visit, image)?;
    way.end(visit)?;
    tell_brought(visit, &way, &old)
}

/// Ends the command in the folder of a rack: a place is that of all racks.
pub fn look_for_vault(visit: &Visit, named: &Named) -> Result<(), Stop> {
    if named.up.is_empty() {
        return Ok(());
    }
    Err(visit.refuse(
        2,
        "a place has archives of all racks: give this in the folder of the vault, which is the one above",
    ))
}

/// The folder that archives are to come to, from the root. It is made where it is not there.
pub fn whole_goal(visit: &Visit, folder: &str) -> Result<String, Stop> {
    make_goal(visit, folder)?;
    match fs::canonicalize(&visit.rt, folder) {
        Ok(path) => Ok(path.into_string()),
        Err(_) => Err(no_goal(visit, folder)?),
    }
}

fn make_goal(visit: &Visit, folder: &str) -> Result<(), Stop> {
    match fs::create_dir_all(&visit.rt, folder) {
        Ok(()) => Ok(()),
        Err(_) => Err(no_goal(visit, folder)?),
    }
}

fn no_goal(visit: &Visit, folder: &str) -> Result<Stop, Stop> {
    let line = format!(in visit.alloc();
        "the folder {folder} could not be made: see that its disk is mounted and may be written"
    )?;
    Ok(visit.refuse(8, line.as_str()))
}

/// Tells that a place was brought to its goal, and which copies stay where it was.
pub fn tell_brought(visit: &Visit, way: &Way, old: &Option<String>) -> Result<(), Stop> {
    let goal = way.goal;
    if let Some(old) = old {
        let rt = &visit.rt;
        let _ = eprintln!(rt;
            "pots: what lies in {old} stays there as old copies: whoever has them has what this place has, so take them away where nobody needs them"
        );
    }
    if visit.json {
        return visit.tell_file("placed", goal);
    }
    let name = way.named.name(way.place);
    println!(visit; "place {name} lies at {goal}")
}

/// Copies an archive to a folder, or makes an empty one there, and leaves a link.
pub fn place_one(visit: &Visit, number: u32, folder: &str) -> Result<(), Stop> {
    let rt = &visit.rt;
    let name = archive_name(visit.alloc(), number)?;
    let name = name.as_str();
    let target = target_of(visit, folder, name)?;
    let target = target.as_str();
    if lies_at(rt, name, target) {
        return tell_placed(visit, name, target);
    }
    look_for_file(visit, number)?;
    match copy_and_link(rt, name, target) {
        Ok(()) => tell_placed(visit, name, target),
        Err(e) => {
            let line = format!(in visit.alloc();
                "{name} could not be brought to {target}, and stays where it is: {e}; see that the disk has room; where a file of that name is there, move it away and remove nothing"
            )?;
            Err(visit.refuse(8, line.as_str()))
        }
    }
}

// Whether the archive lies there already, as where the command is given once more.
fn lies_at(rt: &HostRuntime, name: &str, target: &str) -> bool {
    match fs::canonicalize(rt, name) {
        Ok(path) => path.as_str() == target,
        Err(_) => false,
    }
}

fn tell_placed(visit: &Visit, name: &str, target: &str) -> Result<(), Stop> {
    if visit.json {
        visit.tell_file("placed", target)
    } else {
        println!(visit; "{name} lies at {target}")
    }
}

// The path of an archive in a folder, which a link can hold wherever it is read from.
fn target_of(visit: &Visit, folder: &str, name: &str) -> Result<String, Stop> {
    match fs::canonicalize(&visit.rt, folder) {
        Ok(whole) => {
            let folder = whole.as_str();
            Ok(format!(in visit.alloc(); "{folder}/{name}")?)
        }
        Err(_) => {
            let line = format!(in visit.alloc();
                "the folder {folder} could not be found: see that its disk is mounted"
            )?;
            Err(visit.refuse(8, line.as_str()))
        }
    }
}

// The archive as it is is copied, or an empty one made where there is none; then a link takes its
// place.
fn copy_and_link(rt: &HostRuntime, name: &str, target: &str) -> io::Result<()> {
    let bytes = match fs::read(rt, name) {
        Ok(bytes) => bytes,
        Err(e) if e.kind() == ErrorKind::NotFound && !is_link(rt, name) => Vec::new(rt.alloc()),
        Err(e) => return Err(e),
    };
    put_file(rt, target, &bytes, false)?;
    let link = format!(in rt.alloc(); "{name}.link")?;
    let link = link.as_str();
    if let Err(e) = make_link(rt, target, link) {
        let _ = fs::remove_file(rt, target);
        return Err(e);
    }
    fs::rename(rt, link, name)?;
    sync_folder_of(rt, name)
}

// Makes a link, in the place of one that a command left which was stopped before it gave the link
// its name.
fn make_link(rt: &HostRuntime, target: &str, link: &str) -> io::Result<()> {
    if is_link(rt, link) {
        fs::remove_file(rt, link)?;
    }
    symlink(rt, target, link)
}

fn is_link(rt: &HostRuntime, name: &str) -> bool {
    match fs::symlink_metadata(rt, name) {
        Ok(file) => file.is_symlink(),
        Err(_) => false,
    }
}
