//! `renew`: files that are split anew.

use crate::program::{Program, Sessions};
use crate::session::hold_together;
use crate::splitting::geometry_of;
use crate::words::{option, session_command, switch};
use clap::{Arg, ArgAction, ArgMatches};
use pot_bytes::{Geometry, Name};
use pot_client::{part_name, read_part_name};
use pot_image::Image;
use pot_report::{Kept, Room, Size, kept_files};
use pot_script::{Command, Reply};
use pots_vault::{Stop, Visit, image};
use std::alloc::{AllocError, Global};
use std::collections::BTreeMap;
use std::sync::Wait;
use std::thread::Threads;

/// How many files, or parts of files, a session splits anew at most.
const MOST_RENEWED: usize = 16;

/// Its words.
pub fn words<'a>(alloc: Global) -> Result<clap::Command<'a>, AllocError> {
    let about = "Split files anew; their older blocks stay";
    let renew = session_command(alloc, "renew", about)?
        .arg(
            Arg::new(alloc, "NAME")
                .action(ArgAction::Append)
                .num_args(0..)
                .help("The names of the files"),
        )?
        .arg(switch(
            alloc,
            "all",
            "Split every file anew, where there is room for all",
        ))?;
    add_numbers(alloc, renew)
}

// The numbers of a split, each in place of the archive's own.
fn add_numbers<'a>(
    alloc: Global,
    renew: clap::Command<'a>,
) -> Result<clap::Command<'a>, AllocError> {
    renew
        .arg(option(alloc, "fragments", "K", "Fragments of a piece"))?
        .arg(option(alloc, "need", "M", "Shards that give a fragment"))?
        .arg(option(alloc, "shards", "N", "Shards of a fragment"))?
        .arg(option(alloc, "blur", "B", "Low bits that a pointer leaves out"))
}

/// Splits files anew, with all their parts.
pub fn work<X: Threads + Wait + Sync, P: Program>(
    sessions: &Sessions<'_, X, P>,
    visit: &mut Visit,
    words: &ArgMatches,
) -> Result<u8, Stop> {
    let mut image = image(visit)?;
    let geometry = geometry_of(visit, words, image.rack.geometry)?;
    if !geometry.fits(image.rack.groups) {
        return Err(visit.refuse(
            2,
            "no file is split so: see pots help renew, and the limits in potshards(1)",
        ));
    }
    let names = if words.get_flag("all") {
        all_names(visit.alloc(), &image)?
    } else {
        names_of(visit, words, &image)?
    };
    // A file takes the room that it has where files are split so.
    image.rack.geometry = geometry;
    judge_room(visit, &image, &names)?;
    drop(image);
    renew_names(sessions, visit, &names, geometry)
}

/// Splits stored files anew, some in each session. Answers the status.
pub fn renew_names<X: Threads + Wait + Sync, P: Program>(
    sessions: &Sessions<'_, X, P>,
    visit: &mut Visit,
    names: &[Name],
    geometry: Geometry,
) -> Result<u8, Stop> {
    let mut status = 0;
    for names in names.chunks(MOST_RENEWED) {
        if renew_some(sessions, visit, names, geometry)? != 0 {
            status = 1;
        }
    }
    Ok(status)
}

fn renew_some<X: Threads + Wait + Sync, P: Program>(
    sessions: &Sessions<'_, X, P>,
    visit: &mut Visit,
    names: &[Name],
    geometry: Geometry,
) -> Result<u8, Stop> {
    let mut commands = Vec::new(visit.alloc());
    for name in names {
        commands.push(Command::Renew {
            name: *name,
            geometry,
        })?;
    }
    let replies = hold_together(sessions, visit, commands)?;
    tell_renewed(visit, &replies)
}

// Tells what came of each, but of lists that were split anew nothing. Answers the status.
fn tell_renewed(visit: &Visit, replies: &[Reply]) -> Result<u8, Stop> {
    let mut status = 0;
    for reply in replies {
        if !is_of_list(reply) && visit.tell(reply)? {
            status = 1;
        }
    }
    Ok(status)
}

// Whether a list was split anew.
fn is_of_list(reply: &Reply) -> bool {
    match reply {
        Reply::Renewed { name, .. } => {
            read_part_name(name).is_some_and(|(_, number)| number == 0)
        }
        _ => false,
    }
}

/// The names of all files and their parts.
pub fn all_names(alloc: Global, image: &Image) -> Result<Vec<Name>, AllocError> {
    let mut names = Vec::new(alloc);
    for record in image.records.iter() {
        names.push(record.name)?;
    }
    Ok(names)
}

/// Ends the command where there is no room to split each of these anew: none is.
pub fn judge_room(visit: &Visit, image: &Image, names: &[Name]) -> Result<(), Stop> {
    let lengths = lengths_of(visit.alloc(), image)?;
    let mut room = Room::left(visit.alloc(), image)?;
    let left = Size(room.bytes());
    let mut fits = true;
    for name in names {
        let length = lengths.get(name).copied().unwrap_or(0);
        fits = room.take(length) && fits;
    }
    if fits {
        return Ok(());
    }
    let line = format!(in visit.alloc();
        "there is no room to split all these files anew, and none was: {left} is left; split fewer anew, by their names, or store all in a second archive in another folder"
    )?;
    Err(visit.refuse(1, line.as_str()))
}

// The length of each file and part, by its name.
fn lengths_of(alloc: Global, image: &Image) -> Result<BTreeMap<Name, u64>, AllocError> {
    let mut lengths = BTreeMap::new(alloc);
    for record in image.records.iter() {
        let _ = lengths.insert(record.name, record.length)?;
    }
    Ok(lengths)
}

// The names that the words give, and of a file in parts those of all its parts.
fn names_of(visit: &Visit, words: &ArgMatches, image: &Image) -> Result<Vec<Name>, Stop> {
    let files = kept_files(visit.alloc(), image)?;
    let mut names = Vec::new(visit.alloc());
    let given = words.get_strs("NAME").unwrap_or(&[]);
    if given.is_empty() {
        return Err(visit.refuse(2, "no file was named: give names, or --all"));
    }
    for text in given {
        let found = Name::read(text.as_bytes()).and_then(|name| files
            .get(&name)
            .map(|kept| (name, *kept)));
        let Some((name, kept)) = found else {
            let line = format!(in visit.alloc(); "{text} is not stored: pots list tells what is")?;
            return Err(visit.refuse(1, line.as_str()));
        };
        append_names(&mut names, name, &kept)?;
    }
    Ok(names)
}

fn append_names(names: &mut Vec<Name>, name: Name, kept: &Kept) -> Result<(), AllocError> {
    if kept.direct.is_some() {
        names.push(name)?;
        if kept.complete {
            append_part(names, &name, 0)?;
        }
        return Ok(());
    }
    for number in 0..=kept.parts {
        append_part(names, &name, number)?;
    }
    Ok(())
}

fn append_part(names: &mut Vec<Name>, name: &Name, number: u32) -> Result<(), AllocError> {
    if let Some(part) = part_name(name, number) {
        names.push(part)?;
    }
    Ok(())
}
