//! Groups and archives that the words of several commands name.

use crate::program::{Program, Sessions};
use crate::session::hold;
use clap::ArgMatches;
use pot_script::Command;
use pots_vault::{MOST_ARCHIVES, Stop, Visit, image, read_number};
use std::sync::Wait;
use std::thread::Threads;

/// The groups that the words name, and all where they name none.
pub fn asked_groups(visit: &mut Visit, words: &ArgMatches) -> Result<Vec<u8>, Stop> {
    let image = image(visit)?;
    let count = image.rack.groups;
    let mut groups = Vec::new(visit.alloc());
    for text in words.get_strs("GROUP").unwrap_or(&[]) {
        match read_number(text).and_then(|number| u8::try_from(number).ok()) {
            Some(group) if group < count => groups.push(group)?,
            _ => {
                let line = format!(in visit.alloc();
                    "{text} is no group: they are numbered from 0, and there are {count}"
                )?;
                return Err(visit.refuse(2, line.as_str()));
            }
        }
    }
    if groups.is_empty() {
        for group in 0..count {
            groups.push(group)?;
        }
    }
    Ok(groups)
}

/// Holds a session for one command, and tells its reply.
pub fn work_one<X: Threads + Wait + Sync, P: Program>(
    sessions: &Sessions<'_, X, P>,
    visit: &mut Visit,
    command: Command,
) -> Result<u8, Stop> {
    let mut commands = Vec::new(visit.alloc());
    commands.push(command)?;
    let replies = hold(sessions, visit, commands)?;
    visit.tell_all(&replies)
}

/// The numbers of the two archives that the words name.
pub fn two_archives(visit: &Visit, words: &ArgMatches) -> Result<(u32, u32), Stop> {
    let from = archive_of(visit, words, "OLD")?;
    let to = archive_of(visit, words, "NEW")?;
    Ok((from, to))
}

fn archive_of(visit: &Visit, words: &ArgMatches, id: &str) -> Result<u32, Stop> {
    match words.get_str(id).and_then(read_number) {
        Some(number) if number < MOST_ARCHIVES => Ok(number),
        _ => Err(visit.refuse(2, "archives are given by their numbers, from 0 to 511")),
    }
}
