//! A vault of racks: each rack is a folder with a desk and archives of its own, and a whole vault.
//!
//! A command over racks is the same command in the folder of each, one rack after another. No two
//! are worked side by side: the working folder is one for the whole program, and sessions read and
//! write in it.

pub mod adding;
pub mod catalog;
pub mod entering;
pub mod evacuating;
pub mod finding;
pub mod going;
pub mod held;
pub mod listing;
pub mod placing;
pub mod putting;
pub mod rewording;
pub mod searching;
pub mod storing;
pub mod taking;

use crate::commands::place::asked_place;
use crate::program::{Program, Sessions};
use crate::racks::adding::work_racks;
use crate::racks::entering::Home;
use crate::racks::evacuating::evacuate;
use crate::racks::going::over_each;
use crate::racks::listing::{list, list_snapshot};
use crate::racks::placing::{bring_place, tell_totals};
use crate::racks::rewording::look_at_racks;
use crate::racks::searching::{diff, find};
use crate::racks::storing::store;
use crate::racks::taking::{by_names, by_snapshot, fetch};
use crate::verbs::Verb;
use clap::ArgMatches;
use pots_vault::{Stop, Visit};
use std::sync::Wait;
use std::thread::Threads;

/// A command that was given in the folder of a vault of racks.
#[derive(Clone, Copy)]
pub struct Asked<'a, 'b> {
    pub home: &'a Home,
    pub verb: Verb,
    /// Its name, as it was given.
    pub name: &'a str,
    pub words: &'a ArgMatches<'b>,
}

/// Does what a command asks for, over the racks of a vault. Answers the exit status.
pub fn work<X: Threads + Wait + Sync, P: Program>(
    rt: &HostRuntime,
    sessions: &Sessions<'_, X, P>,
    asked: &Asked,
) -> Result<u8, Stop> {
    let words = asked.words;
    let mut visit = Visit::begin(rt, words.get_flag("json"), None)?;
    visit.quiet = words.get_flag("quiet");
    look_at_racks(&visit, asked)?;
    let status = match asked.verb {
        Verb::Racks => work_racks(sessions, &visit, asked)?,
        Verb::Store => store(sessions, &visit, asked)?,
        Verb::Fetch => fetch(sessions, &visit, asked)?,
        Verb::Renew => by_names(sessions, &visit, asked)?,
        Verb::Cat => by_snapshot(sessions, &visit, asked)?,
        Verb::Find => find(sessions, &visit, asked)?,
        Verb::Diff => diff(sessions, &visit, asked)?,
        Verb::Evacuate => evacuate(sessions, &visit, asked)?,
        Verb::List if words.contains_id("NAME") => list_snapshot(sessions, &visit, asked)?,
        Verb::Place if words.contains_id("FOLDER") => place(sessions, &visit, asked)?,
        Verb::Status => {
            let status = over_each(sessions, &visit, asked)?;
            tell_totals(&visit, asked.home)?;
            status
        }
        Verb::List => list(sessions, &visit, asked)?,
        Verb::Check
        | Verb::Repair
        | Verb::Verify
        | Verb::Audit
        | Verb::Place
        | Verb::Recover
        | Verb::BackupDesk => over_each(sessions, &visit, asked)?,
        Verb::Init => return Err(is_made(&visit)),
        _ => return Err(of_one(&visit, asked)?),
    };
    Ok(visit.status(status))
}

// Brings a place of a name elsewhere, or archives by their numbers.
fn place<X: Threads + Wait + Sync, P: Program>(
    sessions: &Sessions<'_, X, P>,
    visit: &Visit,
    asked: &Asked,
) -> Result<u8, Stop> {
    let list = asked.words.get_str("ARCHIVES").unwrap_or("");
    let folder = asked.words.get_str("FOLDER").unwrap_or("");
    match asked_place(visit, list)? {
        Some((named, place)) => bring_place(visit, asked.home, (&named, place, folder)),
        None => over_each(sessions, visit, asked),
    }
}

fn is_made(visit: &Visit) -> Stop {
    visit.refuse(
        10,
        "this folder is a vault of racks already, and stays as it is: pots racks add 1 makes one more rack",
    )
}

// The end of a command that is of one rack.
fn of_one(visit: &Visit, asked: &Asked) -> Result<Stop, Stop> {
    let name = asked.name;
    let folder = asked.home.folder.as_str();
    let line = format!(in visit.alloc();
        "{name} is of one rack, and nothing was done: give it in the folder of that rack, as pots -C {folder}/rack-001 {name}"
    )?;
    Ok(visit.refuse(2, line.as_str()))
}
