//! `recover-desk`: the desk comes back from its shares.

use crate::words::command;
use clap::{Arg, ArgAction, ArgMatches};
use pots_shares::recover_desk;
use pots_vault::{Stop, Visit, folders_about};
use std::alloc::{AllocError, Global};

/// Its words.
pub fn words<'a>(alloc: Global) -> Result<clap::Command<'a>, AllocError> {
    let about = "Get the desk back from the shares that lie beside the archives of the places";
    command(alloc, "recover-desk", about)?.arg(
        Arg::new(alloc, "FOLDER")
            .action(ArgAction::Append)
            .num_args(0..)
            .help(
                "The folders that have shares; those of the archives that are here where none is given",
            ),
    )
}

/// Writes the newest desk of which enough shares are there.
pub fn work(visit: &mut Visit, words: &ArgMatches) -> Result<u8, Stop> {
    let folders = asked(visit, words)?;
    recover_desk(visit, &folders)?;
    Ok(0)
}

// The folders that the words name, or those of the archives that are here.
fn asked(visit: &Visit, words: &ArgMatches) -> Result<Vec<String>, Stop> {
    let given = words.get_strs("FOLDER").unwrap_or(&[]);
    if given.is_empty() {
        return folders_about(visit);
    }
    let mut folders = Vec::new(visit.alloc());
    for folder in given {
        folders.push(String::from_str(visit.alloc(), folder)?)?;
    }
    Ok(folders)
}
