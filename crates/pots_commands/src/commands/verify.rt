//! `verify`: archives are looked at without a session, each by itself.

use crate::words::command;
use clap::{Arg, ArgAction, ArgMatches};
use pots_looks::verify_archives;
use pots_vault::{Stop, Visit, listed_archives};
use std::alloc::{AllocError, Global};

/// Its words.
pub fn words<'a>(alloc: Global) -> Result<clap::Command<'a>, AllocError> {
    let about = "Compare the blocks of the archives that are here with the desk, and write nothing";
    command(alloc, "verify", about)?.arg(
        Arg::new(alloc, "ARCHIVES")
            .action(ArgAction::Append)
            .num_args(0..)
            .help("The numbers of the archives, as 0-3; all that are here where none is given"),
    )
}

/// Compares the blocks of archives with what the desk knows of them.
pub fn work(visit: &mut Visit, words: &ArgMatches) -> Result<u8, Stop> {
    let mut asked = Vec::new(visit.alloc());
    for text in words.get_strs("ARCHIVES").unwrap_or(&[]) {
        for number in listed_archives(&visit.rt, text)? {
            asked.push(number)?;
        }
    }
    let all_well = verify_archives(visit, &asked)?;
    Ok(if all_well { 0 } else { 1 })
}
