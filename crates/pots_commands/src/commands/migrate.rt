//! `migrate`: an archive is copied to a new one.

use crate::moving::{two_archives, work_one};
use crate::program::{Program, Sessions};
use crate::words::{operand, session_command};
use clap::ArgMatches;
use pot_script::Command;
use pots_vault::{Stop, Visit, look_for_empty};
use std::alloc::{AllocError, Global};
use std::sync::Wait;
use std::thread::Threads;

/// Its words.
pub fn words<'a>(alloc: Global) -> Result<clap::Command<'a>, AllocError> {
    let about = "Copy an archive to a new one, and use that from then on";
    session_command(alloc, "migrate", about)?
        .arg(operand(alloc, "OLD", "The number of the archive"))?
        .arg(operand(alloc, "NEW", "A number that was never used"))
}

/// Copies an archive to a new one.
pub fn work<X: Threads + Wait + Sync, P: Program>(
    sessions: &Sessions<'_, X, P>,
    visit: &mut Visit,
    words: &ArgMatches,
) -> Result<u8, Stop> {
    let (from, to) = two_archives(visit, words)?;
    look_for_empty(visit, to)?;
    work_one(sessions, visit, Command::Migrate { from, to })
}
