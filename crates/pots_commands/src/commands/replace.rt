//! `replace`: a new archive in the place of one that is lost.

use crate::moving::{two_archives, work_one};
use crate::program::{Program, Sessions};
use crate::words::{operand, session_command};
use clap::ArgMatches;
use pot_script::Command;
use pots_vault::{Stop, Visit, look_for_empty};
use std::alloc::{AllocError, Global};
use std::sync::Wait;
use std::thread::Threads;

/// Its words.
pub fn words<'a>(alloc: Global) -> Result<clap::Command<'a>, AllocError> {
    let about =
        "Put a new archive in the place of one that is lost; pots repair then makes its blocks anew";
    session_command(alloc, "replace", about)?
        .arg(operand(alloc, "OLD", "The number of the archive that is lost"))?
        .arg(operand(alloc, "NEW", "A number that was never used"))
}

/// Puts a new archive in the place of one that is lost, and need not be there.
pub fn work<X: Threads + Wait + Sync, P: Program>(
    sessions: &Sessions<'_, X, P>,
    visit: &mut Visit,
    words: &ArgMatches,
) -> Result<u8, Stop> {
    let (from, to) = two_archives(visit, words)?;
    look_for_empty(visit, to)?;
    visit.without.push(from)?;
    work_one(sessions, visit, Command::Replace { from, to })
}
