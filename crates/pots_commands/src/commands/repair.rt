//! `repair`: lost blocks are made anew.

use crate::moving::asked_groups;
use crate::program::{Program, Sessions};
use crate::session::hold_together;
use crate::stopped::repairs_of;
use crate::words::{groups, session_command};
use clap::ArgMatches;
use pot_script::Reply;
use pots_vault::{Gone, Stop, Visit, image};
use std::alloc::{AllocError, Global};
use std::sync::Wait;
use std::thread::Threads;

/// Its words.
pub fn words<'a>(alloc: Global) -> Result<clap::Command<'a>, AllocError> {
    let about = "Make the blocks that are lost anew, as far as parity goes";
    session_command(alloc, "repair", about)?.arg(groups(alloc))
}

/// Makes lost blocks of the groups anew.
pub fn work<X: Threads + Wait + Sync, P: Program>(
    sessions: &Sessions<'_, X, P>,
    visit: &mut Visit,
    words: &ArgMatches,
) -> Result<u8, Stop> {
    let groups = asked_groups(visit, words)?;
    let commands = repairs_of(visit.alloc(), &groups)?;
    let replies = hold_together(sessions, visit, commands)?;
    let status = visit.tell_all(&replies)?;
    let left = replies
        .iter()
        .fold(0u64, |sum, reply| { sum.saturating_add(left_in(reply)) });
    if left > 0 && tell_left(visit, &groups)? {
        return Ok(1);
    }
    Ok(status)
}

// Tells what is left of groups, and answers whether it is to be mended.
fn tell_left(visit: &mut Visit, groups: &[u8]) -> Result<bool, Stop> {
    let image = image(visit)?;
    let gone = Gone::in_groups(visit, &image, groups)?;
    gone.tell_idle(visit)?;
    Ok(gone.tell_left(&visit.rt))
}

// How many blocks a repair left as they were.
fn left_in(reply: &Reply) -> u64 {
    match reply {
        Reply::Repaired { left, .. } => u64::from(*left),
        _ => 0,
    }
}
