//! `check`: each block is looked at.

use crate::moving::asked_groups;
use crate::program::{Program, Sessions};
use crate::session::hold_to_tell;
use crate::words::{groups, session_command};
use clap::ArgMatches;
use pot_report::{Holding, holdings};
use pot_script::Reply;
use pots_looks::{Habit, remember};
use pots_vault::{Stop, Visit, image, tell_ailing};
use std::alloc::{AllocError, Global};
use std::sync::Wait;
use std::thread::Threads;

/// Its words.
pub fn words<'a>(alloc: Global) -> Result<clap::Command<'a>, AllocError> {
    let about = "Look at each block, and tell which archive is ailing and what mends it";
    session_command(alloc, "check", about)?.arg(groups(alloc))
}

/// Looks at each block, and tells which archives are ailing and what mends them. The opening of a
/// session reads each block that the desk names, and notes which are gone, so it has nothing else
/// to do.
pub fn work<X: Threads + Wait + Sync, P: Program>(
    sessions: &Sessions<'_, X, P>,
    visit: &mut Visit,
    words: &ArgMatches,
) -> Result<u8, Stop> {
    let groups = asked_groups(visit, words)?;
    let nothing = Vec::new(visit.alloc());
    let _ = hold_to_tell(sessions, visit, nothing)?;
    let image = image(visit)?;
    let all = holdings(visit.alloc(), &image)?;
    for group in groups.iter() {
        tell_seen(visit, &all, *group)?;
    }
    let is_ailing = tell_ailing(visit, &image)?;
    remember(visit, Habit::Check)?;
    Ok(if is_ailing { 1 } else { 0 })
}

// Tells how many blocks of a group the opening read, as the reply to a scrub behind it does: that
// one looks at those that are there, and finds them once more.
fn tell_seen(visit: &Visit, all: &[Holding], group: u8) -> Result<(), Stop> {
    let seen = all
        .iter()
        .filter(|holding| holding.group == group)
        .fold(0u32, |sum, holding| sum.saturating_add(holding.live));
    let _ = visit.tell(&Reply::Scrubbed {
        group,
        seen,
        gone: 0,
    })?;
    Ok(())
}
