//! What a session left that did not come to its end, as one that was killed.
//!
//! It may have written parity blocks of which the desk does not know, in each group in the stripe
//! that it was filling. Those of before were kept beside them, and are put back. Where they were
//! not, they count as lost, and are made anew from the data blocks, as long as these are there.

use crate::program::{Program, Sessions};
use crate::session::{batched, closed, work};
use pot_image::Image;
use pot_script::{Command, Reply};
use pots_rescue::{find_lost, put_parity_back};
use pots_vault::{Stop, Visit, are_all_there, image_for_session, was_stopped};
use std::alloc::{AllocError, Global};
use std::sync::Wait;
use std::thread::Threads;

/// The desk's image with which a session may begin, once blocks that counted as lost were found
/// again. Where the session before did not come to its end, the parity of before is put back, and a
/// session that mends all groups is held first, unless these commands do so.
pub fn image_to_begin<X: Threads + Wait + Sync, P: Program>(
    sessions: &Sessions<'_, X, P>,
    visit: &mut Visit,
    commands: &[Command],
) -> Result<Image, Stop> {
    let is_first = !visit.kept;
    let image = image_for_session(visit)?;
    if is_first {
        put_parity_back(visit, &image)?;
    }
    let image = find_lost(visit, image)?;
    if !is_first || !was_stopped(&image) {
        return Ok(image);
    }
    if !are_all_there(visit, &image)? {
        tell_unmended(visit);
        return Ok(image);
    }
    tell_stopped(visit);
    if repair_all(commands, image.rack.groups) {
        return Ok(image);
    }
    mend_all(sessions, visit, image.rack.groups)
}

fn tell_stopped(visit: &Visit) {
    let rt = &visit.rt;
    let _ = eprintln!(rt;
        "pots: the last session was stopped before its end, and parity of what it was storing may be lost: all groups are repaired first"
    );
}

fn tell_unmended(visit: &Visit) {
    let rt = &visit.rt;
    let _ = eprintln!(rt;
        "pots: the last session was stopped before its end, and parity of what it was storing may be lost: once all archives are there again, or new ones in their places, mend with pots repair"
    );
}

// Whether the commands repair each of so many groups.
fn repair_all(commands: &[Command], groups: u8) -> bool {
    for group in 0..groups {
        if !commands.iter().any(|command| is_repair_of(command, group)) {
            return false;
        }
    }
    true
}

fn is_repair_of(command: &Command, of: u8) -> bool {
    match command {
        Command::Repair { group } => *group == of,
        _ => false,
    }
}

// Holds a session that makes lost blocks of all groups anew. Answers the image that it leaves.
fn mend_all<X: Threads + Wait + Sync, P: Program>(
    sessions: &Sessions<'_, X, P>,
    visit: &mut Visit,
    groups: u8,
) -> Result<Image, Stop> {
    let mut all = Vec::new(visit.alloc());
    for group in 0..groups {
        all.push(group)?;
    }
    let repairs = batched(visit.alloc(), repairs_of(visit.alloc(), &all)?)?;
    let replies = work(sessions, visit, repairs)?;
    tell_mended(visit, &replies);
    closed(visit)
}

// Tells how many blocks a repair mended and left, where there were some.
fn tell_mended(visit: &Visit, replies: &[Reply]) {
    let mut mended = 0u64;
    let mut left = 0u64;
    for reply in replies.iter() {
        let (more, others) = counts_in(reply);
        mended = mended.saturating_add(more);
        left = left.saturating_add(others);
    }
    let rt = &visit.rt;
    if mended > 0 {
        let _ = eprintln!(rt; "pots: {mended} blocks were mended");
    }
    if left > 0 {
        let _ = eprintln!(rt; "pots: {left} blocks could not be mended: pots check tells of them");
    }
}

// How many blocks a repair mended, and how many it left.
fn counts_in(reply: &Reply) -> (u64, u64) {
    match reply {
        Reply::Repaired { mended, left, .. } => (u64::from(*mended), u64::from(*left)),
        _ => (0, 0),
    }
}

/// Commands that make lost blocks of these groups anew.
pub fn repairs_of(alloc: Global, groups: &[u8]) -> Result<Vec<Command>, AllocError> {
    let mut commands = Vec::new(alloc);
    for group in groups.iter() {
        commands.push(Command::Repair { group: *group })?;
    }
    Ok(commands)
}
