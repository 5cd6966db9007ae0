//! What is told of the archives that a recovery reads.

use crate::reaching::Reach;
use pot_remnants::{Remains, Shape, State, Survey, Tally};
use pots_vault::{Stop, Visit, archive_name, named};
use std::alloc::Global;
use std::fs;

/// Tells of each archive whose file gives nothing what becomes of its blocks. Answers whether none
/// of them is missed.
pub fn tell_gone(visit: &Visit, survey: &Survey, reach: Reach) -> Result<bool, Stop> {
    let mut missed = Vec::new(visit.alloc());
    for (number, state) in survey.gone(visit.alloc(), reach.archives)?.iter() {
        if !is_borne(visit, survey, reach.shape, (*number, *state))? {
            missed.push(*number)?;
        }
    }
    if missed.is_empty() {
        return Ok(true);
    }
    let rt = &visit.rt;
    let list = listed(visit.alloc(), &missed)?;
    let _ = eprintln!(rt; "pots: missed are the blocks of {list}");
    tell_advice(visit, reach.shape);
    Ok(false)
}

// Tells what becomes of the blocks of an archive whose file gives nothing. Answers whether they are
// not missed.
fn is_borne(
    visit: &Visit,
    survey: &Survey,
    shape: Option<Shape>,
    gone: (u32, State),
) -> Result<bool, Stop> {
    let rt = &visit.rt;
    let (number, state) = gone;
    let reason = state.reason();
    if let Some(shape) = shape {
        let text = named(visit, number)?;
        if !shape.is_data(number) {
            let _ = eprintln!(rt; "pots: {text} {reason}: it has parity alone, and no file");
            return Ok(true);
        }
        if shape.gives(survey, number) {
            tell_made(visit, text.as_str(), state, shape, number);
            return Ok(true);
        }
    }
    if state != State::Missing || is_link(visit, number)? {
        let text = named(visit, number)?;
        let _ = eprintln!(rt; "pots: {text} {reason}");
    }
    Ok(state == State::Empty)
}

fn is_link(visit: &Visit, number: u32) -> Result<bool, Stop> {
    let name = archive_name(visit.alloc(), number)?;
    Ok(fs::read_link(&visit.rt, name.as_str()).is_ok())
}

// Archives by their ascending numbers, as archives 4, 5 and 8 to 11 are written: 4,5,8-11.
pub fn listed(alloc: Global, numbers: &[u32]) -> Result<String, Stop> {
    let mut text = String::from_str(alloc, "archives ")?;
    let mut run: Option<(u32, u32)> = None;
    for number in numbers.iter() {
        run = match run {
            Some((first, last)) if last.saturating_add(1) == *number => Some((first, *number)),
            Some(before) => {
                append_run(alloc, &mut text, before)?;
                text.push_str(",")?;
                Some((*number, *number))
            }
            None => Some((*number, *number)),
        };
    }
    if let Some(last) = run {
        append_run(alloc, &mut text, last)?;
    }
    Ok(text)
}

fn append_run(alloc: Global, text: &mut String, run: (u32, u32)) -> Result<(), Stop> {
    let (first, last) = run;
    let written = if first == last {
        format!(in alloc; "{first}")?
    } else {
        format!(in alloc; "{first}-{last}")?
    };
    text.push_str(written.as_str())?;
    Ok(())
}

fn tell_made(visit: &Visit, text: &str, state: State, shape: Shape, number: u32) {
    let rt = &visit.rt;
    let reason = state.reason();
    let first = shape.group_of(number).start;
    let last = first.saturating_add(shape.width()).saturating_sub(1);
    let _ = eprintln!(rt;
        "pots: {text} {reason}: its blocks are made anew from the others of archives {first} to {last}"
    );
}

// What to do where blocks are missed that no others give.
fn tell_advice(visit: &Visit, shape: Option<Shape>) {
    let rt = &visit.rt;
    let _ = match shape {
        Some(Shape { columns, parity }) => eprintln!(rt;
            "pots: groups have {columns} data and {parity} parity archives here, and of one data archive of a group the others and the first parity archive give the blocks, and of two the others and both parity archives: see that all disks are mounted, give an archive that pots replace or pots migrate brought the number of the old one, as by mv archive-12 archive-4, and give the command once more; files of which a shard is missed are not found"
        ),
        None => eprintln!(rt;
            "pots: how many data and parity archives a group has was not seen: see that all disks are mounted; with --columns and --parity, as pots init told them, the blocks of one archive of each group are made anew"
        ),
    };
}

/// Tells what came of the archives. Answers whether nothing is in doubt.
pub fn tell_tallies(visit: &Visit, room: &Remains) -> Result<bool, Stop> {
    let mut sound = true;
    for (number, tally) in room.tallies().iter().enumerate() {
        let number = u32::try_from(number).unwrap_or(u32::MAX);
        if !tell_tally(visit, number, *tally, room.has(number))? {
            sound = false;
        }
    }
    Ok(sound)
}

// Where the archive is there, a stripe that does not fit may be one that was being filled.
fn tell_tally(visit: &Visit, number: u32, tally: Tally, is_there: bool) -> Result<bool, Stop> {
    let rt = &visit.rt;
    let Tally { made, unread, odd } = tally;
    let text = named(visit, number)?;
    if made > 0 {
        let _ = eprintln!(rt; "pots: {text}: {made} blocks were made anew");
    }
    if unread > 0 {
        let _ = eprintln!(rt;
            "pots: {text}: {unread} slots could not be read: its disk may be dying, so copy what is left of it"
        );
    }
    let misfit = odd > 0 && !is_there;
    if misfit {
        let _ = eprintln!(rt;
            "pots: {text}: {odd} blocks could not be made anew: more than one block of their stripes is gone or wrong"
        );
    }
    Ok(unread == 0 && !misfit)
}

/// Tells that no file was found, and what to try.
pub fn tell_nothing(visit: &Visit) {
    let rt = &visit.rt;
    let _ = eprintln!(rt;
        "pots: no file was found: one is found where all shards of its fragments are there; see that all disks are mounted, and try --robust, or another --blur"
    );
}
