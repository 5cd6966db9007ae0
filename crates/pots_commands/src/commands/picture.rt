//! `picture`: a page that shows places, groups and archives, and who sees which files.

use crate::commands::audit::exposures_of;
use crate::commands::backup_desk::put_text;
use crate::program::{Program, Sessions};
use crate::words::{command, operand, switch};
use clap::ArgMatches;
use pot_image::Image;
use pot_report::places_of;
use pots_looks::{SeenBy, page_text};
use pots_sites::{Named, archives_of, place_word, places_here};
use pots_vault::{Stop, Visit, image};
use std::alloc::{AllocError, Global};
use std::sync::Wait;
use std::thread::Threads;

/// Of more places than these no pairs are told: their audits would take too long.
const MOST_PAIRED: u16 = 16;

/// The exit status of an audit where memory ran out.
const NO_MEMORY: u8 = 70;

/// Its words.
pub fn words<'a>(alloc: Global) -> Result<clap::Command<'a>, AllocError> {
    let about = "Write a page of HTML that shows places, groups and archives, and how they stand";
    command(alloc, "picture", about)?
        .arg(operand(alloc, "FILE", "The file to write"))?
        .arg(switch(alloc, "force", "Write over a file that is there"))
}

/// Writes the page. Where an audit cannot be made, the page does not tell who sees which files.
pub fn work<X: Threads + Wait + Sync, P: Program>(
    sessions: &Sessions<'_, X, P>,
    visit: &mut Visit,
    words: &ArgMatches,
) -> Result<u8, Stop> {
    let seen = all_seen(sessions, visit)?;
    let text = page_text(visit, &seen)?;
    put_text(visit, words, text.as_str())
}

// What who has all archives of each place sees, and then of each pair of places. Nothing where an
// audit cannot be made, which was said.
fn all_seen<X: Threads + Wait + Sync, P: Program>(
    sessions: &Sessions<'_, X, P>,
    visit: &mut Visit,
) -> Result<Vec<SeenBy>, Stop> {
    let image = image(visit)?;
    let named = places_here(&visit.rt)?;
    let mut all = Vec::new(visit.alloc());
    for pair in pairs(visit.alloc(), places_of(&image.rack))?.iter() {
        match seen_by(sessions, visit, (&image, &named), *pair) {
            Ok(seen) => all.push(seen)?,
            Err(Stop::Said(status)) if status != NO_MEMORY => {
                return Ok(Vec::new(visit.alloc()));
            }
            Err(stop) => return Err(stop),
        }
    }
    Ok(all)
}

// Each of so many places as a pair with itself, and then each pair of two.
fn pairs(alloc: Global, count: u8) -> Result<Vec<(u8, u8)>, AllocError> {
    let count = u16::from(count.max(1));
    let rows = if count > MOST_PAIRED { 0 } else { count };
    let mut all = Vec::new(alloc);
    for at in 0..count.saturating_mul(rows.saturating_add(1)) {
        let second = at % count;
        let first = (at / count).checked_sub(1).unwrap_or(second);
        if at < count || first < second {
            let first = u8::try_from(first).unwrap_or(u8::MAX);
            let second = u8::try_from(second).unwrap_or(u8::MAX);
            all.push((first, second))?;
        }
    }
    Ok(all)
}

// What who has all archives of a place sees, or of both of two places.
fn seen_by<X: Threads + Wait + Sync, P: Program>(
    sessions: &Sessions<'_, X, P>,
    visit: &mut Visit,
    (image, named): (&Image, &Option<Named>),
    (first, second): (u8, u8),
) -> Result<SeenBy, Stop> {
    let alloc = visit.alloc();
    let mut places = place_word(alloc, named, first)?;
    let mut numbers = archives_of(alloc, image, first)?;
    if first != second {
        let other = place_word(alloc, named, second)?;
        places.push_str(" and ")?;
        places.push_str(other.as_str())?;
        numbers.extend_from_slice(&archives_of(alloc, image, second)?)?;
    }
    let (_, exposures) = exposures_of(sessions, visit, image, &numbers)?;
    let mut exposed = 0usize;
    for (_, exposure) in exposures.files.iter() {
        if exposure.bare > 0 {
            exposed = exposed.saturating_add(1);
        }
    }
    Ok(SeenBy {
        places,
        files: exposures.files.len(),
        exposed,
    })
}
