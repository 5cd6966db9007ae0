//! How far a recovery reads: which archives and blocks, with which blur, and how archives form
//! groups.

use crate::shaping::Fronting;
use pot_remnants::{
    MOST_ARCHIVES, MOST_COLUMNS, MOST_PARITY, Reading, SLOT, Shape, Survey, open_archive,
};
use pots_vault::{Stop, Visit, number_in};
use std::fs::File;
use std::os::unix::fs::FileExt;

/// The most slots of an archive.
const MOST_SLOTS: u64 = 4096;

/// Which blocks are read, with which blur, and what gives those that are gone.
#[derive(Clone, Copy)]
pub struct Reach {
    pub archives: u32,
    pub stripes: u32,
    pub blur: u32,
    pub shape: Option<Shape>,
}

impl Reach {
    /// The same, as the archives are read.
    pub fn reading(self) -> Reading {
        let Reach {
            archives,
            stripes,
            blur,
            shape,
        } = self;
        Reading {
            archives,
            stripes,
            blur: u8::try_from(blur).unwrap_or(u8::MAX),
            shape,
        }
    }
}

/// The numbers that are given for a recovery, as texts.
#[derive(Clone, Copy)]
pub struct Given<'a> {
    pub archives: Option<&'a str>,
    pub stripes: Option<&'a str>,
    pub blur: Option<&'a str>,
    pub columns: Option<&'a str>,
    pub parity: Option<&'a str>,
}

/// What failed at a status of the reading, and what to do next.
pub fn reason(status: u8) -> &'static str {
    match status {
        2 =>
            "these numbers are beyond the limits: see pots help recover, and the limits in potshards(1)",
        11 =>
            "there are too many ways to read these blocks, as where an archive was tampered with: leave out one archive after another, as with --without 0, or give --unbounded and time; potshards-recovery(7) tells more",
        _ => "memory ran out for what the blocks give: give it more",
    }
}

/// What the words say, and else what is in the folder.
///
/// # Errors
/// What is wrong with the numbers, or what is missing, was said.
pub fn reach_of(visit: &Visit, given: &Given<'_>, survey: &Survey) -> Result<Reach, Stop> {
    let archives = number_in(visit, "archives", given.archives)?.unwrap_or(survey.count());
    if archives == 0 {
        return Err(visit.refuse(
            8,
            "there is no archive-0 in this folder: go to the folder of the archives, or put links to them into one",
        ));
    }
    if archives > MOST_ARCHIVES {
        return Err(visit.refuse(2, reason(2)));
    }
    let stripes = number_in(visit, "stripes", given.stripes)?.unwrap_or(count_slots(survey));
    let fronting = Fronting::read(visit, survey, archives)?;
    let blur = match number_in(visit, "blur", given.blur)? {
        Some(blur) => blur,
        None => seen_blur(visit, &fronting, survey, archives)?,
    };
    let columns = number_within(visit, "columns", given.columns, MOST_COLUMNS)?;
    let parity = number_within(visit, "parity", given.parity, MOST_PARITY)?;
    Ok(Reach {
        archives,
        stripes,
        blur,
        shape: fronting.shape(columns, parity),
    })
}

// The number of an option, where it is given, from 1 to the most that there may be.
fn number_within(
    visit: &Visit,
    name: &str,
    text: Option<&str>,
    most: u32,
) -> Result<Option<u32>, Stop> {
    match number_in(visit, name, text)? {
        Some(number) if number == 0 || number > most => {
            let line = format!(in visit.alloc(); "--{name} takes a number from 1 to {most}")?;
            Err(visit.refuse(2, line.as_str()))
        }
        number => Ok(number),
    }
}

// The most slots that an archive has.
fn count_slots(survey: &Survey) -> u32 {
    let most = survey.longest().div_ceil(SLOT).clamp(1, MOST_SLOTS);
    u32::try_from(most).unwrap_or(1)
}

// The blur of most of the first shards, or else of the first one that is found.
fn seen_blur(
    visit: &Visit,
    fronting: &Fronting,
    survey: &Survey,
    archives: u32,
) -> Result<u32, Stop> {
    if let Some(blur) = fronting.blur() {
        return Ok(u32::from(blur));
    }
    for number in 0..archives {
        if !survey.state(number).is_there() {
            continue;
        }
        if let Some(file) = open_archive(&visit.rt, number) {
            if let Some(blur) = blur_in(&file) {
                return Ok(blur);
            }
        }
    }
    Err(visit.refuse(
        8,
        "no archive here has a block of a file: see that all disks are mounted, or give --blur",
    ))
}

// The blur of the first shard of an archive: a slot is 1 and its block, and a shard begins with
// PSH1, x, m, n and the blur.
fn blur_in(file: &File) -> Option<u32> {
    let mut front = [0u8; 9];
    for slot in 0..MOST_SLOTS {
        file.read_exact_at(&mut front, slot * SLOT).ok()?;
        if let [1, b'P', b'S', b'H', b'1', _, _, _, blur] = front {
            return Some(u32::from(blur));
        }
    }
    None
}
