//! `recover` with `--columns` and `--parity`: where a data archive of a group is gone, its blocks
//! are made anew from the others of its group. The archives are read as they lie, and none is made.
//!
//! The words that are left are those of `recover`, which `run` works over that room. What a block
//! that was made is worth the digests of contents tell, as of any other.

use pot_files::{DeskFile, Input, NoGate, Output};
use pot_options::{Options, read_options};
use pot_remnants::{MOST_COLUMNS, MOST_PARITY, Remains, Shape, Survey, no_tallies};
use pot_script::read_number;
use pot_session::run;
use std::alloc::{AllocError, Global};
use std::sync::Wait;
use std::thread::Threads;

/// The exit status where memory ran out.
const NO_MEMORY: u8 = 70;

/// The options of `recover` that `run` reads, and behind them the two that it does not.
static NAMES: [&str; 8] = [
    "archives", "stripes", "blur", "robust", "open", "bounded", "columns", "parity",
];

/// How many of the names `run` reads.
const OF_RUN: usize = 6;

/// A recovery over archives of which some are made anew.
#[derive(Drop)]
pub(crate) struct Recovery {
    shape: Shape,
    words: Vec<String>,
}

/// The recovery that these words ask for. None where they ask for none with `--columns`, or where
/// `run` is to refuse them.
pub(crate) fn recovery_in(alloc: Global, words: &[String]) -> Result<Option<Recovery>, AllocError> {
    let [first, rest @ ..] = words else {
        return Ok(None);
    };
    if first.as_str() != "recover" {
        return Ok(None);
    }
    match read_options(alloc, NAMES.as_slice(), rest) {
        Ok(Some(options)) => recovery_of(alloc, &options),
        Ok(None) => Ok(None),
        Err(_) => Err(AllocError),
    }
}

fn recovery_of(alloc: Global, options: &Options<'_>) -> Result<Option<Recovery>, AllocError> {
    let Some(shape) = shape_of(options) else {
        return Ok(None);
    };
    let mut words = Vec::new(alloc);
    words.push(String::from_str(alloc, "recover")?)?;
    for name in NAMES.iter().take(OF_RUN) {
        if let Some(value) = options.value(name) {
            words.push(format!(in alloc; "--{name}")?)?;
            words.push(String::from_str(alloc, value)?)?;
        }
    }
    Ok(Some(Recovery { shape, words }))
}

// The shape of groups that the options name. One parity archive may be left out.
fn shape_of(options: &Options<'_>) -> Option<Shape> {
    let columns = number_within(options.value("columns")?, MOST_COLUMNS)?;
    let parity = match options.value("parity") {
        Some(text) => number_within(text, MOST_PARITY)?,
        None => 1,
    };
    Some(Shape { columns, parity })
}

fn number_within(text: &str, most: u32) -> Option<u32> {
    read_number(text.as_bytes(), most).filter(|number| *number > 0)
}

/// Reads the archives of the working folder, of which some are made anew, and answers the exit
/// status.
pub(crate) fn recover<X: Threads + Wait + Sync>(
    rt: &HostRuntime,
    turns: &X,
    recovery: Recovery,
) -> u8 {
    let Recovery { shape, words } = recovery;
    let (Ok(survey), Ok(tallies)) = (Survey::of(rt, &[]), no_tallies(rt, 0)) else {
        return NO_MEMORY;
    };
    let hidden = Vec::new(rt.alloc());
    let mut room = Remains::new(rt, "potshards", survey, Some(shape), tallies, hidden);
    run(
        turns,
        rt.alloc(),
        &words,
        // No random bytes are needed to read.
        [0; 32],
        &mut Input::new(rt),
        &mut Output::new(rt),
        &mut room,
        &mut DeskFile::new(rt),
        &NoGate,
    )
}
