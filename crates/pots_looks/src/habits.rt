//! When the vault was last checked and drilled, and when a copy of its desk was last made, in the
//! file `last-check` of its folder.
//!
//! A line of it is a word, `check`, `drill` or `copy`, the seconds since 1970, and the day, which
//! is there to be read by people. Other lines are passed over, and left out where it is written.

use crate::clock::now;
use pot_looks::{date_text, days_between};
use pots_vault::{Stop, Visit, put_file};
use serde_json::json;
use std::fs;
use std::str::from_utf8;

/// The file.
const FILE: &str = "last-check";

/// A file that has more bytes is not that of `pots`.
const LONGEST: u64 = 4096;

/// A look is old after so many days.
const OLD: u64 = 35;

/// What is remembered.
#[derive(Clone, Copy, PartialEq, Eq, Debug)]
pub enum Habit {
    Check,
    Drill,
    /// A copy of the desk, in another folder than that of the vault.
    Copy,
}

/// All of them, in the order of their lines.
const ALL: [Habit; 3] = [Habit::Check, Habit::Drill, Habit::Copy];

impl Habit {
    fn word(self) -> &'static str {
        match self {
            Habit::Check => "check",
            Habit::Drill => "drill",
            Habit::Copy => "copy",
        }
    }

    // What is to be done where the last time is long ago.
    fn advice(self) -> &'static str {
        match self {
            Habit::Check | Habit::Drill => "look once a month",
            Habit::Copy => "make a new copy of the desk with pots backup-desk",
        }
    }
}

/// Remembers that this was done now. Where that cannot be written it is said, and nothing else
/// changes.
pub fn remember(visit: &Visit, habit: Habit) -> Result<(), Stop> {
    let moment = now(&visit.rt);
    let mut text = String::new(visit.alloc());
    for other in ALL {
        let moment = if other == habit {
            Some(moment)
        } else {
            last(visit, other)?
        };
        append_line(visit, &mut text, other, moment)?;
    }
    let rt = &visit.rt;
    if put_file(rt, FILE, text.as_bytes(), true).is_err() {
        let _ = eprintln!(rt;
            "pots: last-check could not be written, so pots status does not tell of this: see that files can be made in this folder"
        );
    }
    Ok(())
}

fn append_line(
    visit: &Visit,
    text: &mut String,
    habit: Habit,
    moment: Option<u64>,
) -> Result<(), Stop> {
    if let Some(seconds) = moment {
        let word = habit.word();
        let date = date_text(visit.alloc(), seconds)?;
        text.push_str(format!(in visit.alloc(); "{word} {seconds} {date}\n")?.as_str())?;
    }
    Ok(())
}

// When this was last done, where that is known.
fn last(visit: &Visit, habit: Habit) -> Result<Option<u64>, Stop> {
    let rt = &visit.rt;
    match fs::metadata(rt, FILE) {
        Ok(found) if found.is_file() && found.len() <= LONGEST => {}
        _ => return Ok(None),
    }
    let Ok(bytes) = fs::read(rt, FILE) else {
        return Ok(None);
    };
    let mut moment = None;
    for line in from_utf8(&bytes).unwrap_or("").lines() {
        if let Some(seconds) = moment_in(line, habit) {
            moment = Some(seconds);
        }
    }
    Ok(moment)
}

// The moment that a line tells, where it is of this habit.
fn moment_in(line: &str, habit: Habit) -> Option<u64> {
    let mut words = line.split(' ');
    if words.next() != Some(habit.word()) {
        return None;
    }
    words.next()?.parse::<u64>().ok()
}

/// Lines of the days on which the vault was last checked and drilled, and a copy of its desk was
/// last made.
pub fn habit_lines(visit: &Visit) -> Result<String, Stop> {
    let mut lines = String::new(visit.alloc());
    for habit in ALL {
        let line = habit_line(visit, habit)?;
        lines.push_str(line.as_str())?;
    }
    Ok(lines)
}

// The line of the day on which this was last done.
fn habit_line(visit: &Visit, habit: Habit) -> Result<String, Stop> {
    let word = habit.word();
    let of = if habit == Habit::Copy {
        " of the desk"
    } else {
        ""
    };
    let moment = last(visit, habit)?;
    let date = date_or(visit, moment, "never, as far as is known")?;
    Ok(format!(in visit.alloc(); "last {word}{of}: {date}\n")?)
}

// The day of a moment, or these words where there is none.
fn date_or(visit: &Visit, moment: Option<u64>, words: &str) -> Result<String, Stop> {
    Ok(match moment {
        Some(seconds) => date_text(visit.alloc(), seconds)?,
        None => String::from_str(visit.alloc(), words)?,
    })
}

/// Tells when the vault was last checked and drilled, and when a copy of its desk was last made.
pub fn tell_habits(visit: &Visit) -> Result<(), Stop> {
    for habit in ALL {
        let moment = last(visit, habit)?;
        tell_habit(visit, habit, moment)?;
    }
    Ok(())
}

fn tell_habit(visit: &Visit, habit: Habit, moment: Option<u64>) -> Result<(), Stop> {
    let word = habit.word();
    let date = date_or(visit, moment, "not known")?;
    let date = date.as_str();
    if visit.json {
        let line = json!(in visit.alloc(); {"last": word, "date": date})?;
        let line = line.to_string(visit.alloc())?;
        return println!(visit; "{line}");
    }
    let ago = ago_text(visit, habit, moment)?;
    println!(visit; "last {word}: {date}{ago}")
}

// How long ago a moment was, and what to do where that is too long.
fn ago_text(visit: &Visit, habit: Habit, moment: Option<u64>) -> Result<String, Stop> {
    let Some(seconds) = moment else {
        return Ok(String::new(visit.alloc()));
    };
    let days = days_between(seconds, now(&visit.rt));
    if days <= OLD {
        return Ok(format!(in visit.alloc(); ", {days} days ago")?);
    }
    let advice = habit.advice();
    Ok(format!(in visit.alloc(); ", {days} days ago; {advice}")?)
}
