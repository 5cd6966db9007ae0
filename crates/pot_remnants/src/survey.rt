//! How the files of archives are found.

use std::alloc::{AllocError, Global};
use std::fs;
use std::fs::{File, Metadata};
use std::io::ErrorKind;

/// One more than the greatest number of an archive.
pub const MOST_ARCHIVES: u32 = 512;

/// The bytes of a slot.
pub const SLOT: u64 = 1025;

/// How the file of an archive is found.
#[derive(Clone, Copy, Debug, PartialEq, Eq)]
pub enum State {
    /// It can be read, and has so many bytes.
    There { length: u64 },
    Missing,
    Empty,
    /// It cannot be opened, or is no file.
    Closed,
    /// It was asked to be left out.
    LeftOut,
}

impl State {
    /// Whether its blocks can be read.
    pub fn is_there(self) -> bool {
        matches!(self, State::There { .. })
    }

    /// Whether it is known which blocks it holds, of which an empty one has none.
    pub fn is_known(self) -> bool {
        matches!(self, State::There { .. } | State::Empty)
    }

    /// Why its blocks cannot be read, in words.
    pub fn reason(self) -> &'static str {
        match self {
            State::There { .. } => "is there",
            State::Missing => "is not there",
            State::Empty => "is empty",
            State::Closed => "cannot be read",
            State::LeftOut => "is left out",
        }
    }
}

/// How the file of each archive is found, by number.
#[derive(Drop)]
pub struct Survey {
    states: Vec<State>,
}

impl Survey {
    /// Looks at the files of all numbers, but for those that are left out.
    pub fn of(rt: &HostRuntime, without: &[u32]) -> Result<Survey, AllocError> {
        let mut states = Vec::new(rt.alloc());
        for number in 0..MOST_ARCHIVES {
            states.push(state_of(rt, without, number)?)?;
        }
        Ok(Survey { states })
    }

    /// How the file of this number is found.
    pub fn state(&self, number: u32) -> State {
        match self.states.get(number as usize) {
            Some(state) => *state,
            None => State::Missing,
        }
    }

    /// The numbers below a bound of which no block can be read, each with the reason.
    pub fn gone(&self, alloc: Global, bound: u32) -> Result<Vec<(u32, State)>, AllocError> {
        let mut gone = Vec::new(alloc);
        for number in 0..bound {
            let state = self.state(number);
            if !state.is_there() {
                gone.push((number, state))?;
            }
        }
        Ok(gone)
    }

    /// One more than the greatest number that has a file.
    pub fn count(&self) -> u32 {
        let mut count = 0;
        for number in 0..MOST_ARCHIVES {
            if self.state(number) != State::Missing {
                count = number.saturating_add(1);
            }
        }
        count
    }

    /// The length of the longest file.
    pub fn longest(&self) -> u64 {
        let mut longest = 0;
        for state in self.states.iter() {
            if let State::There { length } = *state {
                longest = longest.max(length);
            }
        }
        longest
    }
}

fn state_of(rt: &HostRuntime, without: &[u32], number: u32) -> Result<State, AllocError> {
    let name = format!(in rt.alloc(); "archive-{number}")?;
    let name = name.as_str();
    Ok(match fs::metadata(rt, name) {
        Ok(_) if without.contains(&number) => State::LeftOut,
        Ok(file) => state_by(rt, name, &file),
        Err(e) if e.kind() == ErrorKind::NotFound => State::Missing,
        Err(_) => State::Closed,
    })
}

fn state_by(rt: &HostRuntime, name: &str, file: &Metadata) -> State {
    if !file.is_file() || fs::open(rt, name).is_err() {
        State::Closed
    } else if file.len() == 0 {
        State::Empty
    } else {
        State::There { length: file.len() }
    }
}

/// The file of an archive that is there, opened to be read alone.
pub fn open_archive(rt: &HostRuntime, number: u32) -> Option<File> {
    let name = format!(in rt.alloc(); "archive-{number}").ok()?;
    fs::open(rt, name.as_str()).ok()
}
