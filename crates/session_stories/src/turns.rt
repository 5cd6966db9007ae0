//! What a line `each` lets happen in turn.
use crate::fault::Fault;
use crate::words::{number_of, numbers_of};
use std::alloc::Global;

/// What happens, once with each number.
#[derive(Clone, Copy, PartialEq, Eq, Debug)]
pub enum Event {
    SourceFails,
    SinkFails,
    DeskFails,
    RoomFails,
    ArchiveFails(u32),
    FuseIsLaid,
    ImageIsCut,
    ArchivesAreEmptied,
}

/// The most archives of which each set is emptied.
const MOST_IN_SETS: usize = 16;

/// How many calls fail of an object that stops: more than a story makes of it.
pub const ALL_LATER: u32 = 100;

/// What happens in turn, and the numbers with which it does.
#[derive(Drop)]
pub struct Turns {
    pub event: Event,
    /// How many calls fail, where calls of an object do.
    pub calls: u32,
    /// The first and the last number; of sets the fewest archives and the most.
    pub first: u32,
    pub last: u32,
    /// The archives of which each set is emptied.
    pub archives: Vec<u32>,
}

/// The event of some words behind `each`, and the numbers behind it.
fn event_of(words: &str) -> Result<(Event, &str), Fault> {
    let Some((word, rest)) = words.split_once(' ') else {
        return Err(Fault::NoStep);
    };
    match word {
        "source" => Ok((Event::SourceFails, rest)),
        "sink" => Ok((Event::SinkFails, rest)),
        "desk" => Ok((Event::DeskFails, rest)),
        "room" => Ok((Event::RoomFails, rest)),
        "fuse" => Ok((Event::FuseIsLaid, rest)),
        "cut" => Ok((Event::ImageIsCut, rest)),
        "set" => Ok((Event::ArchivesAreEmptied, rest)),
        "archive" => match rest.split_once(' ') {
            Some((archive, rest)) => Ok((Event::ArchiveFails(number_of(archive)?), rest)),
            None => Err(Fault::NoStep),
        },
        _ => Err(Fault::NoStep),
    }
}

/// Whether it is calls of an object that fail.
fn is_failing(event: Event) -> bool {
    !matches!(
        event,
        Event::FuseIsLaid | Event::ImageIsCut | Event::ArchivesAreEmptied
    )
}

/// The event of some words behind `each`, how many calls fail, and the numbers behind it.
fn lasting_event_of(words: &str) -> Result<(Event, u32, &str), Fault> {
    let Some(stopped) = words.strip_prefix("stop ") else {
        let (event, rest) = event_of(words)?;
        return Ok((event, 1, rest));
    };
    let (event, rest) = event_of(stopped)?;
    if is_failing(event) {
        Ok((event, ALL_LATER, rest))
    } else {
        Err(Fault::NoStep)
    }
}

/// The turns that the words behind `each` say.
pub fn turns_of(alloc: Global, words: &str) -> Result<Turns, Fault> {
    let (event, calls, rest) = lasting_event_of(words)?;
    let numbers = numbers_of(alloc, rest)?;
    let [first, last, archives @ ..] = numbers.as_slice() else {
        return Err(Fault::NoStep);
    };
    if MOST_IN_SETS < archives.len()
        || archives.is_empty() == (event == Event::ArchivesAreEmptied)
    {
        return Err(Fault::NoStep);
    }
    Ok(Turns {
        event,
        calls,
        first: *first,
        last: *last,
        archives: archives.to_vec(alloc)?,
    })
}

impl Turns {
    /// The archives of the set of this number.
    pub fn set(&self, alloc: Global, number: u32) -> Result<Vec<u32>, Fault> {
        let mut set = Vec::new(alloc);
        let mut bits = number;
        for archive in &self.archives {
            if bits % 2 == 1 {
                set.push(*archive)?;
            }
            bits /= 2;
        }
        Ok(set)
    }

    /// How many sets of the archives there are.
    fn sets(&self) -> u32 {
        let mut sets: u32 = 1;
        for _ in &self.archives {
            sets = sets.saturating_mul(2);
        }
        sets
    }

    /// All numbers, ascending.
    pub fn numbers(&self, alloc: Global) -> Result<Vec<u32>, Fault> {
        let mut numbers = Vec::new(alloc);
        if self.event != Event::ArchivesAreEmptied {
            for number in self.first..=self.last {
                numbers.push(number)?;
            }
            return Ok(numbers);
        }
        for number in 0..self.sets() {
            let count = number.count_ones();
            if self.first <= count && count <= self.last {
                numbers.push(number)?;
            }
        }
        Ok(numbers)
    }

    /// What a turn is called.
    pub fn name(&self, alloc: Global, number: u32) -> Result<String, Fault> {
        let name = self.number_name(alloc, number)?;
        let stop = if self.calls == 1 { "" } else { "stop " };
        Ok(match self.event {
            Event::SourceFails => format!(in alloc; "{stop}source {name}")?,
            Event::SinkFails => format!(in alloc; "{stop}sink {name}")?,
            Event::DeskFails => format!(in alloc; "{stop}desk {name}")?,
            Event::RoomFails => format!(in alloc; "{stop}room {name}")?,
            Event::ArchiveFails(archive) => format!(in alloc; "{stop}archive {archive} {name}")?,
            Event::FuseIsLaid => format!(in alloc; "fuse {name}")?,
            Event::ImageIsCut => format!(in alloc; "cut {name}")?,
            Event::ArchivesAreEmptied => format!(in alloc; "set {name}")?,
        })
    }

    /// What the number of a turn is called.
    pub fn number_name(&self, alloc: Global, number: u32) -> Result<String, Fault> {
        if self.event != Event::ArchivesAreEmptied {
            return Ok(format!(in alloc; "{number}")?);
        }
        let mut text = String::new(alloc);
        for archive in &self.set(alloc, number)? {
            let dot = if text.is_empty() { "" } else { "." };
            text.push_str(&format!(in alloc; "{dot}{archive}")?)?;
        }
        if text.is_empty() {
            text.push('-')?;
        }
        Ok(text)
    }
}
