//! What came of the calls of a story, and how it is written.
use pot_bytes::{Block, Digest, Place};
use pot_group::{
    AdvanceFault, Advanced, BeginFault, Counts, HomeAt, LogFull, Looked, Mend, MoveFault, MoveStep,
    PutFault, Reached, Role, ShelfCause, Swept, Trace, Use,
};
use std::fmt;

/// What came of a call.
#[derive(Clone, Copy, PartialEq, Eq, Debug)]
pub enum Outcome {
    /// A word or two without a number.
    Plain(&'static str),
    /// An opening logged so many entries.
    Opened(u64),
    /// A number by itself.
    Number(u64),
    Placed(Place),
    /// The archive of this column failed.
    Faulted(u8),
    /// The byte that the block repeats, if it repeats one.
    Seen(Option<u8>),
    /// Of so many slots a sweep saw the blocks, of so many it saw that they are gone, and so far it
    /// came.
    Swept(Swept),
    Counted(Counts),
    Found(Place),
    /// A relay stands that rebuilds the slot of this column.
    Standing(u8),
    TwoGone(u8, u8),
    /// The digest that was wanted, and the one found.
    Odd(Digest, Digest),
    /// An archive of the group has this number.
    InUse(u32),
    /// So many slots were Live.
    Swapped(u32),
    Used(Use),
    Traced(Trace),
}

pub const LOG_FULL: Outcome = Outcome::Plain("log full");

pub const NO_GROUP: Outcome = Outcome::Plain("no group");

pub const NO_SLOT: Outcome = Outcome::Plain("no slot");

impl Outcome {
    /// The column whose archive failed, if one did.
    pub fn faulted(self) -> Option<u8> {
        match self {
            Outcome::Faulted(column) => Some(column),
            Outcome::Swept(
                Swept {
                    reached: Reached::Faulted { column },
                    ..
                },
            ) => Some(column),
            _ => None,
        }
    }

    pub fn of_put(answer: Result<Place, PutFault>) -> Outcome {
        match answer {
            Ok(place) => Outcome::Placed(place),
            Err(PutFault::Full) => Outcome::Plain("full"),
            Err(PutFault::Faulted { column }) => Outcome::Faulted(column),
            Err(PutFault::LogFull) => LOG_FULL,
        }
    }

    pub fn of_look(looked: Looked, block: &Block) -> Outcome {
        match looked {
            Looked::Seen => Outcome::Seen(repeated(block)),
            Looked::Gone => Outcome::Plain("gone"),
            Looked::Faulted { column } => Outcome::Faulted(column),
            Looked::LogFull => LOG_FULL,
        }
    }

    pub fn of_count(answer: Result<Counts, LogFull>) -> Outcome {
        match answer {
            Ok(counts) => Outcome::Counted(counts),
            Err(LogFull) => LOG_FULL,
        }
    }

    pub fn of_next(found: Option<Place>) -> Outcome {
        match found {
            Some(place) => Outcome::Found(place),
            None => Outcome::Plain("none"),
        }
    }

    pub fn of_begin(answer: Result<(), BeginFault>) -> Outcome {
        match answer {
            Ok(()) => Outcome::Plain("began"),
            Err(BeginFault::Whole) => Outcome::Plain("whole"),
            Err(BeginFault::Standing { column }) => Outcome::Standing(column),
            Err(BeginFault::TwoGone { first, second }) => Outcome::TwoGone(first, second),
            Err(BeginFault::Crowded) => Outcome::Plain("crowded"),
            Err(BeginFault::LogFull) => LOG_FULL,
        }
    }

    pub fn of_advance(answer: Result<Advanced, AdvanceFault>) -> Outcome {
        match answer {
            Ok(Advanced::Hopped) => Outcome::Plain("hopped"),
            Ok(Advanced::Mended) => Outcome::Plain("mended"),
            Ok(Advanced::Ended) => Outcome::Plain("ended"),
            Err(AdvanceFault::Idle) => Outcome::Plain("idle"),
            Err(AdvanceFault::Faulted { column }) => Outcome::Faulted(column),
            Err(AdvanceFault::Odd { wanted, found }) => Outcome::Odd(wanted, found),
            Err(AdvanceFault::LogFull) => LOG_FULL,
        }
    }

    pub fn of_mend(mend: Mend) -> Outcome {
        match mend {
            Mend::Whole => Outcome::Plain("whole"),
            Mend::Began => Outcome::Plain("began"),
            Mend::Extends => Outcome::Plain("went"),
            Mend::Mended => Outcome::Plain("mended"),
            Mend::Passed => Outcome::Plain("passed"),
            Mend::TwoGone { first, second } => Outcome::TwoGone(first, second),
            Mend::Odd { wanted, found } => Outcome::Odd(wanted, found),
            Mend::Faulted { column } => Outcome::Faulted(column),
            Mend::LogFull => LOG_FULL,
        }
    }

    /// Of an archive that was not taken.
    pub fn of_cause(cause: ShelfCause) -> Outcome {
        match cause {
            ShelfCause::InUse { number } => Outcome::InUse(number),
            ShelfCause::NoMemory => Outcome::Plain("no memory"),
            ShelfCause::LogFull => LOG_FULL,
        }
    }

    pub fn of_move(answer: Result<MoveStep, MoveFault>) -> Outcome {
        match answer {
            Ok(MoveStep::Copied) => Outcome::Plain("copied"),
            Ok(MoveStep::Passed) => Outcome::Plain("passed"),
            Ok(MoveStep::Ended) => Outcome::Plain("ended"),
            Err(MoveFault::Idle) => Outcome::Plain("idle"),
            Err(MoveFault::Faulted { column }) => Outcome::Faulted(column),
            Err(MoveFault::LogFull) => LOG_FULL,
        }
    }

    pub fn of_use(used: Option<Use>) -> Outcome {
        match used {
            Some(used) => Outcome::Used(used),
            None => Outcome::Plain("none"),
        }
    }
}

/// The byte that a block repeats, if it does.
pub fn repeated(block: &Block) -> Option<u8> {
    let bytes = block.bytes();
    let first = bytes[0];
    if bytes.iter().all(|byte| *byte == first) {
        Some(first)
    } else {
        None
    }
}

/// A byte that a block may repeat, as two hexadecimal digits.
#[derive(Clone, Copy)]
pub struct ByteText(pub Option<u8>);

impl fmt::Display for ByteText {
    fn fmt<W: fmt::Write>(&self, f: &mut fmt::Formatter<W>) -> fmt::Result {
        match self.0 {
            Some(byte) => write!(f, "{byte:02x}"),
            None => write!(f, "??"),
        }
    }
}

/// The first eight hexadecimal digits of a digest.
#[derive(Clone, Copy)]
pub struct DigestText(pub Digest);

impl fmt::Display for DigestText {
    fn fmt<W: fmt::Write>(&self, f: &mut fmt::Formatter<W>) -> fmt::Result {
        let [first, second, third, fourth, ..] = self.0.bytes;
        write!(f, "{first:02x}{second:02x}{third:02x}{fourth:02x}")
    }
}

impl fmt::Display for Outcome {
    fn fmt<W: fmt::Write>(&self, f: &mut fmt::Formatter<W>) -> fmt::Result {
        match self {
            Outcome::Plain(words) => write!(f, "{words}"),
            Outcome::Opened(entries) => write!(f, "{entries} logged"),
            Outcome::Number(number) => write!(f, "{number}"),
            Outcome::Placed(place) => write!(f, "placed {} {}", place.stripe, place.column),
            Outcome::Faulted(column) => write!(f, "faulted {column}"),
            Outcome::Seen(byte) => write!(f, "seen {}", ByteText(*byte)),
            Outcome::Swept(swept) => write_swept(swept, f),
            Outcome::Counted(counts) => write_counts(counts, f),
            Outcome::Found(place) => write!(f, "found {} {}", place.stripe, place.column),
            Outcome::Standing(column) => write!(f, "standing {column}"),
            Outcome::TwoGone(first, second) => write!(f, "two gone {first} {second}"),
            Outcome::Odd(wanted, found) => write!(
                f,
                "odd {} {}",
                DigestText(*wanted),
                DigestText(*found)
            ),
            Outcome::InUse(number) => write!(f, "in use {number}"),
            Outcome::Swapped(live) => write!(f, "swapped {live}"),
            Outcome::Used(used) => write_use(used, f),
            Outcome::Traced(trace) => write_trace(trace, f),
        }
    }
}

fn write_swept<W: fmt::Write>(swept: &Swept, f: &mut fmt::Formatter<W>) -> fmt::Result {
    write!(f, "swept {} {}", swept.seen, swept.gone)?;
    match swept.reached {
        Reached::End => write!(f, " at the end"),
        Reached::Slot { stripe, column } => write!(f, " to {stripe} {column}"),
        Reached::Faulted { column } => write!(f, ", faulted {column}"),
        Reached::LogFull => write!(f, ", log full"),
    }
}

fn write_counts<W: fmt::Write>(counts: &Counts, f: &mut fmt::Formatter<W>) -> fmt::Result {
    let Counts {
        live,
        lost,
        broken,
        stripe,
        column,
    } = *counts;
    write!(
        f,
        "live {live} lost {lost} broken {broken} cursor {stripe} {column}"
    )
}

fn write_use<W: fmt::Write>(used: &Use, f: &mut fmt::Formatter<W>) -> fmt::Result {
    let column = used.column;
    match used.role {
        Role::Home => write!(f, "home of {column}"),
        Role::Target => write!(f, "target of {column}"),
        Role::Retired => write!(f, "retired from {column}"),
    }
}

fn write_trace<W: fmt::Write>(trace: &Trace, f: &mut fmt::Formatter<W>) -> fmt::Result {
    match trace.home {
        Some(
            HomeAt {
                group: _,
                column,
                moving: Some(to),
            },
        ) => write!(f, "home of {column} moving to {to}")?,
        Some(
            HomeAt {
                group: _,
                column,
                moving: None,
            },
        ) => write!(f, "home of {column}")?,
        None => write!(f, "no home")?,
    }
    write!(f, "{}", if trace.taken { ", taken" } else { ", free" })
}
