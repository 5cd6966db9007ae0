//! The lines of stories.
ghost use Rattle.std.specs.Prelude.{◌<◌};

use pot_bytes::{Geometry, Rack};
use pot_group::Kind;
use pot_machine::Entry;

/// The number of a job that makes a call.
#[derive(Clone, Copy, PartialEq, Eq, Debug)]
pub struct Job {
    number: u32,
    ghost above: { 0 < number },
}

impl Job {
    /// The job of this number, where a call may have it.
    pub fn new(number: u32) -> Option<Job> {
        if number == 0 {
            return None;
        }
        Some(Job { number })
    }

    /// Its number.
    pub fn number(self) -> u32
        ensures { 0 < result }
    {
        self.number
    }
}

/// What is done to an archive from outside.
#[derive(Clone, Copy, PartialEq, Eq, Debug)]
pub enum Act {
    /// The slot has the block that repeats a byte.
    Holds { slot: u32, byte: u8 },
    /// Of the calls that come, this one fails.
    Fail { call: u32 },
    /// The slot has no block any more.
    Lose { slot: u32 },
    /// The same when, of the calls that come, this one begins.
    LoseAt { slot: u32, call: u32 },
}

/// A call of a group.
#[derive(Clone, Copy, PartialEq, Eq, Debug)]
pub enum Call {
    Open,
    Close,
    /// The block that repeats a byte.
    Put { job: Job, byte: u8 },
    Look { job: Job, stripe: u32, column: u8 },
    Sweep { job: Job, stripe: u32, column: u8 },
    Count { job: Job },
    Next { stripe: u32, column: u8, kind: Kind },
    Begin { job: Job, stripe: u32, column: u8 },
    Advance { job: Job, stripe: u32 },
    Mend { job: Job, stripe: u32, column: u8 },
    MoveBegin { job: Job, column: u8, archive: u32 },
    MoveStep { job: Job, column: u8 },
    Swap { job: Job, column: u8, archive: u32 },
    UseOf { archive: u32 },
    Trace { from: u32, to: u32 },
    /// Of a block that is put next, and of the parity block that it will make.
    Expect { byte: u8, parity: u8 },
    Logged,
}

/// A look from outside.
#[derive(Clone, Copy, PartialEq, Eq, Debug)]
pub enum Look {
    /// The slots and the cursor, as the last close handed them out.
    Table,
    /// The entries, as the last close handed them out.
    Log,
    /// The sums that an archive heard.
    Heard { archive: u32 },
    /// The blocks that an archive holds.
    Blocks { archive: u32 },
    /// How often archives failed.
    Faults,
}

/// How a group begins.
#[derive(Clone, Copy, PartialEq, Eq, Debug)]
pub struct Shape {
    /// The number of data columns.
    pub columns: u8,
    /// The number of parity columns.
    pub parity: u8,
    pub stripes: u32,
}

impl Shape {
    /// A rack of one such group.
    pub fn rack(self) -> Rack {
        Rack {
            groups: 1,
            columns: self.columns,
            parity: self.parity,
            stripes: self.stripes,
            geometry: Geometry {
                fragments: 2,
                need: 1,
                shards: 1,
                blur: 0,
            },
        }
    }
}

/// What a line says.
#[derive(Clone, Copy, PartialEq, Eq, Debug)]
pub enum Says {
    /// A comment, or nothing.
    Nothing,
    Title,
    Group(Shape),
    /// An entry that led to the table with which the group begins.
    Had(Entry),
    /// The story is told once more for each call that may fail.
    EachCallFails,
    /// Of the archive of this number.
    Outside(u32, Act),
    /// So many times.
    Calls(u32, Call),
    Look(Look),
}

/// A line with what it says.
#[derive(Clone, Copy, Debug)]
pub struct Line<'a> {
    pub text: &'a str,
    pub says: Says,
}

/// Where in a story a line stands.
#[derive(Clone, Copy, PartialEq, Eq, Debug)]
pub enum Part {
    /// Before the first title.
    Front,
    /// Behind a title.
    Titled,
    /// Behind the line of the group.
    Setting,
    /// Behind the first opening.
    Playing,
}

impl Part {
    /// The part in which the next line stands, if this one may stand here.
    pub fn after(self, says: &Says) -> Option<Part> {
        match (self, says) {
            (_, Says::Nothing) => Some(self),
            (_, Says::Title) => Some(Part::Titled),
            (Part::Titled, Says::Group(_)) => Some(Part::Setting),
            (Part::Setting, Says::Had(_) | Says::EachCallFails) => Some(Part::Setting),
            (Part::Setting | Part::Playing, Says::Calls(_, Call::Open)) => Some(Part::Playing),
            (Part::Setting | Part::Playing, Says::Outside(..) | Says::Calls(..) | Says::Look(_)) =>
                Some(self),
            _ => None,
        }
    }
}
