//! Why a command ends early.

use pot_bytes::NoMemory;
use std::alloc::{AllocError, AllocFailed};

/// The exit status where memory ran out.
const NO_MEMORY: u8 = 70;

/// The exit status where standard output could not be written.
const SINK_FAULT: u8 = 5;

/// The exit status where nobody reads standard output any more, and nothing else went wrong: that
/// of a program which the system's signal for it, number 13, has ended.
pub const UNREAD: u8 = 141;

/// Why a command ended early.
#[derive(Debug, Drop)]
pub enum Stop {
    NoMemory,
    /// Standard output could not be written.
    Output,
    /// What failed was said on standard error, and this is the exit status.
    Said(u8),
}

impl Stop {
    /// The exit status, where the line that has not been said yet is said first.
    pub fn status(self, rt: &HostRuntime) -> u8 {
        match self {
            Stop::NoMemory => say(
                rt,
                NO_MEMORY,
                "memory ran out: give it more, and give the command once more",
            ),
            Stop::Output => say(
                rt,
                SINK_FAULT,
                "standard output could not be written: give it an output that is open and has room",
            ),
            Stop::Said(status) => status,
        }
    }
}

// Says a line on standard error. One that cannot be written changes nothing.
fn say(rt: &HostRuntime, status: u8, line: &str) -> u8 {
    let _ = eprintln!(rt; "pots: {line}");
    status
}

/// Says what failed and what to do next, in one line.
pub fn refuse(rt: &HostRuntime, status: u8, line: &str) -> Stop {
    Stop::Said(say(rt, status, line))
}

impl From<NoMemory> for Stop {
    fn from(_: NoMemory) -> Stop {
        Stop::NoMemory
    }
}

impl From<AllocError> for Stop {
    fn from(_: AllocError) -> Stop {
        Stop::NoMemory
    }
}

impl<T: Drop> From<AllocFailed<T>> for Stop {
    fn from(_: AllocFailed<T>) -> Stop {
        Stop::NoMemory
    }
}
