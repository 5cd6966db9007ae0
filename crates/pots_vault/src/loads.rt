//! How much a session takes.
//!
//! Each session opens every block of the archive, so a command holds as few of them as it can.

use pot_bytes::Name;
use pot_script::LONGEST_SCRIPT;
use std::alloc::{AllocError, Global};
use std::mem;

/// How many commands are worked side by side at most.
pub const MOST_TOGETHER: usize = 1024;

/// The most bytes of a session: of its script, but for three lines of it, or of what it fetches.
/// Both are held in memory.
const MOST_BYTES: u64 = 60_000_000;

// With the lines `together`, `end` and `quit` too a script is no longer than a session reads.
const _: () = prove!(MOST_BYTES + 64 <= LONGEST_SCRIPT as u64);

/// The most bytes of a script for a file, beside those of the file: `store`, a name of 64 bytes,
/// its length and two ends of lines.
const LINE: u64 = 81;

/// What a session has to do so far.
#[derive(Clone, Copy)]
pub struct Load {
    commands: usize,
    bytes: u64,
}

impl Load {
    /// A session that has nothing to do.
    pub fn nothing() -> Load {
        Load {
            commands: 0,
            bytes: 0,
        }
    }

    /// The bytes of its files.
    pub fn bytes(&self) -> u64 {
        self.bytes
    }

    /// Whether a file of so many bytes would be too much beside what is there. A session that has
    /// nothing to do takes any file.
    pub fn is_full(&self, bytes: u64) -> bool {
        let commands = self.commands.saturating_add(1);
        let lines = LINE.saturating_mul(commands as u64);
        let all = self.bytes.saturating_add(bytes).saturating_add(lines);
        self.commands > 0 && (commands > MOST_TOGETHER || all > MOST_BYTES)
    }

    /// One file more.
    pub fn add(&mut self, bytes: u64) {
        self.commands = self.commands.saturating_add(1);
        self.bytes = self.bytes.saturating_add(bytes);
    }
}

/// A stored file, or a part of one, that is to be fetched.
#[derive(Clone, Copy)]
pub struct Task {
    pub name: Name,
    pub bytes: u64,
    /// The place of the file that it is for among those of the fetch.
    pub file: usize,
}

/// The tasks of each session, in their order.
pub fn cut(alloc: Global, tasks: &[Task]) -> Result<Vec<Vec<Task>>, AllocError> {
    let mut sessions = Vec::new(alloc);
    let mut session = Vec::new(alloc);
    let mut load = Load::nothing();
    for task in tasks {
        if load.is_full(task.bytes) {
            sessions.push(mem::replace(&mut session, Vec::new(alloc)))?;
            load = Load::nothing();
        }
        load.add(task.bytes);
        session.push(*task)?;
    }
    if !session.is_empty() {
        sessions.push(session)?;
    }
    Ok(sessions)
}
