//! What is told of an archive on standard error, by its name and the path to which that leads.

use std::fmt::Display;
use std::{fs, io};

/// Tells of an archive. A line that cannot be written changes nothing of the session.
pub fn tell<D: Display + Drop>(rt: &HostRuntime, name: &str, what: D) {
    match fs::read_link(rt, name) {
        Ok(path) => {
            let path = path.as_str();
            let _ = eprintln!(rt; "potshards: {name} at {path} {what}");
        }
        Err(_) => {
            let _ = eprintln!(rt; "potshards: {name} {what}");
        }
    }
}

/// Who tells of one archive that its calls fail: of the first read or write, and of a sync.
#[derive(Drop)]
pub struct Voice {
    rt: HostRuntime,
    number: u32,
    has_told: bool,
}

impl Voice {
    /// It has told nothing yet of the archive of this number.
    pub fn new(rt: &HostRuntime, number: u32) -> Voice {
        Voice {
            rt: *rt,
            number,
            has_told: false,
        }
    }

    /// Tells what could not be done, and why, where nothing was told yet.
    pub fn tell_first(&mut self, what: &str, why: &io::Error) {
        if !self.has_told {
            self.has_told = true;
            self.tell(what, why);
        }
    }

    /// Tells what could not be done, and why.
    pub fn tell(&self, what: &str, why: &io::Error) {
        let number = self.number;
        if let Ok(name) = format!(in self.rt.alloc(); "archive-{number}") {
            if let Ok(line) = format!(in self.rt.alloc(); "could not be {what}: {why}") {
                tell(&self.rt, name.as_str(), line.as_str());
            }
        }
    }
}
