//! A line on standard error about each second while archives are opened, where that is a terminal.

use std::io::IsTerminal;
use std::time::{Duration, Instant};

/// When the last line was written, or when there could have been a first one. None where standard
/// error is no terminal, or where the clock cannot be read.
#[derive(Drop)]
pub struct Progress {
    last: Option<Instant>,
}

impl Progress {
    /// No line was written yet.
    pub fn new(rt: &HostRuntime) -> Progress {
        let last = if rt.stderr().is_terminal() {
            Instant::now(rt).ok()
        } else {
            None
        };
        Progress { last }
    }

    /// Tells that the archive of a number is opened, where a second has passed. A line that cannot
    /// be written changes nothing.
    pub fn at(&mut self, rt: &HostRuntime, number: u32) {
        let Some(last) = self.last else {
            return;
        };
        let Ok(now) = Instant::now(rt) else {
            return;
        };
        if now.duration_since(last) >= Duration::from_secs(1) {
            self.last = Some(now);
            let _ = eprintln!(rt; "potshards: at archive {number}");
        }
    }
}
