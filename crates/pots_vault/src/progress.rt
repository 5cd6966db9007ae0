//! How far a long command is, on standard error where that is a terminal.

use pot_report::Size;
use std::io::IsTerminal;
use std::time::Instant;

/// How many bytes of all are done, since when.
#[derive(Drop)]
pub struct Progress {
    began: Option<Instant>,
    done: u64,
    all: u64,
}

impl Progress {
    /// Nothing is done yet of so many bytes.
    pub fn begin(rt: &HostRuntime, all: u64) -> Progress {
        let began = if rt.stderr().is_terminal() {
            Instant::now(rt).ok()
        } else {
            None
        };
        Progress {
            began,
            done: 0,
            all,
        }
    }

    /// So many bytes more are done. A line that cannot be written changes nothing.
    pub fn add(&mut self, rt: &HostRuntime, bytes: u64) {
        self.done = self.done.saturating_add(bytes);
        let Some(began) = self.began else {
            return;
        };
        let Ok(now) = Instant::now(rt) else {
            return;
        };
        let millis = now.saturating_duration_since(began).as_millis();
        let millis = u64::try_from(millis).unwrap_or(u64::MAX).max(1);
        let speed = self.done.saturating_mul(1000) / millis;
        let left = self.all.saturating_sub(self.done) / speed.max(1);
        let done = Size(self.done);
        let all = Size(self.all);
        let speed = Size(speed);
        let _ = eprintln!(rt; "pots: {done} of {all}, {speed}/s, {left} s left");
    }
}
