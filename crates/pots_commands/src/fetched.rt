//! Stored files that are fetched, by a session, or with --read-only over what is mounted.

use crate::program::{Program, Sessions};
use crate::session::hold_together;
use pot_bytes::Name;
use pot_script::{Command, Reply};
use pots_readings::read_files;
use pots_vault::{Stop, Visit};
use std::sync::Wait;
use std::thread::Threads;

/// What is replied to a fetch of each of these, in their order.
pub fn fetch_replies<X: Threads + Wait + Sync, P: Program>(
    sessions: &Sessions<'_, X, P>,
    visit: &mut Visit,
    names: &[Name],
) -> Result<Vec<Reply>, Stop> {
    if visit.read_only {
        return read_files(visit, names);
    }
    let mut commands = Vec::new(visit.alloc());
    for name in names {
        commands.push(Command::Fetch { name: *name })?;
    }
    hold_together(sessions, visit, commands)
}
