//! Times the loops that touch every byte of a file, the calls of a group, and those of a session,
//! over archives in memory.
//!
//! The argument says how many megabytes of rows each loop goes over, over how many groups the calls
//! of a group run, how many files the sessions store, ten at most, and how many a batch stores, 64
//! at most: 1 without it. To standard error goes how fast each was; to standard output a checksum
//! of what was computed, the same at each run. It is no part of the archive.
#![tactic(auto)]

mod batches;
mod groups;
mod plain;
mod report;
mod rows;
mod sessions;
mod timing;

use std::{env, io};

fn main(rt: HostRuntime) -> io::Result<()> {
    let argument: u16 = match env::args(&rt)?.nth(1) {
        Some(word) => word.parse().unwrap_or(1),
        None => 1,
    };
    let rows = timing::time_loops(&rt, rt.alloc(), argument)?;
    timing::time_groups(&rt, rt.alloc(), argument, rows.blocks())?;
    timing::time_sessions(&rt, rt.alloc(), argument)?;
    timing::time_batches(&rt, rt.alloc(), argument)
}
