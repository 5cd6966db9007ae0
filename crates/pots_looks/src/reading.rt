//! The bytes of an archive's file, in large runs.

use pot_looks::SLOT;
use pots_vault::{Stop, Visit, archive_name, open_to_read};
use std::fs;
use std::fs::File;
use std::os::unix::fs::FileExt;

/// The bytes that are read at once: those of 1,024 slots.
const RUN: usize = 1024 * SLOT;

/// What the file of an archive gave.
#[derive(Drop)]
pub enum Given {
    /// Its bytes, as far as it was asked for. What could not be read is zeros, which are no block.
    Bytes(Vec<u8>),
    /// There is no such file, or its disk is not mounted.
    Away,
    /// It is there, and cannot be read at all: why.
    Shut(&'static str),
}

/// The bytes of the file of an archive, of so many slots at most.
pub fn bytes_of(visit: &Visit, number: u32, slots: u32) -> Result<Given, Stop> {
    let rt = &visit.rt;
    let name = archive_name(visit.alloc(), number)?;
    let length = match fs::metadata(rt, name.as_str()) {
        Ok(found) if !found.is_file() => return Ok(Given::Shut("is no file")),
        Ok(found) => found.len(),
        Err(_) => return Ok(Given::Away),
    };
    let Some(file) = open_to_read(rt, name.as_str()) else {
        return Ok(Given::Shut("could not be opened to be read"));
    };
    let most = u64::from(slots) * (SLOT as u64);
    let length = usize::try_from(length.min(most)).unwrap_or(0);
    let mut bytes = vec![in visit.alloc(); 0u8; length]?;
    read_runs(&file, &mut bytes);
    Ok(Given::Bytes(bytes))
}

// Reads a file run by run.
fn read_runs(file: &File, bytes: &mut [u8]) {
    let mut start = 0u64;
    for run in bytes.chunks_mut(RUN) {
        if file.read_exact_at(run, start).is_err() {
            read_slots(file, start, run);
        }
        start = start.saturating_add(RUN as u64);
    }
}

// Reads a run slot by slot, as of a disk that is dying. A slot that cannot be read is zeros.
fn read_slots(file: &File, start: u64, run: &mut [u8]) {
    let mut at = start;
    for slot in run.chunks_mut(SLOT) {
        if file.read_exact_at(slot, at).is_err() {
            slot.fill(0);
        }
        at = at.saturating_add(SLOT as u64);
    }
}
