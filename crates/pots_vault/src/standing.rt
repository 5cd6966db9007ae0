//! How the desk of a rack stands: what tells its image from each other one. It is read from the
//! desk's file alone, without a lock, and without the image.

use crate::new_file::open_to_read;
use pot_bytes::{Digest, read_be64};
use std::fs::File;
use std::os::unix::fs::FileExt;
use std::{fs, io};

/// The bytes between the beginnings of the two slots of a desk.
const BETWEEN: u64 = 1 << 30;

/// The place of the first slot.
const FIRST: u64 = 4096;

/// The length of the longest image.
const LONGEST: u64 = BETWEEN - FIRST;

/// How a desk stands. An image ends with the digest of all its bytes before, so two images that
/// stand alike are the same, but for damage.
#[derive(Clone, Copy, Debug, PartialEq, Eq)]
pub struct DeskStanding {
    /// Each image that is put in the place of another has a greater one.
    pub generation: u64,
    /// The length of the image, in bytes.
    pub length: u64,
    /// The last 32 bytes of the image.
    pub digest: Digest,
}

/// A slot that is open.
#[derive(Clone, Copy)]
struct OpenSlot {
    start: u64,
    generation: u64,
    length: u64,
}

/// How the desk in the file of this path stands. None where that cannot be told: there is no such
/// file, it has no image, or it cannot be read.
pub fn desk_standing(rt: &HostRuntime, path: &str) -> Option<DeskStanding> {
    if !fs::metadata(rt, path).ok()?.is_file() {
        return None;
    }
    let file = open_to_read(rt, path)?;
    let slot = standing_slot(&file).ok()??;
    let end = slot.length.checked_sub(32)?.saturating_add(16);
    let mut bytes = [0u8; 32];
    file.read_exact_at(&mut bytes, slot.start.saturating_add(end))
        .ok()?;
    Some(DeskStanding {
        generation: slot.generation,
        length: slot.length,
        digest: Digest { bytes },
    })
}

// The slot whose image stands: of two that are open that of the greater generation, and the first
// where they are equal.
fn standing_slot(file: &File) -> io::Result<Option<OpenSlot>> {
    let mut gates = [0u8; 2];
    file.read_exact_at(&mut gates, 0)?;
    let first = open_slot(file, gates[0], FIRST)?;
    let second = open_slot(file, gates[1], FIRST + BETWEEN)?;
    Ok(match (first, second) {
        (Some(first), Some(second)) if first.generation < second.generation => Some(second),
        (Some(first), _) => Some(first),
        (None, second) => second,
    })
}

// The slot that starts there, where its gate is open and its image is no longer than a slot.
fn open_slot(file: &File, gate: u8, start: u64) -> io::Result<Option<OpenSlot>> {
    if gate != 1 {
        return Ok(None);
    }
    let mut header = [0u8; 16];
    file.read_exact_at(&mut header, start)?;
    let length = read_be64(&header, 8);
    if length > LONGEST {
        return Ok(None);
    }
    Ok(Some(OpenSlot {
        start,
        generation: read_be64(&header, 0),
        length,
    }))
}
