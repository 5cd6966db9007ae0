//! The names of lists and packs in a vault: `NAME.20260131t235959z.mtree`, and `pack-` with the
//! first 40 hexadecimal digits of the pack's digest.

use hex::encode_to_slice;
use pot_bytes::{Digest, Name};
use std::alloc::{AllocError, Global};
use std::str::from_utf8;

/// What the name of a list ends with.
const END: &str = ".mtree";

/// How many bytes a date has in the name of a list.
const STAMP: usize = 16;

/// The name of a list, read.
#[derive(Clone, Copy)]
pub struct Snapshot {
    /// The whole name.
    pub list: Name,
    stem: usize,
}

impl Snapshot {
    /// The snapshot of a list of this name. None where it is the name of no list.
    pub fn read(list: Name) -> Option<Snapshot> {
        let text = from_utf8(list.bytes()).ok()?.strip_suffix(END)?;
        let stem = text.len().checked_sub(STAMP + 1)?;
        let behind = text.get(stem..)?.strip_prefix(".")?;
        if stem == 0 || !is_stamp(behind.as_bytes()) {
            return None;
        }
        Some(Snapshot { list, stem })
    }

    /// The name that it was stored under.
    pub fn name(&self) -> &str {
        part_of(&self.list, 0, self.stem)
    }

    /// Its date.
    pub fn stamp(&self) -> &str {
        let start = self.stem.saturating_add(1);
        part_of(&self.list, start, start.saturating_add(STAMP))
    }

    /// Whether it was stored at this date or before. A date may leave its end out: then it means
    /// all of that day, hour or minute.
    pub fn is_at(&self, date: &str) -> bool {
        let stamp = self.stamp().as_bytes();
        let count = date.len().min(stamp.len());
        stamp.get(..count).unwrap_or(stamp) <= date.as_bytes()
    }
}

fn part_of(name: &Name, from: usize, to: usize) -> &str {
    let bytes = name.bytes().get(from..to).unwrap_or(b"");
    from_utf8(bytes).unwrap_or("")
}

// Whether bytes look as a date does: digits, with a `t` and a `z` in their places.
fn is_stamp(bytes: &[u8]) -> bool {
    bytes.len() == STAMP
        && bytes.iter().enumerate().all(|(place, byte)| match place {
            8 => *byte == b't',
            15 => *byte == b'z',
            _ => byte.is_ascii_digit(),
        })
}

/// The name of the list of a snapshot of this date. None where it would be no name.
pub fn list_name(alloc: Global, name: &str, stamp: &str) -> Result<Option<Name>, AllocError> {
    let text = format!(in alloc; "{name}.{stamp}{END}")?;
    let name = Name::read(text.as_bytes());
    Ok(name.filter(|name| Snapshot::read(*name).is_some()))
}

/// The name of a pack of this digest.
pub fn pack_name(alloc: Global, digest: &Digest) -> Result<Option<Name>, AllocError> {
    let mut digits = [0u8; 64];
    if encode_to_slice(digest.bytes, &mut digits).is_err() {
        return Ok(None);
    }
    let mut text = Vec::from_slice(alloc, b"pack-")?;
    text.extend_from_slice(digits.get(..40).unwrap_or(b""))?;
    Ok(Name::read(&text))
}

/// Whether this is the name of a pack.
pub fn is_pack(name: &Name) -> bool {
    match name.bytes().strip_prefix(b"pack-") {
        Some(digits) => digits.len() == 40 && digits.iter().all(|b| b.is_ascii_hexdigit()),
        None => false,
    }
}
