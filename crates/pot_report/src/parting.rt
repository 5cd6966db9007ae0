//! The list of parts of a file that is longer than a session stores: the last thing that is stored
//! of it.
//!
//! It is `parts COUNT LENGTH DIGEST NAME` and a line `part DIGEST` for each part, in order. It
//! stands under the name of part 0. With it a file is joined from its parts in whatever order these
//! are found.

use crate::texts::{digest_text, name_text};
use pot_bytes::{Digest, Name, digest_of};
use pot_client::{count_parts, part, read_digest};
use std::alloc::{AllocError, Global};
use std::str::from_utf8;

/// The digests of the parts of a file, in order.
pub type PartList = Vec<Digest>;

/// What is kept of a file beside its parts.
#[derive(Drop)]
pub struct Manifest {
    pub name: Name,
    pub length: u64,
    pub digest: Digest,
    pub parts: PartList,
}

impl Manifest {
    /// The list of parts of this file.
    pub fn of(alloc: Global, name: Name, file: &[u8]) -> Result<Manifest, AllocError> {
        let mut parts = Vec::new(alloc);
        for number in 0..count_parts(file.len()) {
            parts.push(digest_of(part(file, number)))?;
        }
        Ok(Manifest {
            name,
            length: file.len() as u64,
            digest: digest_of(file),
            parts,
        })
    }

    /// The list as it is stored.
    pub fn text(&self, alloc: Global) -> Result<String, AllocError> {
        let count = self.parts.len();
        let length = self.length;
        let digest = digest_text(alloc, &self.digest)?;
        let name = name_text(&self.name);
        let mut text = format!(in alloc; "parts {count} {length} {digest} {name}\n")?;
        for part in self.parts.iter() {
            text.push_str("part ")?;
            text.push_str(digest_text(alloc, part)?.as_str())?;
            text.push_str("\n")?;
        }
        Ok(text)
    }

    /// The list that these bytes are. None where they are none.
    pub fn read(alloc: Global, bytes: &[u8]) -> Result<Option<Manifest>, AllocError> {
        let Ok(text) = from_utf8(bytes) else {
            return Ok(None);
        };
        let mut lines = text.lines();
        let Some(head) = lines.next().and_then(read_head) else {
            return Ok(None);
        };
        let mut parts = Vec::new(alloc);
        for line in lines {
            let Some(digest) = read_part_line(line) else {
                return Ok(None);
            };
            parts.push(digest)?;
        }
        Ok(head.with(parts))
    }
}

// The first line of a list.
#[derive(Drop)]
struct Head {
    count: usize,
    length: u64,
    digest: Digest,
    name: Name,
}

impl Head {
    // The list with these parts, where they are as many as the line says.
    fn with(self, parts: PartList) -> Option<Manifest> {
        if parts.len() != self.count {
            return None;
        }
        Some(Manifest {
            name: self.name,
            length: self.length,
            digest: self.digest,
            parts,
        })
    }
}

fn read_head(line: &str) -> Option<Head> {
    let mut words = line.split(' ');
    if words.next()? != "parts" {
        return None;
    }
    let count = words.next()?.parse::<usize>().ok()?;
    let length = words.next()?.parse::<u64>().ok()?;
    let digest = read_digest(words.next()?.as_bytes())?;
    let name = Name::read(words.next()?.as_bytes())?;
    if words.next().is_some() {
        return None;
    }
    Some(Head {
        count,
        length,
        digest,
        name,
    })
}

// The digest of a part, by its line.
fn read_part_line(line: &str) -> Option<Digest> {
    read_digest(line.strip_prefix("part ")?.as_bytes())
}
