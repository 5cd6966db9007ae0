//! Files that were found, and the lists of parts among them.

use pot_bytes::{Digest, digest_of};
use pot_client::PART_SIZE;
use pot_report::{Found, Manifest};
use pots_vault::Stop;
use std::alloc::Global;

/// A file that was found, with its digest.
#[derive(Drop)]
pub(crate) struct Piece {
    pub(crate) digest: Digest,
    pub(crate) found: Found,
    pub(crate) used: bool,
}

impl Piece {
    pub(crate) fn length(&self) -> u64 {
        match &self.found.bytes {
            Some(bytes) => bytes.len() as u64,
            None => 0,
        }
    }
}

/// Why the parts of a list are not joined. Parts count from 1.
#[derive(Clone, Copy)]
pub(crate) enum Unjoined {
    Missing { part: usize },
    /// It was found, and not as often as the list names it.
    Repeated { part: usize },
    /// They do not have the lengths or the digest of the list.
    Odd,
    /// They are parts of other files too, and gave as much already as was found.
    Spent,
}

/// How many bytes were found.
pub(crate) fn all_bytes(pieces: &[Piece]) -> u64 {
    let mut all = 0u64;
    for piece in pieces.iter() {
        all = all.saturating_add(piece.length());
    }
    all
}

/// The files that were found, each with its digest.
pub(crate) fn with_digests(alloc: Global, found: Vec<Found>) -> Result<Vec<Piece>, Stop> {
    let mut pieces = Vec::new(alloc);
    for found in found {
        let digest = match &found.bytes {
            Some(bytes) => digest_of(bytes),
            None => digest_of(found.id.as_bytes()),
        };
        pieces.push(Piece {
            digest,
            found,
            used: false,
        })?;
    }
    Ok(pieces)
}

/// The lists of parts among the files, each with its own digest. One that was split anew is found
/// once for each split, and counts once.
pub(crate) fn lists_in(alloc: Global, pieces: &[Piece]) -> Result<Vec<(Digest, Manifest)>, Stop> {
    let mut lists: Vec<(Digest, Manifest)> = Vec::new(alloc);
    for piece in pieces.iter() {
        let Some(bytes) = &piece.found.bytes else {
            continue;
        };
        let Some(list) = Manifest::read(alloc, bytes)? else {
            continue;
        };
        if !lists.iter().any(|(own, _)| *own == piece.digest) {
            lists.push((piece.digest, list))?;
        }
    }
    Ok(lists)
}

/// The places of the parts of a list among what was found, in order, each at most once.
pub(crate) fn parts_of(
    alloc: Global,
    list: &Manifest,
    pieces: &[Piece],
) -> Result<Result<Vec<usize>, Unjoined>, Stop> {
    let mut taken = Vec::new(alloc);
    for _ in pieces.iter() {
        taken.push(false)?;
    }
    let mut places = Vec::new(alloc);
    for (before, digest) in list.parts.iter().enumerate() {
        let part = before.saturating_add(1);
        match place_of(pieces, &taken, digest) {
            Place::Free(place) => {
                if let Some(mark) = taken.get_mut(place) {
                    *mark = true;
                }
                places.push(place)?;
            }
            Place::Taken => return Ok(Err(Unjoined::Repeated { part })),
            Place::Nowhere => return Ok(Err(Unjoined::Missing { part })),
        }
    }
    Ok(Ok(places))
}

/// Where a part is among what was found.
#[derive(Clone, Copy)]
enum Place {
    Free(usize),
    Taken,
    Nowhere,
}

// Where there is a file with this digest that is not taken.
fn place_of(pieces: &[Piece], taken: &[bool], digest: &Digest) -> Place {
    let mut found = Place::Nowhere;
    for (place, (piece, taken)) in pieces.iter().zip(taken.iter()).enumerate() {
        if piece.digest == *digest && piece.found.bytes.is_some() {
            if !*taken {
                return Place::Free(place);
            }
            found = Place::Taken;
        }
    }
    found
}

/// The bytes of the files at these places, one after another, where they are those of the list.
pub(crate) fn joined(
    alloc: Global,
    list: &Manifest,
    pieces: &[Piece],
    places: &[usize],
) -> Result<Option<Vec<u8>>, Stop> {
    let mut whole = Vec::new(alloc);
    if !fit(list, pieces, places) {
        return Ok(None);
    }
    for place in places.iter() {
        if let Some(bytes) = bytes_at(pieces, *place) {
            whole.extend_from_slice(bytes)?;
        }
    }
    if digest_of(&whole) == list.digest {
        Ok(Some(whole))
    } else {
        Ok(None)
    }
}

// Whether the parts have the lengths of a file's that is so long: all but the last are as long as a
// part may be, and only a file of none has a part of none.
fn fit(list: &Manifest, pieces: &[Piece], places: &[usize]) -> bool {
    if list.length == 0 {
        return match places {
            [place] => bytes_at(pieces, *place).is_some_and(|bytes| bytes.is_empty()),
            _ => false,
        };
    }
    let mut left = list.length;
    for place in places.iter() {
        let length = match pieces.get(*place) {
            Some(piece) => piece.length(),
            None => 0,
        };
        if length == 0 || length != left.min(PART_SIZE as u64) {
            return false;
        }
        left = left.saturating_sub(length);
    }
    left == 0
}

fn bytes_at(pieces: &[Piece], place: usize) -> Option<&[u8]> {
    match &pieces.get(place)?.found.bytes {
        Some(bytes) => Some(bytes),
        None => None,
    }
}

/// How many bytes of these are parts of another file that was joined.
pub(crate) fn used_bytes(pieces: &[Piece], places: &[usize]) -> u64 {
    let mut used = 0u64;
    for place in places.iter() {
        if let Some(piece) = pieces.get(*place) {
            if piece.used {
                used = used.saturating_add(piece.length());
            }
        }
    }
    used
}

/// Marks the parts and the list of a file that was joined. A part that was split anew is found once
/// for each split.
pub(crate) fn use_parts(list: &Manifest, own: &Digest, pieces: &mut [Piece]) {
    for piece in pieces.iter_mut() {
        if piece.digest == *own || list.parts.contains(&piece.digest) {
            piece.used = true;
        }
    }
}
