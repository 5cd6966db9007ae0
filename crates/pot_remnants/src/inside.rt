//! Shards that lead to shards of their own archive alone, or to which those alone lead.
//!
//! The shards of a fragment lie in as many archives, so a store lays none of them. Whoever writes
//! to one archive alone does not know the names in the others: of a ring that he lays there, some
//! shard leads to his own archive alone, or is led to by that alone.

use pot_bytes::Block;
use pot_pointer::{blur, equal_range};
use pot_shard::decode_shard;
use std::alloc::{AllocError, Global};

/// The greatest number of low bits that a pointer leaves out.
const MOST_BITS: u8 = 63;

/// What shards are linked by: m, n, the point, and a name whose low bits are cleared.
#[derive(Clone, Copy, Debug, PartialEq, Eq, PartialOrd, Ord)]
struct Key {
    need: u8,
    shards: u8,
    point: u8,
    name: u64,
}

#[derive(Clone, Copy, Debug, PartialEq, Eq, PartialOrd, Ord)]
struct Entry {
    key: Key,
    archive: u32,
}

/// Where a shard lies, and what it is linked by. The name has its low bits cleared, as pointers
/// have.
#[derive(Clone, Copy, Debug, PartialEq, Eq)]
pub struct Linked {
    pub archive: u32,
    pub slot: u32,
    pub need: u8,
    pub shards: u8,
    pub point: u8,
    pub name: u64,
    pub pointer: u64,
}

impl Linked {
    /// The shard of a block of a slot. None where it is no shard of this blur.
    pub fn of(block: &Block, bits: u8, archive: u32, slot: u32) -> Option<Linked> {
        let shard = decode_shard(block)?;
        if shard.blur != bits || bits > MOST_BITS {
            return None;
        }
        Some(Linked {
            archive,
            slot,
            need: shard.m,
            shards: shard.n,
            point: shard.x,
            name: blur(shard.name, bits),
            pointer: shard.pointer,
        })
    }

    fn key(&self, point: u8, name: u64) -> Key {
        Key {
            need: self.need,
            shards: self.shards,
            point,
            name,
        }
    }

    fn entry(&self, name: u64) -> Entry {
        Entry {
            key: self.key(self.point, name),
            archive: self.archive,
        }
    }

    // By what the shards are found that it leads to.
    fn next(&self) -> Key {
        let point = if self.point >= self.shards {
            1
        } else {
            self.point.saturating_add(1)
        };
        self.key(point, self.pointer)
    }

    // By what the shards are found that lead to it.
    fn previous(&self) -> Key {
        let point = if self.point <= 1 {
            self.shards
        } else {
            self.point.saturating_sub(1)
        };
        self.key(point, self.name)
    }
}

#[derive(Clone, Copy, Debug, PartialEq, Eq, PartialOrd, Ord)]
struct Place {
    key: Key,
    at: usize,
}

/// Shards by what others are led to them.
#[derive(Drop)]
pub(crate) struct Index {
    places: Vec<Place>,
}

impl Index {
    /// The index over these shards.
    pub(crate) fn of(alloc: Global, linked: &[Linked]) -> Result<Index, AllocError> {
        let mut places = Vec::new(alloc);
        for (at, shard) in linked.iter().enumerate() {
            let key = shard.entry(shard.name).key;
            places.push(Place { key, at })?;
        }
        places.sort_unstable();
        Ok(Index { places })
    }

    /// The ring of a shard of the first point, each shard the first one that the shard before it
    /// leads to. None where it does not close.
    pub(crate) fn ring(
        &self,
        alloc: Global,
        linked: &[Linked],
        first: &Linked,
    ) -> Result<Option<Vec<Linked>>, AllocError> {
        let mut ring = Vec::new(alloc);
        ring.push(*first)?;
        let mut last = *first;
        for _ in 1..first.shards {
            let Some(shard) = self.found(linked, last.next()) else {
                return Ok(None);
            };
            ring.push(shard)?;
            last = shard;
        }
        if last.pointer != first.name {
            return Ok(None);
        }
        Ok(Some(ring))
    }

    // The first shard of a key.
    fn found(&self, linked: &[Linked], key: Key) -> Option<Linked> {
        let found = equal_range(&self.places, |place| place.key.cmp(&key));
        linked.get(found.first()?.at).copied()
    }
}

/// The slots, by archive, of the shards that lead to their own archive alone, or to which that
/// alone leads. A ring of one shard has no other.
pub fn inside_slots(
    alloc: Global,
    linked: &[Linked],
    archives: u32,
) -> Result<Vec<Vec<u32>>, AllocError> {
    let names = entries_of(alloc, linked, |shard| shard.name)?;
    let pointers = entries_of(alloc, linked, |shard| shard.pointer)?;
    let mut slots = Vec::new(alloc);
    for _ in 0..archives {
        slots.push(Vec::new(alloc))?;
    }
    for shard in linked.iter().filter(|shard| shard.shards > 1) {
        let is_inside = stays(&names, shard.next(), shard.archive)
            || stays(&pointers, shard.previous(), shard.archive);
        if let (true, Some(own)) = (is_inside, slots.get_mut(shard.archive as usize)) {
            own.push(shard.slot)?;
        }
    }
    Ok(slots)
}

// The shards by what others find them by, in order.
fn entries_of<F: Fn(&Linked) -> u64>(
    alloc: Global,
    linked: &[Linked],
    name: F,
) -> Result<Vec<Entry>, AllocError>
    requires { F.IsAlwaysCallable name }
{
    let mut entries = Vec::new(alloc);
    for shard in linked.iter() {
        entries.push(shard.entry(name(shard)))?;
    }
    entries.sort_unstable();
    Ok(entries)
}

// Whether there are shards of this key, and all of them lie in this archive.
fn stays(entries: &[Entry], key: Key, archive: u32) -> bool {
    let found = equal_range(entries, |entry| entry.key.cmp(&key));
    !found.is_empty() && found.iter().all(|entry| entry.archive == archive)
}
