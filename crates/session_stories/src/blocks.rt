//! Blocks that are lost, altered and forged.
ghost use Rattle.std.specs.Prelude.{◌≡◌, ℕ, false};
ghost use Rattle.pot_doubles.specs.Rooms.{is_out};

use crate::fault::Fault;
use crate::outside::Outside;
use crate::words::{byte_of, numbers_of};
use pot_bytes::Block;
use pot_doubles::{LossyArchive, MemRoom};
use pot_outside::{Archive, Room};
use pot_shard::{Shard, encode_shard};
use std::alloc::Global;

/// One more than the greatest number of a slot.
pub const SLOTS: u32 = 4096;

/// What is done to the blocks of an archive.
#[derive(Clone, Copy)]
pub enum Change {
    /// The block of a slot gets lost.
    Lose { slot: u32 },
    /// All blocks get lost.
    Empty,
    /// A byte of the block of a slot is XORed with another.
    Alter { slot: u32, place: u32, with: u8 },
    /// So many shards come for each of two points, each linked to each.
    Crowd { each: u32 },
}

/// Shards that close a ring with each of the other point.
fn crowd(archive: &mut LossyArchive, each: u32) -> Result<(), Fault> {
    for (x, first) in [(1, 0), (2, 1)] {
        for name in 0..each {
            let shard = Shard {
                x,
                m: 2,
                n: 2,
                blur: 63,
                name: u64::from(name),
                pointer: 0,
                share: [0; 992],
            };
            let mut block = Block::zero();
            encode_shard(&shard, &mut block);
            let slot = name.saturating_mul(2).saturating_add(first);
            if archive.write(slot, &block).is_err() {
                return Err(Fault::NoStep);
            }
        }
    }
    Ok(())
}

fn empty(archive: &mut LossyArchive) {
    for slot in 0..SLOTS {
        if archive.block(slot).is_some() {
            archive.lose(slot);
        }
    }
}

fn alter(archive: &mut LossyArchive, slot: u32, place: u32, with: u8) -> Result<(), Fault> {
    let Some(block) = archive.block(slot) else {
        return Err(Fault::NoStep);
    };
    let mut bytes = *block.bytes();
    match bytes.get_mut(place as usize) {
        Some(byte) => *byte ^= with,
        None => return Err(Fault::NoStep),
    }
    archive
        .write(slot, &Block::from_bytes(bytes))
        .map_err(|_| Fault::NoStep)
}

fn apply(archive: &mut LossyArchive, change: Change) -> Result<(), Fault> {
    match change {
        Change::Lose { slot } => {
            archive.lose(slot);
            Ok(())
        }
        Change::Empty => {
            empty(archive);
            Ok(())
        }
        Change::Alter { slot, place, with } => alter(archive, slot, place, with),
        Change::Crowd { each } => crowd(archive, each),
    }
}

/// Changes the blocks of an archive, which is taken from the room and given back.
fn change_in(room: &mut MemRoom, number: u32, change: Change) -> Result<(), Fault>
    requires home { (n : ℕ) → is_out room.old n ≡ false }
    ensures home { (n : ℕ) → is_out room.new n ≡ false }
{
    let Ok(mut archive) = room.take(number) else {
        return Err(Fault::NoStep);
    };
    let applied = apply(&mut archive, change);
    match room.give(number, archive) {
        Ok(()) => applied,
        Err(_) => Err(Fault::NoStep),
    }
}

/// Changes the blocks of an archive.
fn change_archive(outside: &mut Outside, number: u32, change: Change) -> Result<(), Fault> {
    change_in(&mut outside.room, number, change)
}

/// The change of an archive's blocks that a line says, and the archive.
fn one_change(alloc: Global, word: &str, rest: &str) -> Result<(u32, Change), Fault> {
    if word == "alter" {
        let Some((numbers, byte)) = rest.rsplit_once(' ') else {
            return Err(Fault::NoStep);
        };
        return match numbers_of(alloc, numbers)?.as_slice() {
            [archive, slot, place] => Ok((
                *archive,
                Change::Alter {
                    slot: *slot,
                    place: *place,
                    with: byte_of(byte)?,
                },
            )),
            _ => Err(Fault::NoStep),
        };
    }
    match (word, numbers_of(alloc, rest)?.as_slice()) {
        ("lose", [archive, slot]) => Ok((*archive, Change::Lose { slot: *slot })),
        ("crowd", [archive, each]) => Ok((*archive, Change::Crowd { each: *each })),
        _ => Err(Fault::NoStep),
    }
}

/// Loses all blocks of these archives.
pub fn empty_all(outside: &mut Outside, archives: &[u32]) -> Result<(), Fault> {
    for archive in archives {
        change_archive(outside, *archive, Change::Empty)?;
    }
    Ok(())
}

/// Changes blocks as a line says.
pub fn change_blocks(
    alloc: Global,
    outside: &mut Outside,
    word: &str,
    rest: &str,
) -> Result<(), Fault> {
    if word == "empty" {
        let archives = numbers_of(alloc, rest)?;
        return empty_all(outside, &archives);
    }
    let (archive, what) = one_change(alloc, word, rest)?;
    change_archive(outside, archive, what)
}
