//! The room that is left for files, and what a file takes of it.

use pot_bytes::Rack;
use pot_image::Image;
use pot_machine::{GroupTable, SlotState};
use std::alloc::{AllocError, Global};

/// The most bytes of file in a piece.
pub const PIECE: u64 = 864;

/// How many blocks a group takes of a file of so many bytes. Fragments stand one after another,
/// from piece to piece, and shard x of fragment t, both from 0, goes to group t + x modulo the
/// number of groups.
pub fn blocks_of(rack: &Rack, length: u64, group: u8) -> u64 {
    let pieces = length.div_ceil(PIECE).max(1);
    let fragments = pieces.saturating_mul(u64::from(rack.geometry.fragments));
    let mut blocks = 0u64;
    for shard in 0..rack.geometry.shards {
        let turns = turns_of(rack.groups, fragments, (shard, group));
        blocks = blocks.saturating_add(turns);
    }
    blocks
}

// How many of so many fragments put the shard into the group: one, and from then on each as many
// fragments later as there are groups.
fn turns_of(groups: u8, fragments: u64, (shard, group): (u8, u8)) -> u64 {
    let groups = u64::from(groups).max(1);
    let behind = u64::from(shard) % groups;
    let first = (u64::from(group) + groups - behind) % groups;
    fragments.saturating_sub(first).div_ceil(groups)
}

/// The room that is left in an archive.
#[derive(Drop)]
pub struct Room {
    rack: Rack,
    /// Blocks of each group that may still be put.
    free: Vec<u64>,
}

impl Room {
    /// The room that is left by the tables of an image.
    pub fn left(alloc: Global, image: &Image) -> Result<Room, AllocError> {
        let mut free = Vec::new(alloc);
        for table in image.tables.iter() {
            free.push(free_slots(table))?;
        }
        Ok(Room {
            rack: image.rack,
            free,
        })
    }

    /// The same room, to see what would fit.
    pub fn copied(&self, alloc: Global) -> Result<Room, AllocError> {
        Ok(Room {
            rack: self.rack,
            free: Vec::from_slice(alloc, &self.free)?,
        })
    }

    /// About so many bytes of one file have room.
    pub fn bytes(&self) -> u64 {
        let least = self.free.iter().copied().min().unwrap_or(0);
        let rack = &self.rack;
        let each = u64::from(rack.geometry.fragments) * u64::from(rack.geometry.shards);
        let pieces = least.saturating_mul(u64::from(rack.groups)) / each.max(1);
        pieces.saturating_mul(PIECE)
    }

    /// Takes the room of a file of so many bytes. Answers whether each group had so much.
    pub fn take(&mut self, length: u64) -> bool {
        let rack = self.rack;
        let mut fits = true;
        for (group, free) in self.free.iter_mut().enumerate() {
            let group = u8::try_from(group).unwrap_or(u8::MAX);
            let blocks = blocks_of(&rack, length, group);
            fits = fits && blocks <= *free;
            *free = free.saturating_sub(blocks);
        }
        fits
    }
}

// The data slots from the cursor on. Of a stripe in which a block is gone no slot is put.
fn free_slots(table: &GroupTable) -> u64 {
    let cursor = table.cursor();
    let rest = u64::from(table.stripes()).saturating_sub(u64::from(cursor.stripe));
    let slots = rest * u64::from(table.data_columns());
    let passed = if is_ailing(table, cursor.stripe) {
        table.data_columns()
    } else {
        cursor.column
    };
    slots.saturating_sub(u64::from(passed))
}

// Whether a block of the stripe is gone.
fn is_ailing(table: &GroupTable, stripe: u32) -> bool {
    if stripe >= table.stripes() {
        return false;
    }
    let width = table.data_columns() + table.parity();
    let mut ailing = false;
    for column in 0..width {
        match table.slot(stripe, column) {
            SlotState::Lost(_) | SlotState::Broken(_) => ailing = true,
            SlotState::Void | SlotState::Live(_) => {}
        }
    }
    ailing
}
