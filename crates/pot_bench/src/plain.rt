//! Archives in memory that take no time of their own: their memory is there from the beginning, and
//! they remember nothing.
ghost use Rattle.std.specs.Prelude.{◌≡◌, IfOk};

use pot_bytes::{Block, fold_weighted};
use pot_outside::{Archive, Failed, Held, Marks, Shelf};
use std::alloc::{AllocError, Global};

/// How many slots an archive has.
const SLOTS: usize = 4096;

/// A block for each slot. No call fails but a write behind the last slot.
#[derive(Drop)]
pub struct PlainArchive {
    blocks: Vec<Block>,
    held: Vec<bool>,
    faults: u64,
}

impl PlainArchive {
    /// An archive without blocks.
    fn new(alloc: Global) -> Result<PlainArchive, AllocError> {
        let blocks = vec![in alloc; Block::zero(); SLOTS]?;
        let held = vec![in alloc; false; SLOTS]?;
        Ok(PlainArchive {
            blocks,
            held,
            faults: 0,
        })
    }

    /// Adds the blocks of the first slots.
    pub fn add_blocks(&self, slots: u32, bytes: &mut Vec<u8>) -> Result<(), AllocError> {
        for slot in 0..slots {
            if let Some(block) = self.block(slot) {
                bytes.extend_from_slice(block.bytes())?;
            }
        }
        Ok(())
    }

    /// The block of a slot.
    fn block(&self, slot: u32) -> Option<&Block> {
        if self.held.get(slot as usize).copied().unwrap_or(false) {
            self.blocks.get(slot as usize)
        } else {
            None
        }
    }
}

impl Archive for PlainArchive {
    ghost use Rattle.pot_bench.specs.Plain.{meaning_in};
    ghost use Rattle.std.specs.Prelude.{false};

    ghost account = { record { tells = false; meaning = meaning_in } };

    fn read(&mut self, slot: u32, into: &mut Block) -> Result<Held, Failed> {
        match self.block(slot) {
            None => Ok(Held::Absent),
            Some(block) => {
                *into = *block;
                Ok(Held::Held)
            }
        }
    }

    fn fold(&mut self, slot: u32, weight: u8, sum: &mut Block) -> Result<Held, Failed> {
        match self.block(slot) {
            None => Ok(Held::Absent),
            Some(block) => {
                fold_weighted(sum, weight, block);
                Ok(Held::Held)
            }
        }
    }

    fn write(&mut self, slot: u32, block: &Block) -> Result<(), Failed> {
        let place = slot as usize;
        if place >= self.blocks.len() || place >= self.held.len() {
            self.faults = self.faults.saturating_add(1);
            return Err(Failed);
        }
        self.blocks[place] = *block;
        self.held[place] = true;
        Ok(())
    }

    fn marks(&self) -> Marks {
        Marks {
            faults: self.faults,
            losses: 0,
        }
    }
}

/// An archive without blocks under this number.
pub fn shelf(alloc: Global, number: u32) -> Result<Shelf<PlainArchive>, AllocError>
    ensures { IfOk result (λ s. s.number ≡ number) }
{
    let archive = PlainArchive::new(alloc)?;
    Ok(Shelf { number, archive })
}
