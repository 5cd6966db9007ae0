//! What the blocks of each stripe come to.
ghost use Rattle.std.specs.Prelude.{◌<◌};

use crate::fault::Fault;
use crate::told::Told;
use pot_bytes::{Block, Digest, digest_of};
use pot_doubles::MemRoom;
use pot_image::read_image;
use pot_machine::{GroupTable, SlotState};
use std::alloc::{AllocError, Global};

/// The data columns of a stripe and its first parity column, as far as they were looked at.
#[derive(Drop)]
struct Sum {
    /// The XOR of the blocks that stand where their slots say.
    sum: Block,
    blocks: u32,
    missing: u32,
    /// The last column whose block is missing, and the digest of its slot.
    last: Option<(u8, Digest)>,
}

impl Sum {
    fn new() -> Sum {
        Sum {
            sum: Block::zero(),
            blocks: 0,
            missing: 0,
            last: None,
        }
    }

    /// A slot of this digest is looked at, whose block is this one, or is missing.
    fn add(&mut self, column: u8, digest: Digest, block: Option<&Block>) {
        match block {
            Some(block) if digest_of(block.bytes()) == digest => {
                self.sum.xor(block);
                self.blocks = self.blocks.saturating_add(1);
            }
            _ => {
                self.missing = self.missing.saturating_add(1);
                self.last = Some((column, digest));
            }
        }
    }

    /// Whether the blocks sum to zeros, or which column is missing whose block they tell.
    fn letter(&self) -> char {
        match (self.missing, &self.last) {
            (0, _) if self.blocks == 0 => '.',
            (0, _) if *self.sum.bytes() == [0; 1024] => '=',
            (1, Some((column, digest))) if digest_of(self.sum.bytes()) == *digest => {
                char::from_digit(u32::from(*column), 17).unwrap_or('?')
            }
            (0 | 1, _) => '!',
            _ => '-',
        }
    }
}

/// What the blocks of a stripe come to.
fn letter_of(room: &MemRoom, table: &GroupTable, stripe: u32) -> char
    requires { stripe < table.now.stripes }
{
    let mut sum = Sum::new();
    let data = table.data_columns();
    for column in 0..data + table.parity() {
        if data < column {
            continue;
        }
        match table.slot(stripe, column) {
            SlotState::Void => {}
            SlotState::Live(digest) => {
                let archive = room.archive(table.archive_of(stripe, column));
                sum.add(column, digest, archive.and_then(|a| a.block(stripe)));
            }
            SlotState::Lost(digest) | SlotState::Broken(digest) => sum.add(column, digest, None),
        }
    }
    sum.letter()
}

/// Puts the letters of a group behind a text.
fn append_group(text: &mut String, room: &MemRoom, table: &GroupTable) -> Result<(), AllocError> {
    text.push(' ')?;
    let reached = table.cursor().stripe.saturating_add(1);
    for stripe in 0..table.stripes() {
        if stripe < reached {
            text.push(letter_of(room, table, stripe))?;
        }
    }
    Ok(())
}

/// Tells what the blocks of each stripe come to, up to the cursor's.
pub fn tell_stripes(
    alloc: Global,
    bytes: &[u8],
    room: &MemRoom,
    told: &mut Told,
) -> Result<(), Fault> {
    let Ok(image) = read_image(alloc, bytes) else {
        return told.outcome("no fields");
    };
    let mut text = String::from_str(alloc, "stripes")?;
    for table in &image.tables {
        append_group(&mut text, room, table)?;
    }
    told.outcome(&text)
}
