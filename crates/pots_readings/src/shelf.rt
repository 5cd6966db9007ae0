//! Where blocks are read.

use pot_bytes::Block;

/// Archives of which blocks can be read.
pub trait Shelf {
    /// The block that an archive, by its number, holds in a slot. None where the archive is not
    /// here, holds none there, or cannot be read.
    fn block(&self, archive: u32, slot: u32) -> Option<Block>;
}
