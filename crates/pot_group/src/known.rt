//! Digests that a group need not take again.
ghost use Rattle.std.specs.Prelude.{◌≡◌};
ghost use Rattle.pot_bytes.specs.Digests.{digest_of};

use pot_bytes::{Block, Digest};
use pot_sealed::{Sealed, digest_knowing};

/// Blocks with their digests: the last parity block that was written, and the block and the parity
/// block that a caller expects next. What they are changes no answer.
#[derive(Clone, Copy)]
pub(crate) struct Known {
    last: Sealed,
    block: Sealed,
    parity: Sealed,
}

impl Known {
    /// The block of zeros alone.
    pub(crate) fn nothing() -> Known {
        let last = Sealed::new(&Block::zero());
        let block = last;
        let parity = last;
        Known {
            last,
            block,
            parity,
        }
    }

    /// Expects a block, and the parity block that it will make.
    pub(crate) fn expect(&mut self, block: &Sealed, parity: &Sealed) {
        self.block = *block;
        self.parity = *parity;
    }

    /// The parity block that was written last.
    pub(crate) fn last(&self) -> Block {
        *self.last.block()
    }

    /// The digest of a block.
    #[tactic(auto, unfolding(pot_bytes::specs::Digests::digest_of))]
    pub(crate) fn digest(&self, block: &Block) -> Digest
        ensures { result ≡ digest_of block.now }
    {
        if self.last.is(block) {
            return self.last.digest();
        }
        if self.block.is(block) {
            return self.block.digest();
        }
        digest_knowing(block, &self.parity)
    }

    /// The digest of a block that is put. It keeps both, since the parity block of a new stripe is
    /// the same.
    #[tactic(auto, unfolding(pot_bytes::specs::Digests::digest_of))]
    pub(crate) fn meet(&mut self, block: &Block) -> Digest
        ensures { result ≡ digest_of block.now }
    {
        if self.block.is(block) {
            return self.block.digest();
        }
        self.block = Sealed::new(block);
        self.block.digest()
    }

    /// The digest of a parity block that was written. It keeps both.
    #[tactic(auto, unfolding(pot_bytes::specs::Digests::digest_of))]
    pub(crate) fn learn(&mut self, parity: &Block) -> Digest
        ensures { result ≡ digest_of parity.now }
    {
        self.last = self.sealed(parity);
        self.last.digest()
    }

    /// A parity block with its digest.
    fn sealed(&self, parity: &Block) -> Sealed
        ensures { result.block ≡ parity.now }
    {
        if self.parity.is(parity) {
            return self.parity;
        }
        if self.block.is(parity) {
            return self.block;
        }
        Sealed::new(parity)
    }
}
