//! Blocks that carry their digests, so that a block is digested once and four at a time.
//!
//! Nothing here changes what a digest is: where two blocks are equal byte for byte, so are their
//! digests.
#![tactic(auto)]

ghost use Rattle.std.specs.Prelude.{◌≡◌, ◌↔◌, [], ◌∷◌, IsTrue, map};
ghost use Rattle.pot_bytes.specs.Digests.{digest_bytes};

use pot_bytes::{Block, Digest, digest_of};
use pot_lanes::digest_four;

/// A block and its digest.
#[derive(Clone, Copy)]
pub struct Sealed {
    block: Block,
    digest: Digest,
    ghost sealed: { digest ≡ record { bytes = digest_bytes block } },
}

impl Sealed {
    /// Digests a block.
    pub fn new(block: &Block) -> Sealed
        ensures { result.block ≡ block.now }
    {
        Sealed {
            block: *block,
            digest: digest_of(block.bytes()),
        }
    }

    /// Its block.
    pub fn block(&self) -> &Block
        ensures { result.now ≡ self.now.block }
    {
        &self.block
    }

    /// Whether it is this block.
    pub fn is(&self, block: &Block) -> bool
        ensures { IsTrue result ↔ block.now ≡ self.now.block }
    {
        block.bytes() == self.block.bytes()
    }

    /// The digest of its block.
    pub fn digest(&self) -> Digest
        ensures { result ≡ record { bytes = digest_bytes self.now.block } }
    {
        self.digest
    }
}

/// The digests of four blocks.
pub fn digests_of_four(a: &Block, b: &Block, c: &Block, d: &Block) -> [Digest; 4]
    ensures { result
        ≡ map (λ block. record { bytes = digest_bytes block })
        (a.now ∷ b.now ∷ c.now ∷ d.now ∷ []) }
{
    let [first, second, third, fourth] = digest_four(a.bytes(), b.bytes(), c.bytes(), d.bytes());
    [
        Digest { bytes: first },
        Digest { bytes: second },
        Digest { bytes: third },
        Digest { bytes: fourth },
    ]
}

/// Digests four blocks side by side.
pub fn seal_four(a: &Block, b: &Block, c: &Block, d: &Block) -> [Sealed; 4]
    ensures { map (λ s. s.block) result ≡ a.now ∷ b.now ∷ c.now ∷ d.now ∷ [] }
{
    let [first, second, third, fourth] = digests_of_four(a, b, c, d);
    [
        Sealed {
            block: *a,
            digest: first,
        },
        Sealed {
            block: *b,
            digest: second,
        },
        Sealed {
            block: *c,
            digest: third,
        },
        Sealed {
            block: *d,
            digest: fourth,
        },
    ]
}

/// The digest of a block, taken over from `known` where that is the same block.
pub fn digest_knowing(block: &Block, known: &Sealed) -> Digest
    ensures { result ≡ record { bytes = digest_bytes block.now } }
{
    if block.bytes() == known.block.bytes() {
        known.digest
    } else {
        digest_of(block.bytes())
    }
}
