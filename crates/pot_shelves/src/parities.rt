//! The two parity blocks of a stripe.
ghost use Rattle.std.specs.Prelude.{◌≡◌};
ghost use Rattle.pot_bytes.specs.Sums.{zero_block};

use pot_bytes::Block;

/// The parity blocks of a stripe. Where there is one parity column the second counts for nothing.
#[derive(Clone, Copy)]
pub struct Parity {
    /// That of P.
    pub first: Block,
    /// That of Q.
    pub second: Block,
}

impl Parity {
    /// Blocks of zeros.
    pub fn zero() -> Parity
        ensures first { result.first ≡ zero_block }
        ensures second { result.second ≡ zero_block }
    {
        Parity {
            first: Block::zero(),
            second: Block::zero(),
        }
    }
}
