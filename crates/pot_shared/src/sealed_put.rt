//! A block on its way into a group.
use pot_sealed::Sealed;

/// A block to put, and what its stripe is expected to be then. What is expected changes no answer.
#[derive(Clone, Copy)]
pub struct SealedPut {
    /// The block.
    pub block: Sealed,
    /// The block of P that its stripe is expected to have with it.
    pub parity: Sealed,
    /// The data column that it is expected in.
    pub column: u8,
}
