//! Flights: relays on their way, with what was folded so far.
use pot_bytes::Block;
use pot_machine::Relay;

/// A relay on its way.
#[derive(Clone, Copy)]
pub struct Flight {
    /// The relay, which is one of the table's.
    pub relay: Relay,
    /// The random block that its sum began with.
    pub blind: Block,
    /// The blind and the weighted blocks that were folded so far.
    pub sum: Block,
}
