use pot_bytes::Sequence;

/// How many points of a piece of a split are exposed, of the fragment that has the fewest.
#[derive(Clone, Copy, PartialEq, Eq, Debug)]
pub struct Veil {
    /// The number of the split, from 0 for the oldest.
    pub split: u8,
    /// The number of the piece, from 0.
    pub piece: u32,
    /// The number of the fragment, from 1: the first of those that have the fewest exposed points.
    pub fragment: u8,
    /// How many of its points are exposed.
    pub have: u8,
    /// How many give the fragment back.
    pub need: u8,
}

/// One for each split, the oldest first, and piece.
pub type Veils = Sequence<Veil>;
