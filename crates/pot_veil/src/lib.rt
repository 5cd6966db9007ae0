//! The veil: whoever sees fewer than m shards of one fragment of each piece of a file, and all
//! shards of the others, sees what any other file of that length gives too, under other random
//! bytes.
//!
//! It knows the random bytes of a store, and no archive that holds a block and no source of random
//! bytes.
//!
//! 1. Other random bytes give another file the same seen blocks, and with the files exchanged they
//!    give the first ones back, so they are a bijection: `piece_laws`, `file_laws`, and of a
//!    coalition of archives `veil_laws`.
//! 2. `explain` writes them over those of a piece, and takes no memory.
//! 3. `drill` does so for every piece of a file, and counts and digests the blocks that are seen.
//!    Only it takes memory, and before it writes.
#![tactic(auto)]

mod drilling;
mod explaining;
mod laws;
#[cfg(test)]
mod tests;

pub use drilling::{DrillFault, DrillReport, drill};
pub use explaining::explain;
pub use laws::{file_laws, piece_laws, veil_laws};
