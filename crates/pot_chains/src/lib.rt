//! Chains that follow pointers: lists of positions, each longer by the candidates of its last,
//! counted up to a limit; and picks of one from each of some lists.
//!
//! It knows no shard and no share: a chain is a list of positions, one for each point, and a point
//! is a list of names and of pointers.
//!
//! 1. A list says what it is a list of: exactly what has a property, each once (`specs/Listed`).
//! 2. The chains through some points are listed, each once, and all that begin there are counted,
//!    the shorter ones too; more than the limit are refused, and only these: `paths`, over
//!    `longer`.
//! 3. Following sets decides whether a ring closes: `chain_laws`.
//! 4. A pick of one from each of some lists has a number, and the number tells it: `pick_laws`.
#![tactic(auto)]

mod chain;
mod laws;
mod levels;
mod search;
#[cfg(test)]
mod tests;

pub use chain::Chain;
pub use laws::{chain_laws, pick_laws};
pub use levels::{Level, paths};
pub use search::{SearchFault, longer};
