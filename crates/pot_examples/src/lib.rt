//! Examples over several crates, each shown by a test: the loops over bytes beside plain ones, and
//! passes that were split before a store.
//!
//! It has no calls of its own, and nothing stands on it.
#![tactic(auto)]

#[cfg(test)]
mod bytewise;
#[cfg(test)]
mod passes;
#[cfg(test)]
mod stage;
