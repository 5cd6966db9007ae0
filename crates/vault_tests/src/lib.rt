//! Tests of the vault and of what commands do with it, by what these crates make public: openings,
//! puts and fetches (`pot_shared`), expected blocks (`pot_store`), repairs, checks and moves
//! (`pot_mend`).
//!
//! They stand apart, since a crate that is checked with its tests is proved once more as a whole.
#![tactic(auto)]

#[cfg(test)]
mod expecting;
#[cfg(test)]
mod moves;
#[cfg(test)]
mod repairs;
#[cfg(test)]
mod scene;
#[cfg(test)]
mod vaults;
