//! Tests of real objects and of what `pots` stands on, by what their crates make public.
//!
//! They stand apart, since a crate that is checked with its tests is proved once more as a whole.
#![tactic(auto)]

#[cfg(test)]
mod folders;
#[cfg(test)]
mod numbers;
#[cfg(test)]
mod remnants;
#[cfg(test)]
mod rescue;
#[cfg(test)]
mod safe_desk;
#[cfg(test)]
mod standing;
#[cfg(test)]
mod tree;
