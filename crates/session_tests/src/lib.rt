//! Tests of sessions over a desk on a disk in memory, by what the crates make public.
//!
//! They stand apart, since a crate that is checked with its tests is proved once more as a whole.
#![tactic(auto)]

#[cfg(test)]
mod desks;
