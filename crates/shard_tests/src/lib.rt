//! Tests of what is read of shards without an index, by what its crate makes public.
//!
//! They stand apart, since a crate that is checked with its tests is proved once more as a whole.
#![tactic(auto)]

#[cfg(test)]
mod recover;
