//! Tests of worlds, audits and actors, by what their crates make public.
//!
//! They stand apart, since a crate that is checked with its tests is proved once more as a whole.
#![tactic(auto)]

#[cfg(test)]
mod actors;
#[cfg(test)]
mod audit;
#[cfg(test)]
mod world;
