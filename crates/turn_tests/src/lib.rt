//! Tests of turns, rows of turns and worker threads, by what their crates make public.
//!
//! They stand apart, since a crate that is checked with its tests is proved once more as a whole.
#![tactic(auto)]

#[cfg(test)]
mod rows;
#[cfg(test)]
mod turn;
#[cfg(test)]
mod work;
