//! Tests of the tables, the index and the image, by what their crates make public.
//!
//! They stand apart, since a crate that is checked with its tests is proved once more as a whole.
#![tactic(auto)]

#[cfg(test)]
mod image;
#[cfg(test)]
mod machine;
#[cfg(test)]
mod recheck;
#[cfg(test)]
mod shelves;
#[cfg(test)]
mod steps;
