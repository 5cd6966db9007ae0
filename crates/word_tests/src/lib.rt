//! Tests of options, words, scripts, replies and reports, by what their crates make public.
//!
//! They stand apart, since a crate that is checked with its tests is proved once more as a whole.
#![tactic(auto)]

#[cfg(test)]
mod client;
#[cfg(test)]
mod generator;
#[cfg(test)]
mod options;
#[cfg(test)]
mod report;
#[cfg(test)]
mod script;
#[cfg(test)]
mod words;
