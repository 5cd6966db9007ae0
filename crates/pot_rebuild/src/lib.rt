//! A block of a stripe that is gone, made anew from the other blocks of its stripe.
//!
//! It knows blocks in memory, and no archive, no table and no file. The law of stripes and the
//! weights of its two sums are those of `pot_steps`.
//!
//! 1. In every filling of every stripe that has the other blocks, the block that is made is the one
//!    of its column: `rebuilt`. One other column may be left out where there are two parity
//!    columns.
//! 2. Nothing tells here whether a stripe is whole: blocks that are of no filling give some block.
#![tactic(auto)]

mod rebuilding;
#[cfg(test)]
mod tests;

pub use rebuilding::rebuilt;
