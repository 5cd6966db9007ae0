//! Shares of a desk: a text of bytes in n shares, of which any m give it back and fewer tell
//! nothing but its length.
//!
//! It knows bytes alone: no file, no place and no image of a desk. Only `make_share` and `join`
//! take memory.
//!
//! 1. What is shared is the text and its SHA-256 behind it, so a share shows no digest of the text:
//!    `make_share`.
//! 2. What is read is exactly what is written, and a digest of its own seals each share:
//!    `read_share`.
//! 3. Of some shares the newest text is given of which as many are there as are needed: `join`.
//! 4. Any m shares of a set give its text, and fewer are those of every other text of its length:
//!    `share_laws`.
#![tactic(auto)]

mod joining;
mod laws;
mod making;
mod share;
#[cfg(test)]
mod tests;

pub use joining::{JoinFault, Joined, join};
pub use laws::{share_laws, veil_laws};
pub use making::{LONGEST, Terms, make_share, random_len};
pub use share::{DeskShare, ShareHead, read_share};
