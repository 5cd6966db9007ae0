//! What is shared of a vault's desk, and the share of each of its places.
//!
//! It opens no file, and knows no folder: `pots_shares` does.
//!
//! 1. What is shared is the desk's image without its logs, so a session can begin with what comes
//!    back: `text_of`.
//! 2. There is one share for each place, at the point behind its number: `made_share`.
#![tactic(auto)]

mod making;
#[cfg(test)]
mod tests;
mod text;

pub use making::{made_share, random_size, terms_of};
pub use text::text_of;
