//! Closed examples of laws: a few steps of a small rack, and what a law says of them.
//!
//! A law does nothing and nothing calls it, so a premise too many or a conjunct too few in its
//! statement breaks no other proof. Each function here applies a law to steps that are written out,
//! with every premise met, and promises a plain fact of them. It has no calls of its own, and
//! nothing stands on it.
#![tactic(auto)]

mod audits;
mod forward;
mod groups;
mod steps;
mod stored;
mod worlds;

pub use audits::{audit_hides, bytes_return};
pub use forward::{place_published, split_stays, store_replayed, veil_hides};
pub use groups::stripe_kept;
pub use steps::{
    blinds_hidden, block_kept, mends_back, move_goes_well, relay_ends_well, seen_alike,
};
pub use stored::{fetch_gives, gathered_written, loss_mended, store_written};
pub use worlds::{block_remains, parity_seen, sessions_seen};
