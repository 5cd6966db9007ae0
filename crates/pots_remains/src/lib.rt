//! What is left of a vault whose desk is gone: how far a recovery reads, what is told of its
//! archives, and the files that it finds.
//!
//! It holds no session, starts no thread, and writes to no archive. Nothing is claimed of what it
//! tells and of the files that it writes but safety.
#![tactic(auto)]

mod hiding;
mod parts;
mod reaching;
mod rejoining;
mod shaping;
mod telling;

pub use hiding::hidden_of;
pub use reaching::{Given, Reach, reach_of, reason};
pub use rejoining::write_all;
pub use telling::{tell_gone, tell_nothing, tell_tallies};
