//! The shares of a vault's desk: where they lie, how they are laid anew behind a session, and how a
//! desk comes back from them.
//!
//! 1. A place is as a vault's rack has it, and its folders are those in which its archives really
//!    lie: `spots.rt`.
//! 2. A place gets its share (`pot_desk_places`) in each of its folders: `laying.rt`.
//! 3. The newest desk comes back of which enough shares are there, and never over a sound one:
//!    `finding.rt`, `recovering.rt`.
//!
//! It holds no session and starts no thread. Of files and of what is told nothing is claimed but
//! safety.
#![tactic(auto)]

mod counting;
mod finding;
mod laying;
mod recovering;
mod spots;

pub use counting::tell_shares;
pub use laying::lay_shares;
pub use recovering::recover_desk;
