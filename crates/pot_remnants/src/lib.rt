//! What is left of the archives of a folder, read and never written: their files, and the blocks
//! that the others of a group give where one is gone.
//!
//! It holds no session and starts no thread, makes no file and writes to none. Nothing is claimed
//! of what a file holds.
//!
//! 1. How the file of each archive is found: `Survey`.
//! 2. How archives form groups, and from which of its group the blocks of one are made: `Shape`.
//! 3. An archive of which some blocks may be made anew: `Remnant`. What such a block is the
//!    contract of `rebuilt` of `pot_rebuild` says; what it is worth the digests of contents tell.
//! 4. Shards that lead to shards of their own archive alone are told and may be left out: `Linked`,
//!    `inside_slots`, `inside_of`. From which archives files are: `origins_of`.
//! 5. All of them as a room, which meets the contract of a room that tells nothing: `Remains`.
#![tactic(auto)]

mod inside;
mod origins;
mod remains;
mod remnant;
mod shape;
mod survey;

pub use inside::{Linked, inside_slots};
pub use origins::{Origin, origins_of};
pub use remains::{Reading, Remains, inside_of, no_tallies};
pub use remnant::{Remnant, Tally};
pub use shape::{MOST_COLUMNS, MOST_PARITY, Shape};
pub use survey::{MOST_ARCHIVES, SLOT, State, Survey, open_archive};
