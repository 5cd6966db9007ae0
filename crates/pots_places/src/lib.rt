//! The places of a vault by name: the text that names them, and the number of a name.
//!
//! It opens no file: `pots` does. A place is where archives of some groups lie: a folder, or a disk
//! that is mounted there. Places have numbers from 0, in the order of the text.
//!
//! 1. What is written is read back, and what is read has just this text: `read_places`.
//! 2. No two places have one name, and no name is a number or leads out of a folder: `are_places`.
//! 3. A name is that of one place at most: `place_named`.
#![tactic(auto)]

mod cuts;
mod naming;
mod places_file;
#[cfg(test)]
mod tests;

pub use naming::{MOST_PLACES, are_places, is_place_name, place_named};
pub use places_file::{PLACES_FILE, is_of_other_version, places_text, read_places};
