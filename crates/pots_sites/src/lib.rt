//! The places of a vault in the file system: a folder or a link for each, and the links to archives
//! that lead there.
//!
//! What is read, written and printed nothing is claimed of but safety.
#![tactic(auto)]

mod laying;
mod layout;
mod moving;
mod named;
mod standing;

pub use laying::{lay_archives, make_places};
pub use layout::{layout_text, numbers_of};
pub use moving::{Way, heal, swap};
pub use named::{Named, archives_of, asked_names, place_word, places_here};
pub use standing::{Sum, add_sums, no_sums, tell_places, tell_sums};
