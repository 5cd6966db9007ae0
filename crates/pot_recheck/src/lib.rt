//! Slots that are lost or broken are found again: in an image, between two sessions.
//!
//! A session trusts no image. As it begins it reads the block of each slot that is Live and
//! compares its digest, and it judges each stripe anew. So a slot that is Lost or Broken is made
//! Live, with the digest that it has, and the next session looks whether its block is there.
//!
//! It reads no archive, and it decides nothing of a block.
//!
//! 1. All slots of an image that are Lost or Broken are told, each once: `unsound_slots`.
//! 2. Those that are named are made Live, and nothing else changes: `find_again`.
//! 3. An image keeps the rules of images: `find_again`.
//! 4. A desk's image is replaced only where some slot was Lost or Broken: `recheck`.
//! 5. What is written and the exit status follow from what a recheck came to: `text_of`, `code_of`.
//! 6. Digests stay, what is Void stays Void, and a second time changes nothing: `recheck_laws`.
#![tactic(auto)]

mod finding;
mod laws;
mod listing;
mod rechecking;
mod telling;

pub use finding::find_again;
pub use laws::recheck_laws;
pub use listing::{Unsound, unsound_slots};
pub use rechecking::{Rechecked, recheck};
pub use telling::{code_of, count_in, text_of};
