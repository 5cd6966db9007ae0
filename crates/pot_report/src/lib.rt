//! What a program for people tells: sizes, the shape of a new archive, the room that is left, the
//! archives that a desk names and how they stand, what is exposed to some of them, and replies as
//! lines of text or of JSON.
//!
//! It opens no file and holds no session. Of its texts nothing is claimed but that they are made
//! without a fault.
#![tactic(auto)]

mod archives;
mod exposures;
mod json;
mod leaving;
mod listing;
mod parting;
mod planning;
mod recovered;
mod refusals;
mod sizes;
mod texts;
mod uses;
mod wording;

pub use archives::{Holding, holdings};
pub use exposures::{Exposure, Exposures, LooseColumn, read_exposures};
pub use json::reply_json;
pub use leaving::{Room, blocks_of};
pub use listing::{Kept, kept_files};
pub use parting::{Manifest, PartList};
pub use planning::{Plan, Unplanned, Wish, place_of, places_of};
pub use recovered::{Found, read_found};
pub use sizes::{Size, read_size};
pub use texts::{digest_text, name_text, spoken_name};
pub use wording::reply_line;
