//! Folders as snapshots: what stands in a folder, which packs its files go into, the names of lists
//! and packs in a vault, what differs between two lists, and how a snapshot is put back.
//!
//! It knows no vault and holds no session. What it reads, writes and tells nothing is claimed of
//! but safety.
#![tactic(auto)]

mod comparing;
mod dates;
mod names;
mod packing;
mod patterns;
mod putting;
mod selecting;
mod walking;

pub use comparing::{Change, Difference, differences};
pub use dates::{date_of, minute_text, stamp_of};
pub use names::{Snapshot, is_pack, list_name, pack_name};
pub use packing::{Pack, Packer, pack_lengths};
pub use patterns::{fits, fits_path};
pub use putting::{put_folder, put_link, set_mode, set_time, whole_path};
pub use selecting::{are_in_folders, is_wanted};
pub use walking::{Kind, Seen, Walk, walk_folder};
