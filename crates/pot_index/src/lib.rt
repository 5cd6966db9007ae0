//! The index of stored files: the records of published files by name, the names that are reserved,
//! and the log of what was asked of it.
//!
//! It knows no block and no table: a record says where blocks stand, and what stands there is not
//! looked at. Only `start`, `reserve`, `find`, `names`, `renew`, `write_record` and the copies take
//! memory.
//!
//! Invariants, each kept by the type that it names:
//! 1. a record has at most 15 older splits beside the current one (`Splits`);
//! 2. the log leads from the records that the index began with to the names now, each entry legal
//!    in turn (`Index`; `Legal`, `after`, `Replays`);
//! 3. published names ascend, reserved names are distinct, and no name is both; each record fits
//!    the rack (`Index`; `AreNames`);
//! 4. the entries and the reserved names together are at most 262,144, so that each reservation has
//!    room for the entry that ends it (`Index`; `reserve` asks for two);
//! 5. there is room for a record of each reserved name and for all entries of the log (`Lists`;
//!    `begin` and `reserve` take it), so `publish` and `abandon` take no memory.
//!
//! Of the log as a whole: `index_laws`. The group that a block of a split goes to: `group_of`.
#![tactic(auto)]

mod ended;
mod ending;
mod entry;
mod fault;
mod groups;
mod index;
mod laws;
mod listed;
mod lists;
mod marks;
mod record;
mod reservation;
mod search;
mod spelling;
mod splits;
#[cfg(test)]
mod tests;
mod writing;

pub use ended::IndexEnded;
pub use entry::{IndexEntry, Logged};
pub use fault::{FindFault, IndexRefused, ListFault, RenewFault, ReserveFault};
pub use groups::group_of;
pub use index::Index;
pub use laws::index_laws;
pub use listed::Listed;
pub use pot_bytes::NoMemory;
pub use record::{Places, Record, Split};
pub use reservation::Reservation;
pub use splits::Splits;
pub use writing::write_record;
