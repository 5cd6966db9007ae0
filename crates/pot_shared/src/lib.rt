//! The groups and the index of a session under turns, and what each locked call of them promises.
//!
//! Each group stands under a turn of its own, and so does the index. A call takes one of these
//! values, calls it once and gives it back: that is one *locked call*, and it tells one thing.
//! Others had logged some entries since the caller's pass last saw the log; then this call logged
//! these, and did what the group's or the index's own call promises (`CallTurn`, `IndexTurn`).
//! `mend_place`, `use_of` and `trace` are several of them, one after another.
//!
//! A vault begins with tables, records and archives (`Vault::open`), and what it leaves is one
//! value (`Remains`): the tables and logs of its groups, the records and the log of its index, and
//! all archives (`Vault::end`).
//!
//! It reads no script, and starts threads only where a vault is opened. It promises no progress, as
//! `pot_turn`.
#![tactic(auto)]

mod caller;
mod catalog;
mod connection;
mod ending;
mod group_start;
mod grouping;
mod hand;
mod indexing;
mod leaving;
mod member;
mod mending;
mod moving;
mod opening;
mod remains;
mod sealed_put;
mod sharing;
mod starting;
mod uses;
mod vault;

pub use caller::Caller;
pub use catalog::{Catalog, CatalogOrigin, ReservationLost};
pub use connection::Connection;
pub use ending::Closed;
pub use group_start::Openers;
pub use hand::numbers_in;
pub use member::{GroupOrigin, Logged, Member, Taking};
pub use mending::Mending;
pub use moving::ColumnAt;
pub use remains::Remains;
pub use sealed_put::SealedPut;
pub use starting::VaultRefused;
pub use vault::{Passes, Spaces, Vault};
