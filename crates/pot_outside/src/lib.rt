//! What the program stands on outside: sources, sinks, archives, rooms of archives, disks, desks
//! and gates.
//!
//! Each trait has a meaning that some types tell, as those in memory do, and some don't, as real
//! files. Clauses on the meaning hold where it is told; all others hold for every object. Each
//! object but a gate has a count of faults that never falls, and answers a failure only in a call
//! in which the count rose. A room also counts the failures that are its own, since its count of
//! faults covers the archives that it lent. A count that stands at its last value, 2^64 - 1, counts
//! as risen.
//!
//! Nothing here alters a block behind the program's back: an archive that tells may lose blocks and
//! never changes one. There is no code in this crate.
#![tactic(auto)]

mod archive;
mod desk;
mod disk;
mod faults;
mod gate;
mod room;
mod streams;

pub use archive::{Archive, Held, Marks, Shelf};
pub use desk::Desk;
pub use disk::Disk;
pub use faults::{DeskFault, Failed, RoomFault};
pub use gate::Gate;
pub use room::Room;
pub use streams::{Sink, Source};
