//! The outside in memory: sources, sinks, archives, rooms of archives, disks, desks and gates that
//! fail where they are told to. Tests and runs without files stand on them; no real file is touched
//! here.
//!
//! Each double but the gates tells its contents, and numbers its calls from 0. A constructor takes
//! the numbers of the calls that are to fail. Invariants, each kept by the type that it names:
//! 1. the count of faults (`Calls`) begins at 0 and rises exactly at a call that is to fail, and at
//!    a call that found no memory and has no answer for that; a room counts one more for an archive
//!    that comes back having failed, but not among its own failures;
//! 2. every block that a `LossyArchive` holds stands among the blocks that it was ever written;
//! 3. its count of losses rises exactly at a listed loss and at `lose`;
//! 4. the sums that it heard are those that `fold` was given and had memory for;
//! 5. a `MemDisk` keeps each write that began and each sync that answered `Ok`;
//! 6. under a `Fuse`, which a room and the archives that it hands out share, calls fail that are
//!    not listed, and each counts a fault. Which ones is not told, since a clause knows nothing of
//!    a counter that others change.
#![tactic(auto)]

mod archive;
mod calls;
mod desk;
mod disk;
mod fuse;
mod gate;
mod losses;
mod room;
mod streams;

pub use archive::{Heard, LossyArchive};
pub use desk::MemDesk;
pub use disk::MemDisk;
pub use gate::{OpenGate, PairGate};
pub use losses::Loss;
pub use room::MemRoom;
pub use streams::{MemSink, MemSource};
