//! Files that are read over what is mounted, without a session: the desk stays as it is, nothing is
//! marked as lost, and no archive is opened to be written.
//!
//! 1. What is answered has the length and the digest of the file's record, else it is refused:
//!    `read_file`.
//! 2. Shares at as many points as are needed are joined, no two of them at one point: `Shares`.
//!
//! It holds no session and starts no thread. Of what it reads from files and tells nothing is
//! claimed but safety.
#![tactic(auto)]

mod answering;
mod losing;
mod mounted;
mod reading;
mod shares;
mod shelf;

pub use answering::read_files;
pub use losing::{can_read_without, groups_without};
pub use mounted::Mounted;
pub use reading::{ReadFault, read_file};
pub use shelf::Shelf;
