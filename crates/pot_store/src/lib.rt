//! The calls that store a file, that fetch it and that split it anew, over the groups and the index
//! of a session.
//!
//! 1. A store reserves its name, puts the blocks of the file each into its own group, and publishes
//!    their places; where a put is refused, the name is free again: `store_file`.
//! 2. The blocks are drawn piece by piece from the job's stream, and never more than one piece of
//!    them stands in memory: `drawing`. Their digests, and those of the parity blocks that the puts
//!    are expected to write, are taken four at a time: `sealing`.
//! 3. A fetch looks at the points of each fragment in order until enough blocks are seen, mends
//!    those of which nothing came where they are too few, and joins what was seen without decoding
//!    a block: `fetch_file`.
//! 4. A renewal fetches a file, puts the blocks of a new split of it, and makes that split the
//!    current one of its record: `renew_file`.
//! 5. What each answer says is said of the logs, and holds where nobody else logged an entry of the
//!    job: `StoreRow`, `FetchRow`, `RenewRow`.
//!
//! It knows no script and no seed, and it starts no thread.
#![tactic(auto)]

mod drawing;
mod expecting;
mod fetching;
mod fragments;
mod points;
mod putting;
mod renewing;
mod rooms;
mod sealing;
mod shares;
mod storing;
mod visiting;

pub use expecting::Expected;
pub use fetching::{FetchFault, fetch_file};
pub use renewing::{RenewFileFault, renew_file};
pub use storing::{StoreFault, Stored, store_file};
