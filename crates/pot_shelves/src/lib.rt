//! Several archives by their numbers, and the opening of a table over them.
//!
//! `Archives` are what a group stands on. Each call names one of them by its number, and does to it
//! what the call of that archive does. Contracts see them as plain data by number: the blocks held,
//! the sums heard, the counts now, when each archive was taken and when the table had been opened
//! (`Shelves`, by `plain`). What a call does is a relation of that data before and after it
//! (`OnShelves`).
//!
//! `open_all` brings a table and its archives together. No table is trusted: the block of every
//! Live slot is read, and it is logged by job 0 what is missing and what does not fit its stripe.
//! `note` logs an entry and does it in the table.
//!
//! It knows no file and no thread, decides no put, relay or move, and takes memory at `take` and
//! `bring` alone. All is said of a table with one parity column and of one with two.
//!
//! What `Archives` keep:
//! 1. Each archive has a mark, its counts of faults and losses as it was taken or brought (the
//!    invariant of the type; `IsTaken`, `Brings`). An archive that does not tell what it holds has
//!    no mark of losses. `mark_opened` marks the counts once more, after the opening
//!    (`IsOpenedNow`).
//! 2. Their numbers and their order stay, and so do the marks; `bring` adds an archive at the end,
//!    and `hand_out` gives all back in that order (`Keeps`). Of archives with one number the first
//!    counts.
//! 3. No count of faults falls, and a call fails only where that of its archive rose (`Keeps`,
//!    `cause`).
//! 4. The other archives hold what they held, but for losses, and hear nothing (`Stays`, `others`,
//!    `FoldsAt`, `WritesAt`).
//!
//! What an opening keeps, stripe by stripe:
//! 1. The log leads from the table that was read to the table now (`replay`; entries are logged by
//!    `note`), and only slots change.
//! 2. The archives stay, and hold what they held but for losses.
//! 3. What was read was held. A slot logged Gone whose read did not fail has no block of its digest
//!    at the end, and an archive failed at least as often as reads of it did, unless its count
//!    stands at its last value (`missing`, `few`).
//!
//! What an opening makes of a stripe, after a Gone for each Live slot that gave no block of its
//! digest:
//!
//! | slots that are not Void and gave no block | the blocks that were read | Broke |
//! |---|---|---|
//! | none | add up to zeros in each equation | |
//! | none | do not | each parity slot |
//! | no more than there are parity columns, none Broken | give each of them a block of its digest, by all equations | |
//! | the same | do not | each of them |
//! | more, or one that is Broken | any | |
//!
//! The equations of a stripe, with zeros for a slot that is Void: the XOR of its data blocks and of
//! the parity block P is zeros, and where there are two parity columns, so is the XOR of 3^c times
//! the block of each data column c and of the parity block Q.
#![tactic(auto)]

mod archives;
mod filling;
mod noting;
mod opening;
mod parities;
mod slots;

pub use archives::Archives;
pub use noting::note;
pub use opening::open_all;
pub use parities::Parity;
