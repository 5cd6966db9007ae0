//! What a program for people says to a session and hears of it: scripts that are written, replies
//! that are read, and files that are cut into parts.
//!
//! It opens no file and holds no session.
//!
//! 1. What `write_script` writes is the script of the commands that it was given: a session reads
//!    them and no others.
//! 2. The text of each reply is read as that reply, and no other bytes are read: `Replies::next`,
//!    `read_replies`. No reply's text begins another's: `one_reply`.
//! 3. The parts of a file joined are the file (`parts_are_whole`).
//! 4. Each part of each file has a name of its own, which no file has whose name does not end as
//!    that of a part: `part_name`, `names_of_parts`.
#![tactic(auto)]

mod digests;
mod fields;
mod groups;
mod kind;
mod laws;
mod lines;
mod naming;
mod parts;
mod rare;
mod replies;
mod script;

pub use digests::read_digest;
pub use laws::{names_of_parts, one_reply};
pub use naming::{LAST_PART, ends_as_part, part_name, read_part_name};
pub use parts::{PART_SIZE, count_parts, part, parts_are_whole};
pub use replies::{Replies, read_replies};
pub use script::write_script;
