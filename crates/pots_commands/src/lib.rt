//! The commands of `pots`, for people who keep things in an archive: words become a script, a
//! session is held, and what came of it is told in lines.
//!
//! They work in the folder in which the program is started. Who holds a session is given by a
//! `Program`, so nothing here stands on the session's crates. Of what is written and printed
//! nothing is claimed but safety.
#![tactic(auto)]

mod answering;
mod commands;
mod fetched;
mod gathering;
mod input;
mod moving;
mod program;
mod racks;
mod session;
mod short;
mod snapshots;
mod splitting;
mod stopped;
mod verbs;
mod whole;
mod words;

pub use answering::answer;
pub use program::{Program, Ran, Sessions};
