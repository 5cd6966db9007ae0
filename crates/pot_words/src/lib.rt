//! The words of the command line, and the one task that they spell.
//!
//! It turns words into values and does nothing else: it reads no desk, and whether a task can be
//! done is for others to find out.
//!
//! The first word is the command. The rest are its options, each at most once, in any order, as
//! `--name value` or as `--name=value`. A number is decimal digits without a sign and without a
//! leading zero, but for `0` itself. There is no help and no other flag.
//!
//! 1. `read_words` answers the only task that the words spell, and `None` exactly where they spell
//!    none. Want of memory is an answer apart.
//! 2. A task's values are within the limits: a rack that is read fits.
#![tactic(auto)]

mod audit;
mod command;
mod drill;
mod generate;
mod init;
mod numbers;
mod points;
mod reading;
mod recover;
mod run;
mod spot;
mod spots;
mod task;
mod values;

pub use audit::Audit;
pub use drill::Drill;
pub use reading::read_words;
pub use recover::{Recover, Way};
pub use run::Run;
pub use spot::Spot;
pub use task::Task;
