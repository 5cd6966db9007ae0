//! The script that a run reads, and the replies that it writes.
//!
//! It turns bytes into commands and replies into bytes. It runs no command and knows no archive,
//! and it reads and writes no file.
//!
//! A script is lines of twelve kinds, and the first word of a line tells its kind. A line ends with
//! LF, and its words are separated by one space. `store NAME LEN` is followed by LEN bytes and one
//! LF, `together N` by a batch of N jobs and `end`, and `quit` by nothing. A number is decimal
//! digits without a sign and without a leading zero, but for `0` itself.
//!
//! 1. Each command is spelled in one way, and no command's text begins another's: `one_reading`.
//! 2. `read_script` answers the commands exactly where the bytes are their text, and the number of
//!    the first line that leaves the grammar exactly where there is one. Only for want of memory it
//!    answers neither.
//! 3. `print_reply`, `print_bad_line` and `print_words_refused` append the whole text or nothing,
//!    and nothing only where the vector had no room for it.
//! 4. In a script each `together N` is followed by N jobs and then `end`: `batches_are_whole`. No
//!    line of the grammar has more than 4,096 bytes: `lines_are_short`.
//! 5. `group_steps` parts the commands before `quit` into steps, each a command alone or the 1 to
//!    1,024 jobs of a batch. The steps have the commands in their order, and none is lost.
#![tactic(auto)]

mod batch;
mod command;
mod cuts;
mod decimal_number;
mod fault;
mod grouping;
mod kind;
mod laws;
mod lines;
mod parts;
mod printing;
mod reading;
mod reply;
mod spelled;
mod words;

pub use command::Command;
pub use cuts::{cut_after, cut_at};
pub use decimal_number::read_number;
pub use fault::ScriptFault;
pub use grouping::{Lines, Step, group_steps};
pub use laws::{batches_are_whole, lines_are_short, one_reading};
pub use parts::{append_digest, append_number};
pub use printing::{print_bad_line, print_reply, print_words_refused};
pub use reading::{LONGEST_SCRIPT, read_script};
pub use reply::{NameList, Reply};
pub use words::Words;
