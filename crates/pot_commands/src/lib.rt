//! The commands of a session's script, worked step after step over a vault, and their replies.
//!
//! It reads no script, starts no vault and closes none.
//!
//! 1. Each command is one job, numbered from 1, and works for that job alone (`JobWroteOnly`).
//! 2. Each reply is the one that the job's own entries give by the table of replies
//!    (specs/Rows.antt), if nobody else logged anything meanwhile: who closes the vault learns that
//!    from the close.
//! 3. An archive that a command asks for is taken from the room when the command is worked, or of a
//!    line of a batch when its move begins, and comes to a group or is given back at once (`Took`).
//!    Who closes the vault gives back those that came.
//! 4. The replies of a command are written after it, and in order. What is written is their text;
//!    where the sink failed or memory ran out, specs/Ends.antt says how far it came.
//! 5. The moves of a batch begin in the order of its lines, before any of its jobs (`begin_lines`).
//! 6. The lines of a batch are then worked at once, each as a job with passes of its own, and their
//!    replies stand in the order of the lines (`answer_together`). Each is judged on what all of
//!    them logged (`batch_laws`).
#![tactic(auto)]

mod answering;
mod arriving;
mod batching;
mod beginning;
mod files;
mod laws;
mod line_job;
mod listing;
mod moving;
mod output;
mod sharing;
mod working;

pub use laws::batch_laws;
pub use output::write_out;
pub use sharing::{Crew, Shared};
pub use working::{Ending, work};
