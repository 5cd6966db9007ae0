//! Looking at a vault without a session: what its archives have of the blocks that the desk calls
//! live, when it was last looked at, its shape on paper and as a page, and a desk that is put back.
//!
//! It holds no session and starts no thread. Of what it reads, writes and prints nothing is claimed
//! but safety. The counting, days by the calendar and the lines of text are `pot_looks`.
#![tactic(auto)]

mod clock;
mod habits;
mod picture;
mod reading;
mod restoring;
mod sheet;
mod verifying;
mod where_they_lie;

pub use habits::{Habit, remember, tell_habits};
pub use picture::{SeenBy, page_text};
pub use restoring::restore;
pub use sheet::sheet_text;
pub use verifying::verify_archives;
