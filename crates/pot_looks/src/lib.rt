//! A look at the file of an archive, without a session, and text as a page of HTML or a sheet of
//! paper has it.
//!
//! It knows no file and no desk: an archive is its bytes, and what should be in it a table says.
//!
//! 1. How many blocks a table calls live in an archive, instead of how many of them another block
//!    is there, and of how many none: `look`.
//! 2. Text is escaped as a page has it: `escape`. What is escaped has no `<`, `>` or `"`, and no
//!    two texts are escaped to one: `escape_laws`.
//! 3. Days by the calendar, `date_text` and `days_between`, and lines of paper, `append_paragraph`.
#![tactic(auto)]

mod dates;
mod escaping;
mod laws;
mod looking;
#[cfg(test)]
mod tests;
mod wrapping;

pub use dates::{date_text, days_between};
pub use escaping::escape;
pub use laws::escape_laws;
pub use looking::{Looked, SLOT, look};
pub use wrapping::append_paragraph;
