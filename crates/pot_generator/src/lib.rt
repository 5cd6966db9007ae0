//! The generator: for each number from 1 to 1,000,000 one script over one rack, which tries out
//! each kind of work on 24 files.
//!
//! It holds no session and knows no reply. Whoever runs the script does so over new archives.
//!
//! 1. Which commands the script of a number has is said by a definition (`generated`), and
//!    `generate_script` writes their text.
//! 2. A session over the generator's rack reads just these commands (`generate_script`, by its
//!    clause `reads`).
//! 3. The rack is one of the rules (`generator_rack`), and the seed of the run is the number
//!    (`generator_seed`).
#![tactic(auto)]

mod commands;
mod files;
mod run;
mod script;

pub use run::{generator_rack, generator_replies, generator_seed, generator_workers};
pub use script::generate_script;
