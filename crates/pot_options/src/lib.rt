//! Options in the words of a command line, each as `--name value` or as `--name=value`.
//!
//! It knows which names there are and no more: what a value must be, and which options are
//! required, is its caller's to say. The words are read by `clap`, to which each option is a plain
//! one with one value; this crate is the only one that sees it.
//!
//! 1. Each option is of the names, is given at most once, and has one value: `read_options`.
//! 2. The order of the options does not matter, and there is no help, no version, no abbreviation,
//!    no short option, and no word beside the options. A word that is just `--` is refused.
//! 3. The answer of words that spell options is their names and values in the order of the words
//!    (`Options`). A value that begins with a hyphen is taken only behind `=`.
#![tactic(auto)]

mod options;
mod reading;

pub use options::Options;
pub use reading::read_options;
