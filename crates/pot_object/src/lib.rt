//! The pieces of a file in bytes: an object carries one piece with its place in the file, a content
//! one fragment of an object. Each is sealed by a SHA-256 digest over all its other bytes.
//!
//! It knows no archive, no share and no randomness, and it keeps nothing. Only `assemble` takes
//! memory.
//!
//! Each format is one definition of the bytes by the value, and what is read is exactly what is
//! written:
//! 1. an object is `object_bytes` of its head and its part of the file: `write_object`,
//!    `read_object`;
//! 2. a content is `content_bytes` of its head and its fragment: `write_content`, `read_content`;
//! 3. the objects of all pieces of a file are those of no other: `assemble`, `assemble_laws`.
#![tactic(auto)]

mod assembly;
mod content;
mod object;
mod pieces;
mod sealing;
#[cfg(test)]
mod tests;

pub use assembly::{AssembleFault, assemble, assemble_laws};
pub use content::{FragmentHead, content_laws, read_content, write_content};
pub use object::{ObjectHead, object_laws, read_object, write_object};
pub use pieces::{CONTENT, LONGEST, OBJECT, PIECE, TooLong, count_pieces, cut_file};
