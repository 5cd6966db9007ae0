//! The image of a desk: the tables, records and logs that it keeps between two sessions, as bytes.
//!
//! It knows no desk, no session and no archive, and it does not look whether a log replays to its
//! table.
//!
//! An image is a grammar of fields one after another (`specs/Fields.antt`): the head, the tables,
//! the records and the logs. There are two formats. Both are read, and the second is written.
//! 1. Bytes are an image exactly where their fields are those of the grammar, behind a front that
//!    says how many they are and before a trailer that is their digest (`read_image`).
//! 2. Else the answer says which comes first: fewer than 48 bytes, another front, the number of no
//!    format, fewer or more bytes than stated, another digest, or the place of the first field that
//!    breaks its rule or does not end, or the end of bytes left (`read_image`).
//! 3. The parts of what was read fit together, so that groups and an index can begin with them
//!    (`read_image`).
//! 4. What is written is the text of the fields and its digest (`write_image`), and it is read back
//!    (`image_laws`).
//! 5. In each format an image has one spelling, and in the second it is what is written
//!    (`image_laws`).
#![tactic(auto)]

mod columns;
mod entries;
mod entry_writing;
mod fault;
mod fields;
mod format;
mod head;
mod image;
mod image_writing;
mod index_entries;
mod index_writing;
mod laws;
mod logs;
mod names;
mod places;
mod reading;
mod records;
mod slots;
mod tables;
mod writing;

pub use fault::ImageFault;
pub use image::Image;
pub use image_writing::write_image;
pub use laws::{GrammarShape, field_laws, image_laws};
pub use reading::read_image;
