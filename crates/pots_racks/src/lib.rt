//! Racks under one vault: their numbers and folders, the text that names them, and which of them
//! a file goes to.
//!
//! A rack is a whole vault with a desk and archives of its own. It opens no file: `pots` does.
//!
//! 1. What is written is read back, and what is read has just this text: `read_vault`.
//! 2. A name that stands in a rack goes to no other: `choose`.
//! 3. Else the first rack with room gets it, and none only where none has: `choose`.
#![tactic(auto)]

mod catalog;
mod catalog_reading;
mod choosing;
mod laws;
mod naming;
mod numbers;
mod sections;
#[cfg(test)]
mod tests;
mod vault_file;

pub use catalog::{CATALOG_FILE, Line, Listed, RackDesk, catalog_text};
pub use catalog_reading::{may_be_catalog, read_catalog};
pub use choosing::{Choice, choose};
pub use laws::{catalog_laws, vault_laws};
pub use naming::{are_of_racks, begins_with_rack, names_one, part_for};
pub use numbers::{MOST_RACKS, folder_of, read_rack};
pub use sections::section_of;
pub use vault_file::{VAULT_FILE, is_of_other_version, read_vault, vault_text};
