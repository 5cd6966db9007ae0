//! What a coalition of columns is told of stored files by the blocks that it holds and the sums
//! that it hears.
//!
//! It knows records, which say where blocks stand, and tables, which say which slots have any. It
//! knows no archive and no block.
//!
//! A coalition has some columns of some groups. A group is open to it where it has two of its
//! columns, or a parity column. A point of a fragment is exposed where its group is open, or its
//! column is the coalition's (`is_exposed`).
//!
//! 1. For each split and piece of a record, `audit_record` answers the first fragment with the
//!    fewest exposed points, and how many these are (`AreVeils`).
//! 2. Where each of these numbers is below what the split needs, the coalition sees nothing that
//!    tells the file from any other of its length: `hiding_laws`, over every run of the world of
//!    `pot_world`. The other file has other random bytes, one for one.
//! 3. The other run has other blinds too, one for one: `blind_laws`.
//! 4. A block is loose where a slot has it and no split of any record names it. `loose_columns`
//!    counts these by the tables, in each data column that is exposed (`Loose.antt`).
#![tactic(auto)]

mod auditing;
mod coalition;
mod laws;
mod loose;
mod spot;
mod veil;

pub use auditing::audit_record;
pub use laws::{blind_laws, hiding_laws};
pub use loose::{Loose, loose_columns};
pub use spot::Spot;
pub use veil::{Veil, Veils};
