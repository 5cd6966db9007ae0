//! The machine of a group: the table of its slots, columns and relays, and the entries of the log
//! that change it.
//!
//! It knows no archive and no block: a slot is what the table says of it, and a digest is 32 bytes.
//! It logs nothing itself, and it does not decide what is true of the archives: a caller chooses
//! the entry, and the machine says whether it is legal and what it does.
//!
//! A group has 1 to 16 data columns, C of them, and behind these one parity column P, or two, P and
//! Q. The block of a slot of stripe s stands in slot number s of the archive that serves it.
//!
//! Invariants of every `GroupTable`, kept by its type: `empty`, `from_parts` and `copy` begin with
//! them, and each legal entry keeps them, so that `apply` and `replay` do.
//! 1. There are 1 to 16 data columns, 1 or 2 parity columns, 1 to 4,096 stripes and a slot for each
//!    place (`Parts`, the type of a table's parts; `HasSize`).
//! 2. The cursor is at a data column of a stripe, or at column 0 behind the last stripe
//!    (`HasCursor`; `Parts::pass` and `Parts::skip` alone move it).
//! 3. In each stripe the data slots that are not Void are the first columns, and each parity slot
//!    is Void exactly where all data slots are (`HasVoids`; only the puts fill a slot that is
//!    Void).
//! 4. All slots of the stripes after the cursor's are Void. In the cursor's stripe the data slots
//!    that are not Void are exactly those before the cursor (`HasVoids`).
//! 5. All homes and targets are distinct, and the position of a move is at most the number of
//!    stripes (`HasColumns`; `MoveBegin` and `Swapped` ask `Parts::holder_of`).
//! 6. At most 16 relays stand, in different stripes, and the target of each is Lost or Broken
//!    (`HasRelays`; `Parts::begin` adds one, and only `Mended`, which also ends the relay, makes
//!    its target Live).
//!
//! Of each entry and each log:
//! 7. `legal` is true exactly for the legal entries, and `apply` does what the entry says and no
//!    more (`Legal`, `after`).
//! 8. `replay` applies the longest front of which each entry is legal in turn (`Replayed`).
//! 9. A data slot leaves Void once, by a put, and its digest then never changes. The digest of a
//!    parity slot changes only by a put into its stripe (`machine_laws`).
//! 10. A slot becomes Live only by a put into its stripe, or as the target of a relay that ends
//!     (`machine_laws`).
//! 11. A log leads to a table exactly where each entry is legal in its turn and the log comes to
//!     that table. A data slot then has a digest exactly where it had it before, or a put of the
//!     log filled it with that (`machine_laws`).
//!
//! What becomes of a slot, whose digest stays but where it says otherwise:
//!
//! | slot | put at it | put beside it, for a parity slot | Gone, GaveUp at it, Moved without copy, Swapped | Broke | Mended |
//! |---|---|---|---|---|---|
//! | Void | Live, new digest | Live or Lost, new digest | Void | | |
//! | Live | | Live or Lost, new digest | Lost | Broken | |
//! | Lost | | | Lost | Broken | Live |
//! | Broken | | | Broken | | Live |
//!
//! Where the cursor goes:
//!
//! | cursor | Put, Put2 | Skip |
//! |---|---|---|
//! | stripe s, column c below C-1 | stripe s, column c+1 | stripe s+1, column 0 |
//! | stripe s, column C-1 | stripe s+1, column 0 | stripe s+1, column 0 |
//! | behind the last stripe | | |
#![tactic(auto)]

mod changes;
mod column;
mod cursor;
mod entry;
mod laws;
mod legality;
mod making;
mod parts;
mod relay;
mod slot;
mod table;

pub use column::{Column, Moving};
pub use cursor::Cursor;
pub use entry::Entry;
pub use laws::machine_laws;
pub use pot_bytes::NoMemory;
pub use relay::Relay;
pub use slot::SlotState;
pub use table::GroupTable;
