//! A group of archives under parity: the opening of its table, puts, looks and counts, relays,
//! moves and swaps.
//!
//! A group has a table of `pot_machine`, the archives that serve its columns, and the log of one
//! session. Each change of the table is an entry that is logged and applied at once. No table is
//! trusted: `start` reads the block of every Live slot, and logs what is missing and what does not
//! fit its stripe.
//!
//! Relays rebuild slots that are Lost or Broken, a column moves to another archive stripe by
//! stripe, and an archive is replaced, while puts and looks go on. It knows no file, no thread and
//! no name, stores no table and no log, and does not choose the group that a block goes to. It
//! takes memory at `start`, `move_begin` and `swap` alone. A group has one parity column or two,
//! and every call holds for both. A call that logs takes a job above 0, since job 0 is the
//! opening's. Digests that are known already (`expect`, and those of the last put) are not taken
//! anew; that changes no answer.
//!
//! The equations of a stripe, with zeros for a slot that is Void: the XOR of its data blocks and of
//! the parity block P is zeros, and where there are two parity columns, so is the XOR of 3^c times
//! the block of each data column c and of the parity block Q. A put of a block D at column c fills
//! a slot that is Void, so the new parity blocks are P XOR D and Q XOR 3^c times D. D is written
//! first: where its write fails, the slot is still Void, and P and Q stay.
//!
//! Invariants of every `Group`, kept by its type (`IsSettled`); `end` hands them out as `settled`:
//! 1. The log replays from the table that was read to the table now (`replay`; an entry is logged
//!    where it is applied, by `note` of `pot_shelves` or beside a pure step of `pot_steps`).
//! 2. The table keeps the rules of `pot_machine` (`table`), and its numbers of columns and of
//!    stripes stay (`sizes`).
//! 3. There is a flight for each relay, in the same order (`relays`; `start` asks for no relay),
//!    and the law of each flight holds (`flying`).
//! 4. The log has at most 262,144 entries (`bound`; each call that logs looks first, and `start`
//!    takes all that memory).
//! 5. Each home and each target of a column is an archive of the group (`shelves`; `start` asks for
//!    it), and one that this column has had (`serves`). An archive that was retired stays, and
//!    serves no slot.
//! 6. No count of faults or losses is below its mark, which the `Archives` of `pot_shelves` note
//!    when the archive comes (`faults`, `losses`), nor below the one that they note when the table
//!    has been opened (`opened_faults`, `opened_losses`).
//! 7. The law of every stripe: where no slot is Broken and a relay stands or no more slots are Lost
//!    than there are parity columns, there is a filling, which gives each slot a block of its
//!    digest, the one held where the slot is sound, and adds up to zeros (`holds`, by
//!    `StripesConsistent` of `pot_steps`). `start` makes it hold, every entry keeps it, and a loss
//!    breaks none.
//! 8. The law of the Live slots: the archive that serves one holds a block of its digest, or its
//!    count of losses rose above the mark (`live`). `start` makes it hold, and so do `put`,
//!    `advance` and `move_step` for the slots that they write.
//! 9. The cause law (`causes`). The log names no more faults of a column than its archives counted
//!    above their marks, unless one of these counts stands at its last value. A Live slot of a
//!    column was called missing, by a Gone but of job 0, a GaveUp or a Moved without a copy, only
//!    where the count of losses of one of its archives rose above the mark.
//! 10. The archives of the group are those of the table that it began with, and then those that its
//!    log brought, in order (`HasArrived`; `start` asks for the first, and `move_begin` and `swap`
//!    bring the others). `end` hands out all of them.
//! 11. The frame (`frame`). Each block that an archive holds or ever held was there at its taking,
//!    or an entry may have written it; and each slot that had a block then has one, unless the log
//!    tells of a failed write there or the archive's count of losses rose (`frame_laws`). The entry
//!    of a put whose own write failed names no digest. So the group keeps that block, with its
//!    place in the log (`tried`), and no other may stand in that slot.
//!
//! `flying`, 7, 8, 11 and the losses of 6 and 9 are said of archives that tell what they hold, and
//! all else always.
//!
//! `start` opens the table by `open_all` of `pot_shelves`, whose page tells what it makes of a
//! stripe, and marks the counts once more. A slot is Gone that was sound before only where a count
//! of its archive rose between its two marks (`rose` of `Begins`).
//!
//! What the other calls log. LogFull comes first, with no entry, where the log is full (`sweep`
//! tells End there where no slot is Live from its place on):
//!
//! | call | entries | answer |
//! |---|---|---|
//! | `put` | for each stripe that it passes Skip, or Gone of its first parity slot without its block and Skip; then one of these: | |
//! | | Put, or Put2 with two parity columns | the place |
//! | | Put or Put2 with a parity block that was not kept | Faulted, of the first such parity column |
//! | | Fault | Faulted, of the column whose write or read failed |
//! | | none, behind the last stripe | Full |
//! | | none, or that Gone, where the next one has no room | LogFull |
//! | `look` | Seen, Gone or Fault | the same, and the block where it is Seen |
//! | `sweep` | Seen or Gone for each of up to four Live slots, and Fault where an archive failed; none where no slot is Live | how many were seen and how many are gone, and how far it came |
//! | `count` | Counted | how many slots are Live, Lost and Broken, and the cursor |
//! | `begin` | Begin, or Stuck, or none | whether a relay began, and why not |
//! | `advance` | Hop, GaveUp, Mended or Oddly of the stripe's relay, Fault, or none where no relay stands | what it came to |
//! | `mend` | as `begin`, or as `advance` of the relay in its way | the same |
//! | `move_begin` | MoveBegin, or none | whether the archive was taken, and why not |
//! | `move_step` | Moved, MoveEnd, Fault, or none where the column does not move | what it came to |
//! | `swap` | Swapped, or none | how many slots were Live, or why the archive was not taken |
//! | `next`, `has_slot`, `use_of`, `trace`, `standing`, `logged`, `end`, `expect` | none | what they read |
#![tactic(auto)]

mod answers;
mod beginning;
mod copying;
mod counting;
mod finding;
mod group;
mod known;
mod lanes;
mod laws;
mod looking;
mod moving;
mod parities;
mod putting;
mod reads;
mod relaying;
mod standing;
mod sweeping;
mod telling;
mod tried;
mod uses;

pub use answers::{Looked, PutFault};
pub use beginning::{StartRefused, are_homes};
pub use copying::{MoveFault, MoveStep};
pub use counting::Counts;
pub use finding::Kind;
pub use group::{Ended, Group};
pub use laws::frame_laws;
pub use moving::{ShelfCause, ShelfRefused};
pub use relaying::{AdvanceFault, Advanced, BeginFault, Mend};
pub use standing::Standing;
pub use sweeping::{Reached, Swept};
pub use telling::LogFull;
pub use uses::{HomeAt, Role, Trace, Use};
