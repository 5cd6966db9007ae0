//! The opening of a table: it is not trusted, and the block of every Live slot is read. The slots
//! of a stripe are read first, then their blocks are digested side by side, and only then is it
//! noted which are missing.
ghost use Rattle.std.specs.Prelude.{◌≡◌, ◌<◌, ◌≤◌, ◌+◌, ◌↔◌, [], Bool, IsTrue, length, vec_len};
ghost use Rattle.std.specs.Prelude.{vec_capacity};
ghost use Rattle.pot_bytes.specs.Rack.{log_bound};
ghost use Rattle.pot_machine.specs.Table.{width};
ghost use Rattle.pot_machine.specs.Machine.{InRange};
ghost use Rattle.pot_bytes.specs.Digests.{digest_of};
ghost use Rattle.pot_shelves.specs.Shelves.{Shelves, plain, OnShelves};
ghost use Rattle.pot_shelves.specs.Opening.{HasArchives, is_held, ReadsSlot, OpensSlot};
ghost use Rattle.pot_shelves.specs.Opening.{OpensColumns, OpensStripe};
ghost use Rattle.pot_shelves.specs.Opening.{Opens, short_by, first_by, second_by};
ghost use Rattle.pot_machine.specs.declared.entry.Entry.TheVariants.{Broke};

use crate::archives::Archives;
use crate::filling::{Breaking, broken};
use crate::noting::note;
use crate::parities::Parity;
use crate::slots::{Reading, StripeReads, read_stripe};
use pot_bytes::{Block, Digest, block_law, fold_weighted};
use pot_machine::{Entry, GroupTable, SlotState};
use pot_outside::Archive;
use pot_steps::q_weight;

/// What one slot gives to the sums of its stripe.
#[derive(Clone, Copy)]
pub(crate) enum Part {
    /// The slot is Void.
    Empty,
    /// The slot is Live, and its block was read.
    Present,
    /// The slot is Lost, or its block is missing.
    Missing(Digest),
    /// The slot is Broken.
    Broken,
}

/// Which slots of a stripe gave no block.
#[derive(Clone, Copy)]
pub(crate) enum Shortage {
    /// None: each is Void, or its block was read.
    Nothing,
    /// One, which is not Broken.
    One {
        column: u8,
        digest: Digest,
    },
    /// Two, of which none is Broken, in ascending order.
    Two {
        column: u8,
        digest: Digest,
        other: u8,
        other_digest: Digest,
    },
    /// Three or more, or a Broken one.
    More,
}

/// Opens every stripe of a table over its archives, in ascending order: what is missing or does not
/// fit its stripe is logged by job 0, as the crate's page tells. Each home and each target of the
/// table is one of the archives, and the log begins empty, with room for 262,144 entries; no more
/// memory is taken.
pub fn open_all<A: Archive>(
    table: &mut GroupTable,
    log: &mut Vec<Entry>,
    archives: &mut Archives<A>,
)
    requires log { log.old.items ≡ [] }
    requires room { log_bound ≤ vec_capacity log.old }
    requires archives { HasArchives table.old (plain A.account.meaning archives.old).numbers }
    ensures opens { OnShelves A.account
        (λ told. Opens told table.old.stripes table.old table.new log.new.items)
        archives.old archives.new }
    ensures room { log_bound ≤ vec_capacity log.new }
    ensures bound { length log.new.items ≤ log_bound }
{
    let mut reads = StripeReads::nothing();
    for stripe in 0..table.stripes() {
        open_stripe(table, log, archives, &mut reads, stripe);
    }
}

/// Reads a stripe, and notes first each slot whose block is missing, and then those that its stripe
/// does not give back.
fn open_stripe<A: Archive>(
    table: &mut GroupTable,
    log: &mut Vec<Entry>,
    archives: &mut Archives<A>,
    reads: &mut StripeReads,
    stripe: u32,
)
    requires stripe { stripe < table.old.stripes }
    requires room { vec_len log.old + 20 ≤ vec_capacity log.old }
    requires archives { HasArchives table.old (plain A.account.meaning archives.old).numbers }
    ensures opens { OnShelves A.account
        (λ told. OpensStripe told stripe table.old table.new log.old.items log.new.items)
        archives.old archives.new }
    ensures capacity { vec_capacity log.old ≤ vec_capacity log.new }
    ensures bound { length log.new.items ≤ length log.old.items + 20 }
{
    let data_columns = table.data_columns();
    let parity_columns = table.parity();
    let mut sums = Parity::zero();
    let shortage = open_columns(table, log, archives, reads, stripe, &mut sums);
    match broken(shortage, &sums, data_columns, parity_columns) {
        Breaking::Nothing => {}
        Breaking::One { column } => note(table, log, broke(stripe, column)),
        Breaking::Both { column, other } => {
            note(table, log, broke(stripe, column));
            note(table, log, broke(stripe, other));
        }
    }
}

/// The entry of a slot that breaks.
fn broke(stripe: u32, column: u8) -> Entry
    ensures { result ≡ Broke 0 stripe column }
{
    Entry::Broke {
        job: 0,
        stripe,
        column,
    }
}

/// Reads the columns of a stripe in ascending order, and sums up the blocks that they gave, by both
/// equations.
fn open_columns<A: Archive>(
    table: &mut GroupTable,
    log: &mut Vec<Entry>,
    archives: &mut Archives<A>,
    reads: &mut StripeReads,
    stripe: u32,
    sums: &mut Parity,
) -> Shortage
    requires stripe { stripe < table.old.stripes }
    requires room { vec_len log.old + width table.old ≤ vec_capacity log.old }
    requires archives { HasArchives table.old (plain A.account.meaning archives.old).numbers }
    ensures opens { OnShelves A.account
        (λ told. OpensColumns told (width table.old) stripe table.old table.new
        log.old.items log.new.items result sums.new.first sums.new.second) archives.old
        archives.new }
    ensures capacity { vec_capacity log.old ≤ vec_capacity log.new }
{
    *sums = Parity::zero();
    let data_columns = table.data_columns();
    let parity_columns = table.parity();
    let mut shortage = Shortage::Nothing;
    read_stripe(table, archives, stripe, reads);
    for column in 0..data_columns + parity_columns {
        let place = column as usize;
        let reading = &reads.readings[place];
        let part = open_slot(table, log, reading, reads.digests[place], stripe, column);
        shortage = add_part(shortage, column, part);
        add_block(
            sums,
            part,
            &reading.block,
            column,
            data_columns,
            parity_columns,
        );
    }
    shortage
}

/// Notes Gone of a slot that is Live and whose read gave no block of its digest. `digest` is that
/// of the block that it gave.
fn open_slot(
    table: &mut GroupTable,
    log: &mut Vec<Entry>,
    reading: &Reading,
    digest: Digest,
    stripe: u32,
    column: u8,
) -> Part
    requires range { InRange table.old stripe column }
    requires room { vec_len log.old < vec_capacity log.old }
    requires digest { IsTrue (is_held reading.now.answer) → digest ≡ digest_of reading.now.block }
    ensures opens { (tells : Bool) (old new : Shelves)
        → ReadsSlot (IsTrue tells) stripe column table.old reading.now old new
        → OpensSlot (IsTrue tells) stripe column table.old table.new log.old.items log.new.items
        result reading.now.block old new }
    ensures capacity { vec_capacity log.old ≤ vec_capacity log.new }
{
    let wanted = match table.slot(stripe, column) {
        SlotState::Void => return Part::Empty,
        SlotState::Lost(digest) => return Part::Missing(digest),
        SlotState::Broken(_) => return Part::Broken,
        SlotState::Live(digest) => digest,
    };
    if is_sound(reading, digest, wanted) {
        block_law(&reading.block);
        return Part::Present;
    }
    let entry = Entry::Gone {
        job: 0,
        stripe,
        column,
    };
    note(table, log, entry);
    Part::Missing(wanted)
}

/// Whether a read gave a block of the digest that is wanted. `digest` is that of the block that it
/// gave.
fn is_sound(reading: &Reading, digest: Digest, wanted: Digest) -> bool
    requires digest { IsTrue (is_held reading.now.answer) → digest ≡ digest_of reading.now.block }
    ensures { IsTrue result ↔ IsTrue (is_held reading.now.answer)
        × (digest_of reading.now.block ≡ wanted) }
{
    reading.is_held() && digest == wanted
}

/// One part more.
fn add_part(shortage: Shortage, column: u8, part: Part) -> Shortage
    ensures { result ≡ short_by shortage column part }
{
    match part {
        Part::Empty => shortage,
        Part::Present => shortage,
        Part::Missing(missing) => match shortage {
            Shortage::Nothing => Shortage::One {
                column,
                digest: missing,
            },
            Shortage::One {
                column: first,
                digest,
            } => Shortage::Two {
                column: first,
                digest,
                other: column,
                other_digest: missing,
            },
            Shortage::Two { .. } => Shortage::More,
            Shortage::More => Shortage::More,
        },
        Part::Broken => Shortage::More,
    }
}

/// The block of a slot, where it gave one, is added to the sums.
fn add_block(
    sums: &mut Parity,
    part: Part,
    block: &Block,
    column: u8,
    data_columns: u8,
    parity_columns: u8,
)
    ensures first { sums.new.first ≡ first_by data_columns column part sums.old.first block.now }
    ensures second { parity_columns ≡ 2 →
        sums.new.second ≡ second_by data_columns column part sums.old.second block.now }
{
    if let Part::Present = part {
        if column <= data_columns {
            sums.first.xor(block);
        }
        if parity_columns == 2 {
            fold_weighted(&mut sums.second, q_weight(data_columns, column), block);
        }
    }
}
