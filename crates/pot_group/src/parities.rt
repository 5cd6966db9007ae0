//! The parity blocks of a stripe: their old blocks are read, and their new ones are made and
//! written.
ghost use Rattle.std.specs.Prelude.{◌≡◌, ◌<◌, ◌≤◌, ℕ, IsTrue, Contains};
ghost use Rattle.pot_bytes.specs.Sums.{xor};
ghost use Rattle.pot_bytes.specs.Weighted.{scaled};
ghost use Rattle.pot_gf.specs.Field.{power};
ghost use Rattle.pot_machine.specs.Table.{width, serving_at};
ghost use Rattle.pot_shelves.specs.Shelves.{plain, numbers_of, OnShelves};
ghost use Rattle.pot_group.specs.Putting.{WritesPut, made_entry};

use crate::group::Group;
use crate::known::Known;
use crate::reads::Found;
use pot_bytes::{Block, fold_weighted};
use pot_machine::{Cursor, Entry, GroupTable, SlotState};
use pot_outside::{Archive, Failed};
use pot_shelves::{Archives, Parity};
use pot_steps::power_of_three;

/// Which parity blocks were written. Where there is one parity column the second counts as written.
#[derive(Clone, Copy)]
pub(crate) struct Kept {
    pub(crate) first: bool,
    pub(crate) second: bool,
}

/// What a read of the old parity blocks of a stripe came to.
#[derive(Clone, Copy)]
pub(crate) enum Checked {
    /// Each was read.
    Sound,
    /// The slot of this parity column has no block of its digest.
    Missing { column: u8 },
    /// The archive of this parity column failed.
    NotRead { column: u8 },
}

impl<A: Archive> Group<A> {
    ghost use Rattle.pot_group.specs.Group.{OnGroup, with_archives};
    ghost use Rattle.pot_group.specs.Putting.{ReadsOld, ReadsSecond, ReadsParity};

    /// Reads the old parity blocks of a stripe, in order, up to the first that it does not get.
    pub(crate) fn read_parity(&mut self, stripe: u32, old: &mut Parity) -> Checked
        requires stripe { stripe < self.old.table.stripes }
        ensures same { self.new ≡ with_archives self.old self.new.shelves }
        ensures reads { OnGroup A.account
            (λ told. ReadsParity told stripe old.new.first old.new.second result) self.old
            self.new }
    {
        let column = self.table.data_columns();
        match self.read_old(stripe, column, &mut old.first) {
            Found::Sound => self.read_second(stripe, &mut old.second),
            Found::Missing => Checked::Missing { column },
            Found::NotRead => Checked::NotRead { column },
        }
    }

    /// Reads the old block of Q, where there is one.
    fn read_second(&mut self, stripe: u32, old: &mut Block) -> Checked
        requires stripe { stripe < self.old.table.stripes }
        ensures same { self.new ≡ with_archives self.old self.new.shelves }
        ensures reads { OnGroup A.account (λ told. ReadsSecond told stripe old.new result) self.old
            self.new }
    {
        if self.table.parity() == 1 {
            return Checked::Sound;
        }
        let column = self.table.data_columns() + 1;
        match self.read_old(stripe, column, old) {
            Found::Sound => Checked::Sound,
            Found::Missing => Checked::Missing { column },
            Found::NotRead => Checked::NotRead { column },
        }
    }

    /// Reads the old block of a parity slot: zeros where the slot is Void.
    fn read_old(&mut self, stripe: u32, column: u8, old: &mut Block) -> Found
        requires stripe { stripe < self.old.table.stripes }
        requires column { column < width self.old.table }
        ensures same { self.new ≡ with_archives self.old self.new.shelves }
        ensures reads { OnGroup A.account (λ told. ReadsOld told stripe column old.new result)
            self.old self.new }
    {
        match self.table.slot(stripe, column) {
            SlotState::Void => {
                *old = Block::zero();
                Found::Sound
            }
            SlotState::Live(digest) => self.read_slot(stripe, column, digest, old),
            SlotState::Lost(_) => Found::Missing,
            SlotState::Broken(_) => Found::Missing,
        }
    }
}

/// The parity blocks after a put of a block at a data column of a stripe with so many parity
/// columns.
pub(crate) fn after_put(old: &Parity, block: &Block, column: u8, parity_columns: u8) -> Parity
    ensures first { result.first ≡ xor old.now.first block.now }
    ensures second { parity_columns ≡ 2
        → result.second ≡ xor old.now.second (scaled (power 3 column) block.now) }
{
    let mut new = *old;
    new.first.xor(block);
    if parity_columns == 2 {
        fold_weighted(&mut new.second, power_of_three(column), block);
    }
    new
}

/// Writes a block at the cursor, and then the new parity blocks of its stripe, the second one even
/// where the first failed. None where the block itself was not written; no parity block is written
/// then.
pub(crate) fn write_put<A: Archive>(
    archives: &mut Archives<A>,
    table: &GroupTable,
    block: &Block,
    parity: &Parity,
) -> Option<Kept>
    requires served { (c : ℕ) → c < width table.now
        → Contains (plain A.account.meaning archives.old).numbers
        (serving_at table.now table.now.cursor.stripe c) }
    ensures { OnShelves A.account
        (λ told. WritesPut told table.now block.now parity.now.first parity.now.second result)
        archives.old archives.new }
{
    let Cursor { stripe, column } = table.cursor();
    let home = table.archive_of(stripe, column);
    if let Err(Failed) = archives.write(home, stripe, block) {
        return None;
    }
    let last = table.data_columns();
    let first = archives.write(table.archive_of(stripe, last), stripe, &parity.first);
    if table.parity() == 1 {
        return Some(Kept {
            first: first.is_ok(),
            second: true,
        });
    }
    let second = archives.write(table.archive_of(stripe, last + 1), stripe, &parity.second);
    Some(Kept {
        first: first.is_ok(),
        second: second.is_ok(),
    })
}

/// The entry of a put at this place, in a group with so many parity columns.
pub(crate) fn put_entry(
    known: &mut Known,
    parity_columns: u8,
    job: u32,
    cursor: Cursor,
    block: &Block,
    parity: &Parity,
    kept: Kept,
) -> Entry
    ensures { result ≡ made_entry parity_columns job cursor.stripe cursor.column block.now
        parity.now.first parity.now.second kept.first kept.second }
{
    let Cursor { stripe, column } = cursor;
    let digest = known.meet(block);
    let parity_digest = known.learn(&parity.first);
    if parity_columns == 1 {
        return Entry::Put {
            job,
            stripe,
            column,
            digest,
            parity_digest,
            kept: kept.first,
        };
    }
    Entry::Put2 {
        job,
        stripe,
        column,
        digest,
        parity_digest,
        second_digest: known.digest(&parity.second),
        kept: kept.first,
        kept2: kept.second,
    }
}
