//! The reads of the slots of one stripe, and the digests of the blocks that they gave, taken four
//! at a time.
ghost use Rattle.std.specs.Prelude.{◌≡◌, ◌<◌, ◌≤◌, ◌+◌, IsTrue, Contains};
ghost use Rattle.pot_machine.specs.Table.{width, serving_at};
ghost use Rattle.pot_machine.specs.Machine.{InRange};
ghost use Rattle.pot_shelves.specs.Shelves.{plain, OnShelves};
ghost use Rattle.pot_shelves.specs.Opening.{HasArchives, is_held, ReadsSlot, ReadsColumns};
ghost use Rattle.pot_shelves.specs.Opening.{AreDigests};

use crate::archives::Archives;
use pot_bytes::{Block, Digest, digest_of};
use pot_machine::{GroupTable, SlotState};
use pot_outside::{Archive, Failed, Held};
use pot_sealed::digests_of_four;

/// The slots that there is room for: those of the widest stripe, 18, in fours.
const PLACES: usize = 20;

/// The read of one slot.
#[derive(Clone, Copy)]
pub(crate) struct Reading {
    /// What the archive answered. A slot that is not Live is not read.
    pub(crate) answer: Option<Result<Held, Failed>>,
    /// The block, where the archive gave one.
    pub(crate) block: Block,
}

impl Reading {
    /// No read.
    fn nothing() -> Reading {
        Reading {
            answer: None,
            block: Block::zero(),
        }
    }

    /// Whether the archive gave a block.
    pub(crate) fn is_held(&self) -> bool
        ensures { result ≡ is_held self.now.answer }
    {
        matches!(&self.answer, Some(Ok(Held::Held)))
    }
}

/// The reads of a stripe's slots by their columns, and the digests of the blocks that they gave.
#[derive(Drop)]
pub(crate) struct StripeReads {
    pub(crate) readings: [Reading; PLACES],
    pub(crate) digests: [Digest; PLACES],
}

impl StripeReads {
    /// No reads.
    pub(crate) fn nothing() -> StripeReads {
        StripeReads {
            readings: [Reading::nothing(); PLACES],
            digests: [Digest { bytes: [0; 32] }; PLACES],
        }
    }
}

/// Reads the block of each slot of a stripe that is Live, in ascending order of the columns, and
/// then digests them.
pub(crate) fn read_stripe<A: Archive>(
    table: &GroupTable,
    archives: &mut Archives<A>,
    stripe: u32,
    reads: &mut StripeReads,
)
    requires stripe { stripe < table.now.stripes }
    requires archives { HasArchives table.now (plain A.account.meaning archives.old).numbers }
    ensures reads { OnShelves A.account
        (λ told. ReadsColumns told (width table.now) stripe table.now reads.new.readings)
        archives.old archives.new }
    ensures digests { AreDigests 20 reads.new.readings reads.new.digests }
{
    read_columns(table, archives, stripe, &mut reads.readings);
    digest_all(&reads.readings, &mut reads.digests);
}

/// Reads the block of each slot of a stripe that is Live.
fn read_columns<A: Archive>(
    table: &GroupTable,
    archives: &mut Archives<A>,
    stripe: u32,
    readings: &mut [Reading; PLACES],
)
    requires stripe { stripe < table.now.stripes }
    requires archives { HasArchives table.now (plain A.account.meaning archives.old).numbers }
    ensures { OnShelves A.account
        (λ told. ReadsColumns told (width table.now) stripe table.now readings.new)
        archives.old archives.new }
{
    for column in 0..table.data_columns() + table.parity() {
        read_slot(
            table,
            archives,
            stripe,
            column,
            &mut readings[column as usize],
        );
    }
}

/// Reads the block of a slot that is Live.
fn read_slot<A: Archive>(
    table: &GroupTable,
    archives: &mut Archives<A>,
    stripe: u32,
    column: u8,
    reading: &mut Reading,
)
    requires range { InRange table.now stripe column }
    requires archives { Contains (plain A.account.meaning archives.old).numbers
        (serving_at table.now stripe column) }
    ensures { OnShelves A.account (λ told. ReadsSlot told stripe column table.now reading.new)
        archives.old archives.new }
{
    let SlotState::Live(_) = table.slot(stripe, column) else {
        reading.answer = None;
        return;
    };
    let number = table.archive_of(stripe, column);
    let answer = archives.read(number, stripe, &mut reading.block);
    reading.answer = Some(answer);
}

/// Digests the blocks that were read.
fn digest_all(readings: &[Reading; PLACES], digests: &mut [Digest; PLACES])
    ensures { AreDigests 20 readings.now digests.new }
{
    for four in 0..PLACES / 4 {
        digest_next(readings, digests, 4 * four);
    }
}

/// Digests those of the next four blocks that were read: all four side by side where two or more
/// were, since that takes the time of two.
fn digest_next(readings: &[Reading; PLACES], digests: &mut [Digest; PLACES], place: usize)
    requires { place + 4 ≤ 20 }
    ensures { AreDigests place readings.now digests.old
        → AreDigests (place + 4) readings.now digests.new }
{
    let first_two = readings[place].is_held() as u8 + readings[place + 1].is_held() as u8;
    let last_two = readings[place + 2].is_held() as u8 + readings[place + 3].is_held() as u8;
    if first_two + last_two < 2 {
        digest_singly(readings, digests, place);
    } else {
        digest_four(readings, digests, place);
    }
}

/// Digests those of four blocks that were read, one by one.
fn digest_singly(readings: &[Reading; PLACES], digests: &mut [Digest; PLACES], place: usize)
    requires { place + 4 ≤ 20 }
    ensures { AreDigests place readings.now digests.old
        → AreDigests (place + 4) readings.now digests.new }
{
    for next in place..place + 4 {
        digest_one(readings, digests, next);
    }
}

/// Digests a block that was read.
fn digest_one(readings: &[Reading; PLACES], digests: &mut [Digest; PLACES], place: usize)
    requires { place < 20 }
    ensures { AreDigests place readings.now digests.old
        → AreDigests (place + 1) readings.now digests.new }
{
    let reading = &readings[place];
    if reading.is_held() {
        digests[place] = digest_of(reading.block.bytes());
    }
}

/// Digests four blocks side by side.
fn digest_four(readings: &[Reading; PLACES], digests: &mut [Digest; PLACES], place: usize)
    requires { place + 4 ≤ 20 }
    ensures { AreDigests place readings.now digests.old
        → AreDigests (place + 4) readings.now digests.new }
{
    let [first, second, third, fourth] = digests_of_four(
        &readings[place].block,
        &readings[place + 1].block,
        &readings[place + 2].block,
        &readings[place + 3].block,
    );
    digests[place] = first;
    digests[place + 1] = second;
    digests[place + 2] = third;
    digests[place + 3] = fourth;
}
