//! The pure steps of a relay over a table. Each applies its entry and hands it out.
ghost use Rattle.std.specs.Prelude.{◌≡◌, ◌↔◌, ◌<◌, IsTrue, IsSome, IsSomeAnd, Some, None};
ghost use Rattle.pot_bytes.specs.Digests.{digest_of};
ghost use Rattle.pot_steps.specs.Flight.{unfolded};
ghost use Rattle.pot_machine.specs.declared.entry.Entry.TheVariants as entry;
ghost use Rattle.pot_machine.specs.Slot.{is_live, is_unsound, digest_in};
ghost use Rattle.pot_machine.specs.Table.{slot_at, relay_at, next_column};
ghost use Rattle.pot_machine.specs.Machine.{Legal, after};
ghost use Rattle.pot_steps.specs.Flight.{partial_of};
ghost use Rattle.pot_steps.specs.Flights.{begun};
ghost use Rattle.pot_steps.specs.Calls.{RelayStandsIn, HopMeans, FinishMeans};

use crate::flight::Flight;
use crate::weighing::weight_of;
use pot_bytes::{Block, Digest, Place, digest_of, fold_weighted};
use pot_gf::inv;
use pot_machine::{Entry, GroupTable, SlotState};

/// What a hop came to.
#[derive(Clone, Copy, PartialEq, Eq, Debug)]
pub enum Hopped {
    /// The column's block was added to the sum.
    Folded(Entry),
    /// What was added is no block of the slot's digest, and the relay ended.
    Ended(Entry),
}

/// What a relay that went over all its columns has.
#[derive(Clone, Copy)]
pub enum Finished {
    /// The block of the target's digest. Nothing was logged.
    Ready(Block),
    /// A block of another digest, and the relay ended.
    Odd {
        wanted: Digest,
        found: Digest,
        entry: Entry,
    },
}

/// Begins a relay of a place with a blind.
pub fn begin(table: &mut GroupTable, job: u32, place: Place, blind: &Block) -> (Flight, Entry)
    requires { Legal table.old (entry.Begin job place.stripe place.column) }
    ensures entry { result.1 ≡ entry.Begin job place.stripe place.column }
    ensures flight { result.0 ≡ begun table.old place.stripe place.column blind.now }
    ensures table { table.new ≡ after table.old result.1 }
{
    let Place {
        group: _,
        column,
        stripe,
    } = place;
    let entry = Entry::Begin {
        job,
        stripe,
        column,
    };
    table.apply(&entry);
    let relay = table.relay(stripe).unwrap();
    let flight = Flight {
        relay,
        blind: *blind,
        sum: *blind,
    };
    (flight, entry)
}

/// Takes note of a fold over a relay's next column: `folded` is its sum after the fold.
///
/// The relay goes on where what was added is a block of the digest of that column's slot. Else it
/// ends, and the flight is as it was.
pub fn hop(table: &mut GroupTable, flight: &mut Flight, job: u32, folded: &Block) -> Hopped
    requires stands { RelayStandsIn table.old flight.old.relay }
    requires next { IsSomeAnd (next_column table.old flight.old.relay)
        (λ c. IsTrue (is_live (slot_at table.old flight.old.relay.stripe c))) }
    ensures { HopMeans job folded.now result table.old table.new flight.old flight.new }
{
    let relay = flight.relay;
    let stripe = relay.stripe;
    let _rules = table.cursor();
    let column = table.next_column(relay).unwrap();
    let weight = weight_of(table.data_columns(), relay, column);
    let block = unfold(weight, &flight.sum, folded);
    if table
        .slot(stripe, column)
        .has_digest(digest_of_block(&block))
    {
        let entry = Entry::Hop {
            job,
            stripe,
            column,
        };
        table.apply(&entry);
        flight.relay.last = Some(column);
        flight.sum = *folded;
        Hopped::Folded(entry)
    } else {
        Hopped::Ended(give_up(table, *flight, job))
    }
}

/// What a relay that went over all its columns has.
pub fn finish(table: &mut GroupTable, flight: &Flight, job: u32) -> Finished
    requires stands { RelayStandsIn table.old flight.now.relay }
    requires next { next_column table.old flight.now.relay ≡ None }
    ensures { FinishMeans job result table.old table.new flight.now }
{
    let relay = flight.relay;
    let stripe = relay.stripe;
    let _rules = table.cursor();
    let mut block = flight.sum;
    block.xor(&flight.blind);
    let slot = table.slot(stripe, relay.target);
    let found = digest_of_block(&block);
    if slot.has_digest(found) {
        return Finished::Ready(block);
    }
    let wanted = digest_at(slot, found);
    let entry = Entry::Oddly {
        job,
        stripe,
        column: relay.target,
        found,
    };
    table.apply(&entry);
    Finished::Odd {
        wanted,
        found,
        entry,
    }
}

/// The block that a fold with this weight added to a sum.
fn unfold(weight: u8, sum: &Block, folded: &Block) -> Block
    requires { 0 < weight }
    ensures { result ≡ unfolded weight sum.now folded.now }
{
    let mut added = *folded;
    added.xor(sum);
    let mut block = Block::zero();
    fold_weighted(&mut block, inv(weight), &added);
    block
}

/// The digest of a slot that is Lost or Broken.
fn digest_at(slot: SlotState, other: Digest) -> Digest
    requires { IsTrue (is_unsound slot) }
    ensures { digest_in slot ≡ Some result }
{
    match slot {
        SlotState::Void => other,
        SlotState::Live(digest) => digest,
        SlotState::Lost(digest) => digest,
        SlotState::Broken(digest) => digest,
    }
}

/// The digest of a block.
fn digest_of_block(block: &Block) -> Digest
    ensures { result ≡ digest_of block.now }
{
    digest_of(block.bytes())
}

/// Ends a relay whose next column has no block.
pub fn give_up(table: &mut GroupTable, flight: Flight, job: u32) -> Entry
    requires stands { RelayStandsIn table.old flight.relay }
    requires next { IsSome (next_column table.old flight.relay) }
    ensures entry { IsSomeAnd (next_column table.old flight.relay)
        (λ c. result ≡ entry.GaveUp job flight.relay.stripe flight.relay.target c) }
    ensures legal { Legal table.old result }
    ensures table { table.new ≡ after table.old result }
{
    let relay = flight.relay;
    let _rules = table.cursor();
    let other = table.next_column(relay).unwrap();
    let entry = Entry::GaveUp {
        job,
        stripe: relay.stripe,
        column: relay.target,
        other,
    };
    table.apply(&entry);
    entry
}

/// Ends a relay whose target was written.
pub fn mended(table: &mut GroupTable, flight: Flight, job: u32) -> Entry
    requires { Legal table.old (entry.Mended job flight.relay.stripe flight.relay.target) }
    ensures entry { result ≡ entry.Mended job flight.relay.stripe flight.relay.target }
    ensures table { table.new ≡ after table.old result }
{
    let entry = Entry::Mended {
        job,
        stripe: flight.relay.stripe,
        column: flight.relay.target,
    };
    table.apply(&entry);
    entry
}
