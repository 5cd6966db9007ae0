//! The weights of a relay, and relays and moves over the tables of small groups.
use pot_bytes::{Block, Digest, Geometry, Place, Rack, digest_of};
use pot_machine::{Entry, GroupTable, Relay, SlotState};
use pot_steps::*;
use std::alloc::Global;
use std::test::Fail;

const JOB: u32 = 7;

/// A block of one byte.
fn block(byte: u8) -> Block {
    Block::from_bytes([byte; 1024])
}

/// The digest of a block of one byte.
fn digest(byte: u8) -> Digest {
    digest_of(block(byte).bytes())
}

/// The byte of which a block is made.
fn byte_of(block: &Block) -> Option<u8> {
    let first = block.bytes()[0];
    if block.bytes().iter().all(|b| *b == first) {
        Some(first)
    } else {
        None
    }
}

/// The weights of three data columns, P and Q in a relay.
fn weights(target: u8, skip: Option<u8>) -> Option<[u8; 5]> {
    let relay = Relay {
        stripe: 0,
        target,
        skip,
        last: None,
    };
    let fits = match skip {
        None => true,
        Some(column) => column < 5 && column != target,
    };
    if target >= 5 || !fits {
        return None;
    }
    let mut all = [0; 5];
    for column in 0..5 {
        all[usize::from(column)] = weight_of(3, relay, column);
    }
    Some(all)
}

/// The weights were computed apart, by a table of products in the field.
#[test]
fn weights_of_each_kind_of_relay(rt: HostRuntime) -> Result<(), Fail> {
    let rows = [
        (0, None, [1, 1, 1, 1, 0]),
        (1, Some(4), [1, 1, 1, 1, 0]),
        (3, None, [1, 1, 1, 1, 0]),
        (3, Some(4), [1, 1, 1, 1, 0]),
        (1, Some(3), [0xf6, 1, 3, 0, 0xf6]),
        (0, Some(1), [1, 0, 3, 0x8c, 0x8d]),
        (2, Some(0), [0, 0x8d, 1, 0xcb, 0xcb]),
        (3, Some(2), [0x53, 0xf7, 0, 1, 0x52]),
        (4, None, [1, 3, 5, 0, 1]),
        (4, Some(3), [1, 3, 5, 0, 1]),
        (4, Some(1), [2, 0, 6, 3, 1]),
    ];
    for (target, skip, wanted) in rows {
        assert_eq!(rt; weights(target, skip), Some(wanted));
    }
    Ok(())
}

/// A group with these parity columns, two data columns and two stripes.
fn group(alloc: Global, parity: u8) -> Result<GroupTable, Fail> {
    let geometry = Geometry {
        fragments: 2,
        need: 1,
        shards: 1,
        blur: 0,
    };
    let rack = Rack {
        groups: 1,
        columns: 2,
        parity,
        stripes: 2,
        geometry,
    };
    if !rack.fits() {
        return Err(Fail::from("the rack does not fit"));
    }
    GroupTable::empty(alloc, &rack, 0).map_err(|_| Fail::from("no memory"))
}

/// A put with one parity column.
fn put(column: u8, byte: u8, parity: u8) -> Entry {
    Entry::Put {
        job: JOB,
        stripe: 0,
        column,
        digest: digest(byte),
        parity_digest: digest(parity),
        kept: true,
    }
}

/// A put with two.
fn put2(column: u8, byte: u8, parity: u8, second: u8) -> Entry {
    Entry::Put2 {
        job: JOB,
        stripe: 0,
        column,
        digest: digest(byte),
        parity_digest: digest(parity),
        second_digest: digest(second),
        kept: true,
        kept2: true,
    }
}

fn gone(column: u8) -> Entry {
    Entry::Gone {
        job: JOB,
        stripe: 0,
        column,
    }
}

fn hop_entry(column: u8) -> Entry {
    Entry::Hop {
        job: JOB,
        stripe: 0,
        column,
    }
}

fn gave_up(column: u8, other: u8) -> Entry {
    Entry::GaveUp {
        job: JOB,
        stripe: 0,
        column,
        other,
    }
}

fn slot(table: &GroupTable, column: u8) -> Option<SlotState> {
    if table.stripes() == 0 || column >= table.data_columns() + table.parity() {
        return None;
    }
    Some(table.slot(0, column))
}

/// Begins a relay in the first stripe.
fn begin_at(table: &mut GroupTable, column: u8, blind: u8) -> Result<(Flight, Entry), Fail> {
    let entry = Entry::Begin {
        job: JOB,
        stripe: 0,
        column,
    };
    if !table.legal(&entry) {
        return Err(Fail::from("no relay may begin"));
    }
    let place = Place {
        group: 0,
        column,
        stripe: 0,
    };
    Ok(begin(table, JOB, place, &block(blind)))
}

/// Takes note of a fold over the next column of a relay.
fn hop_over(table: &mut GroupTable, flight: &mut Flight, folded: u8) -> Option<Hopped> {
    let relay = flight.relay;
    if table.relay(relay.stripe) != Some(relay) || relay.stripe >= table.stripes() {
        return None;
    }
    let column = table.next_column(relay)?;
    if column >= table.data_columns() + table.parity() {
        return None;
    }
    if !table.slot(relay.stripe, column).is_live() {
        return None;
    }
    Some(hop(table, flight, JOB, &block(folded)))
}

/// What a relay has at its end: the byte of its block, or the two digests and the entry.
#[derive(Clone, Copy, PartialEq, Eq, Debug)]
enum End {
    Ready(Option<u8>),
    Odd(Digest, Digest, Entry),
}

/// Asks a relay that went over all its columns.
fn finish_it(table: &mut GroupTable, flight: &Flight) -> Option<End> {
    let relay = flight.relay;
    if table.relay(relay.stripe) != Some(relay) || relay.stripe >= table.stripes() {
        return None;
    }
    if table.next_column(relay).is_some() {
        return None;
    }
    match finish(table, flight, JOB) {
        Finished::Ready(block) => Some(End::Ready(byte_of(&block))),
        Finished::Odd {
            wanted,
            found,
            entry,
        } => Some(End::Odd(wanted, found, entry)),
    }
}

/// Ends a relay whose next column has no block.
fn end_at(table: &mut GroupTable, flight: Flight) -> Option<Entry> {
    let relay = flight.relay;
    if table.relay(relay.stripe) != Some(relay) || relay.stripe >= table.stripes() {
        return None;
    }
    table.next_column(relay)?;
    Some(give_up(table, flight, JOB))
}

#[test]
fn a_relay_that_ends_well(rt: HostRuntime) -> Result<(), Fail> {
    let mut table = group(rt.alloc(), 1)?;
    assert!(rt; table.replay(&[put(0, 0x11, 0x11), put(1, 0x22, 0x33), gone(0)]));
    let (mut flight, _entry) = begin_at(&mut table, 0, 0x5a)?;
    assert!(rt; byte_of(&flight.blind) == Some(0x5a) && byte_of(&flight.sum) == Some(0x5a));
    assert_eq!(rt;
        hop_over(&mut table, &mut flight, 0x78),
        Some(Hopped::Folded(hop_entry(1)))
    );
    assert_eq!(rt;
        hop_over(&mut table, &mut flight, 0x4b),
        Some(Hopped::Folded(hop_entry(2)))
    );
    assert_eq!(rt;
        finish_it(&mut table, &flight),
        Some(End::Ready(Some(0x11)))
    );
    let ending = Entry::Mended {
        job: JOB,
        stripe: flight.relay.stripe,
        column: flight.relay.target,
    };
    assert!(rt; table.legal(&ending));
    assert_eq!(rt; mended(&mut table, flight, JOB), ending);
    assert_eq!(rt; slot(&table, 0), Some(SlotState::Live(digest(0x11))));
    Ok(())
}

#[test]
fn relays_that_meet_a_wrong_block_or_none(rt: HostRuntime) -> Result<(), Fail> {
    let mut table = group(rt.alloc(), 1)?;
    assert!(rt; table.replay(&[put(0, 0x11, 0x11), put(1, 0x22, 0x33), gone(0)]));
    let (mut flight, _entry) = begin_at(&mut table, 0, 0x5a)?;
    assert_eq!(rt;
        hop_over(&mut table, &mut flight, 0x79),
        Some(Hopped::Ended(gave_up(0, 1)))
    );
    assert_eq!(rt; slot(&table, 1), Some(SlotState::Lost(digest(0x22))));
    assert_eq!(rt;
        (byte_of(&flight.sum), table.relays().len()),
        (Some(0x5a), 0)
    );

    let mut table = group(rt.alloc(), 1)?;
    assert!(rt; table.replay(&[put(0, 0x11, 0x11), put(1, 0x22, 0x33), gone(0)]));
    let (flight, _entry) = begin_at(&mut table, 0, 0x5a)?;
    assert!(rt; table.replay(&[gone(1)]));
    assert_eq!(rt; end_at(&mut table, flight), Some(gave_up(0, 1)));
    assert_eq!(rt; table.relays().len(), 0);
    Ok(())
}

/// The parity slot is Broken, since the blocks of its stripe give another block.
#[test]
fn a_relay_of_a_broken_slot(rt: HostRuntime) -> Result<(), Fail> {
    let mut table = group(rt.alloc(), 1)?;
    let broke = Entry::Broke {
        job: 0,
        stripe: 0,
        column: 2,
    };
    assert!(rt; table.replay(&[put(0, 0x11, 0x11), put(1, 0x22, 0x44), broke]));
    let (mut flight, _entry) = begin_at(&mut table, 2, 0x5a)?;
    assert_eq!(rt;
        hop_over(&mut table, &mut flight, 0x4b),
        Some(Hopped::Folded(hop_entry(0)))
    );
    assert_eq!(rt;
        hop_over(&mut table, &mut flight, 0x69),
        Some(Hopped::Folded(hop_entry(1)))
    );
    let oddly = Entry::Oddly {
        job: JOB,
        stripe: 0,
        column: 2,
        found: digest(0x33),
    };
    assert_eq!(rt;
        finish_it(&mut table, &flight),
        Some(End::Odd(digest(0x44), digest(0x33), oddly))
    );
    assert_eq!(rt; table.relays().len(), 0);
    Ok(())
}

/// Two data slots are lost. The sums were computed apart: 8c times the block of P, and 8d times
/// that of Q, are added.
#[test]
fn a_relay_with_a_skip(rt: HostRuntime) -> Result<(), Fail> {
    let mut table = group(rt.alloc(), 2)?;
    let puts = [put2(0, 0x57, 0x57, 0x57), put2(1, 0x13, 0x44, 0x62)];
    assert!(rt; table.replay(&puts) && table.replay(&[gone(0), gone(1)]));
    let (mut flight, _entry) = begin_at(&mut table, 0, 0x5a)?;
    assert_eq!(rt; flight.relay.skip, Some(1));
    assert_eq!(rt;
        hop_over(&mut table, &mut flight, 0x3c),
        Some(Hopped::Folded(hop_entry(2)))
    );
    assert_eq!(rt;
        hop_over(&mut table, &mut flight, 0x0d),
        Some(Hopped::Folded(hop_entry(3)))
    );
    assert_eq!(rt;
        finish_it(&mut table, &flight),
        Some(End::Ready(Some(0x57)))
    );
    Ok(())
}

#[test]
fn a_column_that_moves(rt: HostRuntime) -> Result<(), Fail> {
    let mut table = group(rt.alloc(), 1)?;
    assert!(rt; table.replay(&[put(0, 0x11, 0x11), put(1, 0x22, 0x33)]));
    let first = Entry::MoveBegin {
        job: JOB,
        column: 1,
        to: 9,
    };
    assert!(rt; table.legal(&first));
    assert_eq!(rt; move_begin(&mut table, JOB, 1, 9), first);
    for (stripe, copied) in [(0, true), (1, false)] {
        let entry = Entry::Moved {
            job: JOB,
            stripe,
            column: 1,
            copied,
        };
        assert!(rt; table.legal(&entry));
        assert_eq!(rt; move_one(&mut table, JOB, 1, copied), entry);
    }
    let last = Entry::MoveEnd {
        job: JOB,
        column: 1,
    };
    assert!(rt; table.legal(&last));
    assert_eq!(rt; move_end(&mut table, JOB, 1), last);
    assert_eq!(rt; slot(&table, 1), Some(SlotState::Live(digest(0x22))));
    Ok(())
}
