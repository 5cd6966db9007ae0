//! Stories of small groups.
use pot_bytes::{Digest, Geometry, Rack};
use pot_machine::*;
use std::alloc::Global;
use std::test::Fail;

const A: Digest = Digest { bytes: [0xa; 32] };

const P: Digest = Digest { bytes: [0xb; 32] };

/// A group of one shard's worth, with these data columns and parity columns.
fn group(alloc: Global, columns: u8, parity: u8, stripes: u32) -> Result<GroupTable, Fail> {
    let geometry = Geometry {
        fragments: 2,
        need: 1,
        shards: 1,
        blur: 0,
    };
    let rack = Rack {
        groups: 2,
        columns,
        parity,
        stripes,
        geometry,
    };
    if !rack.fits() {
        return Err(Fail::from("the rack does not fit"));
    }
    GroupTable::empty(alloc, &rack, 1).map_err(|_| Fail::from("no memory"))
}

fn put(stripe: u32, column: u8) -> Entry {
    Entry::Put {
        job: 1,
        stripe,
        column,
        digest: A,
        parity_digest: P,
        kept: true,
    }
}

fn put2(stripe: u32, column: u8) -> Entry {
    Entry::Put2 {
        job: 1,
        stripe,
        column,
        digest: A,
        parity_digest: P,
        second_digest: P,
        kept: true,
        kept2: true,
    }
}

fn gone(stripe: u32, column: u8) -> Entry {
    Entry::Gone {
        job: 1,
        stripe,
        column,
    }
}

fn begin(stripe: u32, column: u8) -> Entry {
    Entry::Begin {
        job: 1,
        stripe,
        column,
    }
}

fn hop(stripe: u32, column: u8) -> Entry {
    Entry::Hop {
        job: 1,
        stripe,
        column,
    }
}

fn mended(stripe: u32, column: u8) -> Entry {
    Entry::Mended {
        job: 1,
        stripe,
        column,
    }
}

/// The state of a slot in a letter.
fn letter(table: &GroupTable, stripe: u32, column: u8) -> char {
    if stripe >= table.stripes() || column >= table.data_columns() + table.parity() {
        return '?';
    }
    match table.slot(stripe, column) {
        SlotState::Void => 'V',
        SlotState::Live(_) => 'L',
        SlotState::Lost(_) => 'X',
        SlotState::Broken(_) => 'B',
    }
}

/// The table of one data column, one parity column and one stripe, from its parts.
fn smallest(alloc: Global) -> Result<GroupTable, Fail> {
    let first = Column {
        home: 0,
        moving: None,
    };
    let second = Column {
        home: 1,
        moving: None,
    };
    let columns = vec![in alloc; first, second]?;
    let slots = vec![in alloc; SlotState::Void, SlotState::Void]?;
    let cursor = Cursor {
        stripe: 0,
        column: 0,
    };
    GroupTable::from_parts(alloc, 1, cursor, columns, slots, 1).map_err(|_| Fail::from("no memory"))
}

#[test]
fn a_table_from_its_parts(rt: HostRuntime) -> Result<(), Fail> {
    let mut table = smallest(rt.alloc())?;
    assert!(rt; table.replay(&[put(0, 0)]));
    assert!(rt; !table.legal(&put(1, 0)));
    assert!(rt; table.cursor().stripe == 1);
    Ok(())
}

#[test]
fn a_relay_beside_puts(rt: HostRuntime) -> Result<(), Fail> {
    let mut table = group(rt.alloc(), 3, 1, 4)?;
    assert!(rt; table.replay(&[put(0, 0), put(0, 1), gone(0, 0), begin(0, 0)]));
    assert!(rt; !table.legal(&put(0, 2)));
    assert!(rt; !table.legal(&hop(0, 2)));
    assert!(rt; table.relays().len() == 1 && table.relay(0).is_some());
    let skip = Entry::Skip { job: 1, stripe: 0 };
    assert!(rt; table.replay(&[skip, put(1, 0), hop(0, 1), put(1, 1), hop(0, 3), put(1, 2)]));
    assert!(rt; !table.replay(&[mended(0, 0), mended(0, 0), put(2, 0)]));
    assert_eq!(rt; letter(&table, 0, 0), 'L');
    assert!(rt; table.cursor().stripe == 2 && table.cursor().column == 0);
    let copy = table.copy(rt.alloc()).map_err(|_| Fail::from("no memory"))?;
    assert!(rt; copy.legal(&put(2, 0)) && copy.columns().len() == 4);
    assert_eq!(rt; letter(&copy, 0, 2), 'V');
    Ok(())
}

#[test]
fn two_lost_slots_of_two_parity_columns(rt: HostRuntime) -> Result<(), Fail> {
    let mut table = group(rt.alloc(), 2, 2, 2)?;
    assert!(rt; table.replay(&[put2(0, 0), put2(0, 1), gone(0, 0), gone(0, 1), begin(0, 0)]));
    assert!(rt; table.relay(0).is_some_and(|r| r.skip == Some(1)));
    assert!(rt; table.replay(&[hop(0, 2), hop(0, 3), mended(0, 0), begin(0, 1)]));
    assert!(rt; table.replay(&[hop(0, 0), hop(0, 2), mended(0, 1)]));
    assert!(rt; table.replay(&[gone(0, 0), gone(0, 1), gone(0, 3)]));
    let stuck = Entry::Stuck {
        job: 1,
        stripe: 0,
        column: 0,
        other: 1,
    };
    assert!(rt; !table.legal(&begin(0, 0)) && table.legal(&stuck));
    Ok(())
}

#[test]
fn archives_that_change(rt: HostRuntime) -> Result<(), Fail> {
    let mut table = group(rt.alloc(), 1, 1, 2)?;
    let to_taken = Entry::MoveBegin {
        job: 1,
        column: 0,
        to: 3,
    };
    let to_free = Entry::MoveBegin {
        job: 1,
        column: 0,
        to: 9,
    };
    let copied = Entry::Moved {
        job: 1,
        stripe: 0,
        column: 0,
        copied: true,
    };
    assert!(rt; !table.legal(&to_taken));
    assert!(rt; table.replay(&[put(0, 0), to_free, copied]));
    assert!(rt; table.data_columns() == 1 && table.holder_of(9) == Some(0));
    if 0 < table.data_columns() {
        assert!(rt; table.archive_of(0, 0) == 9 && table.archive_of(1, 0) == 2);
    }
    let swapped = Entry::Swapped {
        job: 1,
        column: 0,
        to: 8,
    };
    assert!(rt; table.legal(&swapped));
    if table.legal(&swapped) {
        table.apply(&swapped);
    }
    assert_eq!(rt; letter(&table, 0, 0), 'X');
    assert_eq!(rt; letter(&table, 0, 1), 'L');
    Ok(())
}
