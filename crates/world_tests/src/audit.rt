//! A file of two splits, whose two blocks stand in the two data columns of one group.
ghost use Rattle.std.specs.Prelude.{◌<◌, IfOk};
ghost use Rattle.pot_index.specs.Fits.{FitsRack, FitsSplit};

use pot_audit::{Loose, Spot, Veil, audit_record, loose_columns};
use pot_bytes::{Geometry, Name, Place, Rack, digest_of};
use pot_index::{Places, Record, Split, Splits};
use pot_machine::{Entry, GroupTable};
use std::alloc::Global;
use std::test::Fail;

const GEOMETRY: Geometry = Geometry {
    fragments: 2,
    need: 1,
    shards: 1,
    blur: 16,
};

const RACK: Rack = Rack {
    groups: 1,
    columns: 2,
    parity: 1,
    stripes: 32,
    geometry: GEOMETRY,
};

/// The split of a file of one piece, whose two blocks stand in this stripe.
fn small_split(alloc: Global, stripe: u32) -> Result<Split, Fail>
    requires { stripe < 32 }
    ensures { IfOk result (λ s. FitsSplit RACK 1 s) }
{
    let first = Place {
        group: 0,
        column: 0,
        stripe,
    };
    let second = Place {
        group: 0,
        column: 1,
        stripe,
    };
    let places = vec![in alloc; first, second]?;
    Ok(Split {
        geometry: GEOMETRY,
        places: Places::from_vec(places),
    })
}

/// The record of a file with two splits.
fn small_record(alloc: Global) -> Result<Record, Fail>
    ensures { IfOk result (λ r. FitsRack RACK r) }
{
    let older = small_split(alloc, 3)?;
    let Split { geometry, places } = small_split(alloc, 4)?;
    let Some(name) = Name::read(b"a") else {
        return Err(Fail::from("no name"));
    };
    Ok(Record {
        name,
        length: 5,
        digest: digest_of(b"hello"),
        geometry,
        places,
        older: Splits::from_vec(vec![in alloc; older]?),
    })
}

/// Whether the veils of both splits have this fragment and so many exposed points, for a coalition
/// of one column.
fn is_veiled(alloc: Global, column: u8, fragment: u8, have: u8) -> Result<bool, Fail>
    requires { column < 3 }
{
    let kept = small_record(alloc)?;
    let spots = [Spot { group: 0, column }];
    let veil = Veil {
        split: 0,
        piece: 0,
        fragment,
        have,
        need: 1,
    };
    match audit_record(alloc, &kept, &RACK, &spots) {
        Ok(veils) => Ok(veils.as_slice() == [veil, Veil { split: 1, ..veil }].as_slice()),
        Err(_) => Err(Fail::from("no memory")),
    }
}

#[test]
fn columns_of_a_group(rt: HostRuntime) -> Result<(), Fail> {
    // The first data column has the first fragment, the second the second one; the parity column
    // opens both.
    for (column, fragment, have) in [(0, 2, 0), (1, 1, 0), (2, 1, 1)] {
        assert!(rt; is_veiled(rt.alloc(), column, fragment, have)?);
    }
    Ok(())
}

/// A table in which eleven blocks were put: four of them are the record's.
fn small_table(alloc: Global) -> Result<GroupTable, Fail> {
    let digest = digest_of(b"block");
    let Ok(mut table) = GroupTable::empty(alloc, &RACK, 0) else {
        return Err(Fail::from("no memory"));
    };
    for number in 0..11u8 {
        let put = Entry::Put {
            job: 1,
            stripe: u32::from(number / 2),
            column: number % 2,
            digest,
            parity_digest: digest,
            kept: true,
        };
        if !table.replay(&[put]) {
            return Err(Fail::from("not legal"));
        }
    }
    Ok(table)
}

/// Whether these columns have these loose blocks, for a coalition of some columns.
fn is_loose(alloc: Global, columns: &[u8], wanted: &[Loose]) -> Result<bool, Fail> {
    let records = [small_record(alloc)?];
    let tables = [small_table(alloc)?];
    let mut spots = Vec::new(alloc);
    for column in columns {
        spots.push(Spot {
            group: 0,
            column: *column,
        })?;
    }
    match loose_columns(alloc, &RACK, &spots, &tables, &records) {
        Ok(found) => Ok(found.as_slice() == wanted),
        Err(_) => Err(Fail::from("no memory")),
    }
}

#[test]
fn blocks_that_no_split_names(rt: HostRuntime) -> Result<(), Fail> {
    // Stripes 0 to 4 are full and of stripe 5 the first column is; the older split has stripe 3,
    // and the current one stripe 4.
    let loose = |column: u8, count: u32| Loose {
        group: 0,
        column,
        count,
    };
    let wanted: [(&[u8], &[Loose]); 4] = [
        (&[0], &[loose(0, 4)]),
        (&[1], &[loose(1, 3)]),
        (&[2], &[loose(0, 4), loose(1, 3)]),
        (&[0, 1], &[loose(0, 4), loose(1, 3)]),
    ];
    for (columns, found) in wanted {
        assert!(rt; is_loose(rt.alloc(), columns, found)?);
    }
    Ok(())
}
