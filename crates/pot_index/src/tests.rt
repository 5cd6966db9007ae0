//! A record's bytes, the groups of blocks, and an index from its start to its end.
ghost use Rattle.std.specs.Prelude.{◌≡◌, ◌<◌, IfOk};
ghost use Rattle.pot_index.specs.Fits.{FitsRack, FitsSplit};
ghost use Rattle.pot_index.specs.Index.{IsRecordOf};
ghost use Rattle.pot_index.specs.Stories.{HasSmall};

use crate::marks::mark_of;
use crate::*;
use pot_bytes::{Digest, Geometry, Name, Place, Rack, digest_of};
use std::alloc::Global;
use std::test::Fail;

const GEOMETRY: Geometry = Geometry {
    fragments: 2,
    need: 1,
    shards: 1,
    blur: 16,
};

const RACK: Rack = Rack {
    groups: 1,
    columns: 2,
    parity: 1,
    stripes: 32,
    geometry: GEOMETRY,
};

/// The SHA-256 digest of `hello`.
const HELLO: Digest = Digest {
    bytes: [
        0x2c, 0xf2, 0x4d, 0xba, 0x5f, 0xb0, 0xa3, 0x0e, 0x26, 0xe8, 0x3b, 0x2a, 0xc5, 0xb9, 0xe2,
        0x9e, 0x1b, 0x16, 0x1e, 0x5c, 0x1f, 0xa7, 0x42, 0x5e, 0x73, 0x04, 0x33, 0x62, 0x93, 0x8b,
        0x98, 0x24,
    ],
};

/// The digest of the bytes of the record of `a` with one split, in stripe 3.
const PUBLISHED: Digest = Digest {
    bytes: [
        0x1e, 0x1e, 0x6b, 0xc9, 0x48, 0x98, 0x6a, 0x22, 0x1e, 0x0d, 0xe9, 0x1b, 0xe6, 0x79, 0x76,
        0x2c, 0x3b, 0x19, 0xfb, 0x72, 0x2a, 0xde, 0x8d, 0x96, 0x92, 0x0f, 0xc6, 0xc8, 0x5b, 0xa1,
        0x88, 0xe7,
    ],
};

/// The same with a newer split, in stripe 4.
const RENEWED: Digest = Digest {
    bytes: [
        0x51, 0x32, 0xaf, 0x40, 0x82, 0xc1, 0x35, 0xe2, 0x4c, 0xa3, 0x82, 0x3e, 0x79, 0xe4, 0x0b,
        0x21, 0x43, 0x60, 0x1f, 0x00, 0x31, 0x63, 0x87, 0x55, 0x29, 0xc7, 0x54, 0xcd, 0xb1, 0x28,
        0xe2, 0x84,
    ],
};

/// The name of a file in the stories.
fn named(text: &[u8]) -> Result<Name, Fail> {
    Name::read(text).ok_or_else(|| Fail::from("no name"))
}

/// The split of a file of one piece, whose two blocks stand in this stripe.
fn small_split(alloc: Global, stripe: u32) -> Result<Split, Fail>
    requires { stripe < 32 }
    ensures { IfOk result (λ s. FitsSplit RACK 1 s) }
{
    let first = Place {
        group: 0,
        column: 0,
        stripe,
    };
    let second = Place {
        group: 0,
        column: 1,
        stripe,
    };
    let places = vec![in alloc; first, second]?;
    Ok(Split {
        geometry: GEOMETRY,
        places: Places::from_vec(places),
    })
}

/// The record of the file `hello` with that split alone.
fn small_record(alloc: Global, name: Name, stripe: u32) -> Result<Record, Fail>
    requires { stripe < 32 }
    ensures named { IfOk result (λ r. r.name ≡ name) }
    ensures long { IfOk result (λ r. r.length ≡ 5) }
    ensures fits { IfOk result (λ r. FitsRack RACK r) }
{
    let Split { geometry, places } = small_split(alloc, stripe)?;
    Ok(Record {
        name,
        length: 5,
        digest: HELLO,
        geometry,
        places,
        older: Splits::from_vec(Vec::new(alloc)),
    })
}

/// An index without records.
fn empty(alloc: Global) -> Result<Index, Fail>
    ensures { IfOk result (λ i. i.rack ≡ RACK) }
{
    match Index::start(alloc, &RACK, Vec::new(alloc)) {
        Ok(index) => Ok(index),
        Err(_) => Err(Fail::from("no memory")),
    }
}

/// Reserves the name and publishes its record.
fn store(alloc: Global, index: &mut Index, name: &Name, stripe: u32) -> Result<(), Fail>
    requires rack { index.old.rack ≡ RACK }
    requires stripe { stripe < 32 }
    ensures rack { IfOk result (λ _. index.new.rack ≡ RACK) }
    ensures there { IfOk result (λ _. HasSmall index.new name.now) }
{
    let kept = small_record(alloc, *name, stripe)?;
    let Ok(()) = index.reserve(1, name) else {
        return Err(Fail::from("not reserved"));
    };
    index.publish(1, kept);
    Ok(())
}

/// Reserves the name, abandons it, and tells where.
fn abandon(index: &mut Index, name: &Name) -> Result<Option<u32>, Fail>
    ensures rack { index.new.rack ≡ index.old.rack }
{
    let Ok(()) = index.reserve(2, name) else {
        return Err(Fail::from("not reserved"));
    };
    index.abandon(2, name);
    Ok(index.ended_at(2, name))
}

/// Renews the file to a split in this stripe.
fn renew(
    alloc: Global,
    index: &mut Index,
    name: &Name,
    stripe: u32,
) -> Result<Result<(), RenewFault>, Fail>
    requires rack { index.old.rack ≡ RACK }
    requires there { HasSmall index.old name.now }
    requires stripe { stripe < 32 }
    ensures rack { index.new.rack ≡ RACK }
    ensures there { HasSmall index.new name.now }
{
    let split = small_split(alloc, stripe)?;
    let _entries = index.logged();
    let renewed = index.renew(6, name, split);
    Ok(renewed)
}

#[test]
fn written_records(rt: HostRuntime) -> Result<(), Fail> {
    let mut record = small_record(rt.alloc(), named(b"a")?, 3)?;
    let mut bytes = Vec::new(rt.alloc());
    assert!(rt; write_record(&record, &mut bytes).is_ok());
    assert_eq!(rt; bytes.len(), 59);
    assert_eq!(rt; digest_of(&bytes), PUBLISHED);
    assert_eq!(rt; mark_of(&record), PUBLISHED);
    let Split { geometry, places } = small_split(rt.alloc(), 3)?;
    let older = vec![in rt.alloc(); Split { geometry, places }]?;
    record.older = Splits::from_vec(older);
    record.places = small_split(rt.alloc(), 4)?.places;
    let copy = record
        .copy(rt.alloc())
        .map_err(|_| Fail::from("no memory"))?;
    bytes.clear();
    assert!(rt; write_record(&copy, &mut bytes).is_ok());
    assert_eq!(rt; bytes.len(), 75);
    assert_eq!(rt; digest_of(&bytes), RENEWED);
    assert_eq!(rt; mark_of(&copy), RENEWED);
    Ok(())
}

#[test]
fn groups_of_blocks(rt: HostRuntime) -> Result<(), Fail> {
    let geometry = Geometry {
        fragments: 2,
        need: 2,
        shards: 3,
        blur: 16,
    };
    let rack = Rack {
        groups: 5,
        columns: 3,
        parity: 1,
        stripes: 16,
        geometry,
    };
    let groups = [0, 1, 2, 1, 2, 3, 2, 3, 4, 3, 4, 0];
    for number in 0..12u32 {
        assert_eq!(rt; group_of(&rack, &geometry, number), groups[number as usize]);
    }
    assert_eq!(rt; group_of(&rack, &geometry, 2_147_483_647), 3);
    Ok(())
}

#[test]
fn one_session(rt: HostRuntime) -> Result<(), Fail> {
    let mut index = empty(rt.alloc())?;
    let (a, b) = (named(b"a")?, named(b"b")?);
    store(rt.alloc(), &mut index, &a, 3)?;
    assert_eq!(rt; index.reserve(3, &a), Err(ReserveFault::Exists));
    assert_eq!(rt; abandon(&mut index, &b)?, Some(4));
    assert!(rt; matches!(index.find(rt.alloc(), 4, &b), Err(FindFault::Absent)));
    let Ok(found) = index.find(rt.alloc(), 4, &a) else {
        return Err(Fail::from("not found"));
    };
    assert_eq!(rt; found.length, 5);
    assert!(rt; found.digest == HELLO && found.name == a);
    assert_eq!(rt; found.places.as_slice().len(), 2);
    let Ok(names) = index.names(rt.alloc(), 5) else {
        return Err(Fail::from("not listed"));
    };
    assert!(rt; names.as_slice() == [Listed { name: a, length: 5 }].as_slice());
    assert_eq!(rt; index.logged(), 8);
    let ended = index.end();
    let log = [
        IndexEntry::Reserve { job: 1, name: a },
        IndexEntry::Publish {
            job: 1,
            name: a,
            mark: PUBLISHED,
        },
        IndexEntry::Taken { job: 3, name: a },
        IndexEntry::Reserve { job: 2, name: b },
        IndexEntry::Abandon { job: 2, name: b },
        IndexEntry::Find {
            job: 4,
            name: b,
            found: false,
        },
        IndexEntry::Find {
            job: 4,
            name: a,
            found: true,
        },
        IndexEntry::Listed { job: 5 },
    ];
    assert!(rt; ended.log.as_slice() == log.as_slice());
    assert_eq!(rt; ended.records.len(), 1);
    Ok(())
}

#[test]
fn sixteen_splits(rt: HostRuntime) -> Result<(), Fail> {
    let mut index = empty(rt.alloc())?;
    let a = named(b"a")?;
    store(rt.alloc(), &mut index, &a, 3)?;
    for stripe in 4..19u32 {
        assert_eq!(rt; renew(rt.alloc(), &mut index, &a, stripe)?, Ok(()));
    }
    assert_eq!(rt;
        renew(rt.alloc(), &mut index, &a, 19)?,
        Err(RenewFault::TooOften)
    );
    let Ok(found) = index.find(rt.alloc(), 7, &a) else {
        return Err(Fail::from("not found"));
    };
    let older = found.older.as_slice();
    assert_eq!(rt; older.len(), 15);
    assert!(rt; older.iter().all(|split| split.places.as_slice().len() == 2));
    let ended = index.end();
    assert_eq!(rt; ended.log.len(), 19);
    let (third, often) = (
        IndexEntry::Renew {
            job: 6,
            name: a,
            mark: RENEWED,
        },
        IndexEntry::Often { job: 6, name: a },
    );
    assert!(rt; ended.log.as_slice().get(2).copied() == Some(third));
    assert!(rt; ended.log.as_slice().get(17).copied() == Some(often));
    Ok(())
}

#[test]
fn full_log(rt: HostRuntime) -> Result<(), Fail> {
    let mut index = empty(rt.alloc())?;
    let a = named(b"a")?;
    for _ in 0..262_143u32 {
        assert!(rt; matches!(index.find(rt.alloc(), 1, &a), Err(FindFault::Absent)));
    }
    assert_eq!(rt; index.reserve(1, &a), Err(ReserveFault::LogFull));
    assert!(rt; matches!(index.find(rt.alloc(), 1, &a), Err(FindFault::Absent)));
    assert!(rt; matches!(index.find(rt.alloc(), 1, &a), Err(FindFault::LogFull)));
    assert!(rt; matches!(index.names(rt.alloc(), 1), Err(ListFault::LogFull)));
    assert_eq!(rt; index.logged(), 262_144);
    Ok(())
}
