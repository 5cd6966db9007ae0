//! An archive whose blocks are damaged or taken away, marks of HTML, days by the calendar, and
//! paragraphs.

use crate::{Looked, SLOT, append_paragraph, date_text, days_between, escape, look};
use pot_bytes::{Digest, Geometry, Rack, digest_of};
use pot_machine::{Entry, GroupTable};
use std::alloc::Global;
use std::test::Fail;

/// The archive of the data column.
const DATA: u32 = 2;

/// The digest of a block that repeats one byte.
fn digest(byte: u8) -> Digest {
    digest_of(&[byte; 1024])
}

/// A group of one data column and one parity column, with three stripes and no block.
fn group(alloc: Global) -> Result<GroupTable, Fail> {
    let geometry = Geometry {
        fragments: 2,
        need: 1,
        shards: 1,
        blur: 0,
    };
    let rack = Rack {
        groups: 2,
        columns: 1,
        parity: 1,
        stripes: 3,
        geometry,
    };
    if !rack.fits() {
        return Err(Fail::from("the rack does not fit"));
    }
    GroupTable::empty(alloc, &rack, 1).map_err(|_| Fail::from("no memory"))
}

/// Does what an entry says, where it is legal.
fn apply(table: &mut GroupTable, entry: Entry) {
    if table.legal(&entry) {
        table.apply(&entry);
    }
}

/// A group with the blocks 10 and 11 in its first two stripes.
fn two(alloc: Global) -> Result<GroupTable, Fail> {
    let mut table = group(alloc)?;
    for stripe in 0..2u8 {
        apply(
            &mut table,
            Entry::Put {
                job: 1,
                stripe: u32::from(stripe),
                column: 0,
                digest: digest(10 + stripe),
                parity_digest: digest(10 + stripe),
                kept: true,
            },
        );
    }
    Ok(table)
}

/// The file of an archive with the blocks 10 and 11.
fn file(alloc: Global) -> Result<Vec<u8>, Fail> {
    let mut bytes = Vec::new(alloc);
    for byte in 10..12 {
        bytes.push(1)?;
        bytes.extend_from_slice(&[byte; 1024])?;
    }
    Ok(bytes)
}

/// What is seen of a column in an archive, as three numbers.
fn seen(table: &GroupTable, column: u8, archive: u32, bytes: &[u8]) -> Result<[u32; 3], Fail> {
    if column >= table.data_columns() + table.parity() {
        return Err(Fail::from("no such column"));
    }
    let Looked {
        compared,
        damaged,
        missing,
    } = look(table, column, archive, bytes);
    Ok([compared, damaged, missing])
}

#[test]
fn sound_archive(rt: HostRuntime) -> Result<(), Fail> {
    let table = two(rt.alloc())?;
    let bytes = file(rt.alloc())?;
    assert_eq!(rt; seen(&table, 0, DATA, &bytes)?, [2, 0, 0]);
    Ok(())
}

#[test]
fn another_archive_is_asked_for_nothing(rt: HostRuntime) -> Result<(), Fail> {
    let table = two(rt.alloc())?;
    let bytes = file(rt.alloc())?;
    assert_eq!(rt; seen(&table, 0, DATA + 1, &bytes)?, [0, 0, 0]);
    Ok(())
}

#[test]
fn block_with_another_byte_is_damaged(rt: HostRuntime) -> Result<(), Fail> {
    let table = two(rt.alloc())?;
    let mut bytes = file(rt.alloc())?;
    if let Some(byte) = bytes.last_mut() {
        *byte = 0;
    }
    assert_eq!(rt; seen(&table, 0, DATA, &bytes)?, [2, 1, 0]);
    Ok(())
}

#[test]
fn slot_that_ends_early_is_missing(rt: HostRuntime) -> Result<(), Fail> {
    let table = two(rt.alloc())?;
    let mut bytes = file(rt.alloc())?;
    bytes.truncate(2 * SLOT - 1);
    assert_eq!(rt; seen(&table, 0, DATA, &bytes)?, [2, 0, 1]);
    bytes.truncate(0);
    assert_eq!(rt; seen(&table, 0, DATA, &bytes)?, [2, 0, 2]);
    Ok(())
}

#[test]
fn slot_whose_first_byte_is_not_one_is_missing(rt: HostRuntime) -> Result<(), Fail> {
    let table = two(rt.alloc())?;
    let mut bytes = file(rt.alloc())?;
    if let Some(byte) = bytes.first_mut() {
        *byte = 0;
    }
    assert_eq!(rt; seen(&table, 0, DATA, &bytes)?, [2, 0, 1]);
    Ok(())
}

#[test]
fn lost_block_is_not_asked_for(rt: HostRuntime) -> Result<(), Fail> {
    let mut table = two(rt.alloc())?;
    apply(
        &mut table,
        Entry::Gone {
            job: 1,
            stripe: 1,
            column: 0,
        },
    );
    assert_eq!(rt; seen(&table, 0, DATA, &[])?, [1, 0, 1]);
    Ok(())
}

#[test]
fn marks_are_escaped(rt: HostRuntime) -> Result<(), Fail> {
    let text = escape(rt.alloc(), b"a<b> & \"c\"")?;
    assert!(rt; text.as_slice() == b"a&lt;b&gt; &amp; &quot;c&quot;".as_slice());
    Ok(())
}

#[test]
fn days_by_the_calendar(rt: HostRuntime) -> Result<(), Fail> {
    let days = [
        (0, "1970-01-01"),
        (68_169_600, "1972-02-29"),
        (951_782_400, "2000-02-29"),
        (951_868_800, "2000-03-01"),
        (1_798_761_599, "2026-12-31"),
        (4_107_542_400, "2100-03-01"),
    ];
    for (seconds, date) in days {
        let text = date_text(rt.alloc(), seconds)?;
        assert!(rt; text.as_str() == date);
    }
    assert_eq!(rt; days_between(86_399, 172_800), 1);
    Ok(())
}

#[test]
fn lines_of_a_paragraph(rt: HostRuntime) -> Result<(), Fail> {
    let mut text = String::new(rt.alloc());
    for _ in 0..20 {
        text.push_str("nine\tword ")?;
    }
    for _ in 0..100 {
        text.push_str("x")?;
    }
    let mut out = String::new(rt.alloc());
    append_paragraph(&mut out, text.as_str(), "  ")?;
    for line in out.as_str().lines() {
        assert!(rt; line.chars().count() <= 72);
    }
    assert!(rt; out.as_str().starts_with("nine?word nine?word"));
    Ok(())
}
