//! The records of an image.
ghost use Rattle.std.specs.Prelude.{◌≡◌, ◌≤◌, ◌<◌, ◌+◌, ◌-◌, ◌^◌, ℕ, [], IfOk};
ghost use Rattle.pot_bytes.specs.Rack.{IsRack, IsGeometry};
ghost use Rattle.pot_object.specs.Pieces.{longest};
ghost use Rattle.pot_image.specs.Following.{Gives};
ghost use Rattle.pot_image.specs.Reading.{reading, several};
ghost use Rattle.pot_image.specs.Numbers.{natural, at_most};
ghost use Rattle.pot_image.specs.Records.{split, split_behind, splits, record_behind, records};
ghost use Rattle.pot_image.specs.Marks.{AreStamps};
ghost use Rattle.pot_image.specs.Rules.{AreTables};

use crate::columns::read_at_most;
use crate::fault::Fault;
use crate::fields::{read_byte, read_digest, read_long};
use crate::format::Format;
use crate::head::read_geometry;
use crate::names::read_name_above;
use crate::places::read_places;
use pot_bytes::Rack;
use pot_index::{Record, Split, Splits};
use pot_machine::GroupTable;
use pot_object::{LONGEST, count_pieces};
use std::alloc::Global;

/// How many records an image may have.
const RECORDS: u32 = 4_000_000_000;

/// No record has fewer bytes.
const RECORD_BYTES: usize = 42;

/// The splits of a record: the older ones, and the current one.
#[derive(Drop)]
pub(crate) struct RecordSplits {
    pub older: Splits,
    pub current: Split,
}

/// A split with its geometry, of a file of so many pieces.
fn read_split<'a>(
    alloc: Global,
    bytes: &'a [u8],
    rack: &Rack,
    tables: &[GroupTable],
    pieces: u32,
    stamps: &mut [u64],
    last: u64,
) -> Result<(Split, &'a [u8]), Fault>
    requires rack { IsRack rack.now }
    requires tables { AreTables rack.now tables.now }
    requires pieces { pieces ≤ 1024 }
    requires last { 1 ≤ last }
    requires stamps { AreStamps rack.now stamps.old (last - 1) }
    ensures reads { Gives (λ x. (x.0, x.1.now)) result
        (reading (split rack.now tables.now pieces) bytes.now) }
    ensures stamps { IfOk result (λ x. AreStamps rack.now stamps.new last) }
{
    let (geometry, after_geometry) = read_geometry(bytes, rack.groups)?;
    let (places, rest) = read_places(
        alloc,
        after_geometry,
        rack,
        tables,
        pieces,
        geometry,
        stamps,
        last,
    )?;
    Ok((Split { geometry, places }, rest))
}

/// So many older splits of a record, at most 15.
fn read_older<'a>(
    alloc: Global,
    bytes: &'a [u8],
    rack: &Rack,
    tables: &[GroupTable],
    pieces: u32,
    count: u8,
    stamps: &mut [u64],
    last: u64,
) -> Result<(Splits, &'a [u8]), Fault>
    requires rack { IsRack rack.now }
    requires tables { AreTables rack.now tables.now }
    requires pieces { pieces ≤ 1024 }
    requires count { count ≤ 15 }
    requires last { last < 2 ^ 63 }
    requires stamps { AreStamps rack.now stamps.old last }
    ensures reads { Gives (λ x. (x.0, x.1.now)) result
        (reading (several 0 count (split_behind rack.now tables.now pieces) []) bytes.now) }
    ensures stamps { IfOk result (λ x. AreStamps rack.now stamps.new (last + count)) }
{
    let mut splits = Vec::with_capacity(alloc, usize::from(count))?;
    let mut rest = bytes;
    for number in 0..count {
        let now = last + 1 + u64::from(number);
        let (split, after) = read_split(alloc, rest, rack, tables, pieces, stamps, now)?;
        splits.push(split)?;
        rest = after;
    }
    Ok((Splits::from_vec(splits), rest))
}

/// The splits of a record. In the first format it has one, of the rack's geometry.
fn read_splits<'a>(
    alloc: Global,
    bytes: &'a [u8],
    format: Format,
    rack: &Rack,
    tables: &[GroupTable],
    pieces: u32,
    stamps: &mut [u64],
    last: u64,
) -> Result<(RecordSplits, &'a [u8]), Fault>
    requires rack { IsRack rack.now }
    requires tables { AreTables rack.now tables.now }
    requires pieces { pieces ≤ 1024 }
    requires last { last < 2 ^ 63 }
    requires stamps { AreStamps rack.now stamps.old last }
    ensures reads { Gives (λ x. (x.0, x.1.now)) result
        (reading (splits format rack.now tables.now pieces) bytes.now) }
    ensures stamps { IfOk result (λ x. AreStamps rack.now stamps.new (last + 16)) }
{
    let now = last + 16;
    match format {
        Format::First => {
            let geometry = rack.geometry;
            let (places, rest) = read_places(
                alloc, bytes, rack, tables, pieces, geometry, stamps, now,
            )?;
            let older = Splits::from_vec(Vec::new(alloc));
            let current = Split { geometry, places };
            Ok((RecordSplits { older, current }, rest))
        }
        Format::Second => {
            let (count, after) = read_byte(bytes, 1, 16)?;
            let count = count - 1;
            let (older, after) = read_older(
                alloc, after, rack, tables, pieces, count, stamps, last,
            )?;
            let (current, rest) = read_split(alloc, after, rack, tables, pieces, stamps, now)?;
            Ok((RecordSplits { older, current }, rest))
        }
    }
}

/// The length of a file.
fn read_length(bytes: &[u8]) -> Result<(u64, &[u8]), Fault>
    ensures { Gives (λ x. (x.0, x.1.now)) result (reading (natural 8 (at_most longest)) bytes.now) }
{
    let (number, rest) = read_long(bytes)?;
    if number > LONGEST {
        return Err(Fault::at(bytes));
    }
    Ok((number, rest))
}

/// A record behind others.
fn read_record<'a>(
    alloc: Global,
    bytes: &'a [u8],
    format: Format,
    rack: &Rack,
    tables: &[GroupTable],
    before: &[Record],
    stamps: &mut [u64],
    last: u64,
) -> Result<(Record, &'a [u8]), Fault>
    requires rack { IsRack rack.now }
    requires tables { AreTables rack.now tables.now }
    requires last { last < 2 ^ 63 }
    requires stamps { AreStamps rack.now stamps.old last }
    ensures reads { (number : ℕ)
        → Gives (λ x. (x.0, x.1.now)) result
        (reading (record_behind format rack.now tables.now number before.now) bytes.now) }
    ensures stamps { IfOk result (λ x. AreStamps rack.now stamps.new (last + 16)) }
{
    let (count, after_count) = read_byte(bytes, 1, 64)?;
    let name = read_name_above(after_count, count, before)?;
    let (_, after_name) = after_count.split_at(usize::from(count));
    let (length, after_length) = read_length(after_name)?;
    let (digest, after_digest) = read_digest(after_length)?;
    let pieces = count_pieces(length);
    let (splits, rest) = read_splits(
        alloc,
        after_digest,
        format,
        rack,
        tables,
        pieces,
        stamps,
        last,
    )?;
    let record = Record {
        name,
        length,
        digest,
        geometry: splits.current.geometry,
        places: splits.current.places,
        older: splits.older,
    };
    Ok((record, rest))
}

/// So many records.
fn read_counted<'a>(
    alloc: Global,
    bytes: &'a [u8],
    format: Format,
    rack: &Rack,
    tables: &[GroupTable],
    count: u32,
    stamps: &mut [u64],
) -> Result<(Vec<Record>, &'a [u8]), Fault>
    requires rack { IsRack rack.now }
    requires tables { AreTables rack.now tables.now }
    requires stamps { AreStamps rack.now stamps.old 0 }
    ensures { Gives (λ x. (x.0.items, x.1.now)) result
        (reading (several 0 count (record_behind format rack.now tables.now) []) bytes.now) }
{
    let capacity = (count as usize).min(bytes.len() / RECORD_BYTES);
    let mut records = Vec::with_capacity(alloc, capacity)?;
    let mut rest = bytes;
    for number in 0..count {
        let last = u64::from(number) * 16;
        let (record, after) = read_record(
            alloc, rest, format, rack, tables, &records, stamps, last,
        )?;
        records.push(record)?;
        rest = after;
    }
    Ok((records, rest))
}

/// The records of an image.
pub(crate) fn read_records<'a>(
    alloc: Global,
    bytes: &'a [u8],
    format: Format,
    rack: &Rack,
    tables: &[GroupTable],
) -> Result<(Vec<Record>, &'a [u8]), Fault>
    requires rack { IsRack rack.now }
    requires tables { AreTables rack.now tables.now }
    ensures { Gives (λ x. (x.0.items, x.1.now)) result
        (reading (records format rack.now tables.now) bytes.now) }
{
    let (count, after_count) = read_at_most(bytes, RECORDS)?;
    let spots = usize::from(rack.groups) * rack.stripes as usize * usize::from(rack.columns);
    let mut stamps = Vec::from_elem(alloc, 0u64, spots)?;
    let (records, rest) = read_counted(
        alloc,
        after_count,
        format,
        rack,
        tables,
        count,
        &mut stamps,
    )?;
    Ok((records, rest))
}
