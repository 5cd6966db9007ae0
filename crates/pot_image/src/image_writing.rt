//! How an image is written.
ghost use Rattle.std.specs.Prelude.{◌≡◌, ◌≤◌, ◌<◌, ◌^◌, ◌++◌, List, [], OnOk, IfOk, All, length};
ghost use Rattle.std.specs.Prelude.{take, drop, flat_map, map};
ghost use Rattle.byteorder.specs.Endian.{big_bytes};
ghost use Rattle.pot_index.specs.Records.{record_bytes};
ghost use Rattle.pot_image.specs.Images.{contents};
ghost use Rattle.pot_image.specs.Spelling.{table_bytes, entry_bytes, index_entry_bytes};
ghost use Rattle.pot_image.specs.Spelling.{counted_bytes, field_bytes, text_bytes, image_bytes};
ghost use Rattle.pot_image.specs.Spelling.{IsCountable};
ghost use Rattle.pot_image.specs.Rules.{FitsIndexEntry, HasValues, HaveDigests, IsImageWhole};
ghost use Rattle.pot_image.specs.Rules.{IsWholeEntry, IsWholeRecord};

use crate::entry_writing::append_entry;
use crate::image::Image;
use crate::index_writing::append_index_entry;
use crate::writing::{append_digest, append_head, append_number, append_table, digest_law};
use byteorder::{BigEndian, ByteOrder};
use pot_bytes::{NoMemory, digest_of};
use pot_index::{IndexEntry, Record, write_record};
use pot_machine::{Entry, GroupTable};
use std::alloc::{AllocError, Global};

/// The tables of the groups.
fn append_tables(out: &mut Vec<u8>, tables: &[GroupTable]) -> Result<(), AllocError>
    ensures bytes { OnOk result (out.new.items ≡ out.old.items ++ flat_map table_bytes tables.now) }
    ensures whole { OnOk result (All HaveDigests tables.now) }
{
    for table in tables {
        append_table(out, table)?;
    }
    Ok(())
}

/// A record.
fn append_record(out: &mut Vec<u8>, kept: &Record) -> Result<(), NoMemory>
    ensures bytes { OnOk result (out.new.items ≡ out.old.items ++ record_bytes kept.now) }
    ensures whole { IsWholeRecord kept.now }
{
    let _name = kept.name.bytes();
    digest_law(kept.digest);
    write_record(kept, out)
}

/// The number of the records, and the records.
fn append_records(out: &mut Vec<u8>, records: &[Record]) -> Result<(), NoMemory>
    requires { length records.now < 2 ^ 32 }
    ensures bytes { OnOk result
        (out.new.items ≡ out.old.items ++ counted_bytes record_bytes records.now) }
    ensures whole { OnOk result (All IsWholeRecord records.now) }
{
    append_number(out, records.len() as u32)?;
    for record in records {
        append_record(out, record)?;
    }
    Ok(())
}

/// The number of the entries of a group's log, and the entries.
fn append_log(out: &mut Vec<u8>, entries: &[Entry]) -> Result<(), AllocError>
    requires { length entries.now < 2 ^ 32 }
    ensures bytes { OnOk result
        (out.new.items ≡ out.old.items ++ counted_bytes entry_bytes entries.now) }
    ensures whole { OnOk result (All IsWholeEntry entries.now) }
{
    append_number(out, entries.len() as u32)?;
    for entry in entries {
        append_entry(out, entry)?;
    }
    Ok(())
}

/// The logs of the groups.
fn append_logs(out: &mut Vec<u8>, logs: &[Vec<Entry>]) -> Result<(), AllocError>
    requires { All (λ v. length v.items < 2 ^ 32) logs.now }
    ensures bytes { OnOk result
        (out.new.items
        ≡ out.old.items ++ flat_map (λ v. counted_bytes entry_bytes v.items) logs.now) }
    ensures whole { OnOk result (All (λ v. All IsWholeEntry v.items) logs.now) }
{
    for log in logs {
        append_log(out, log)?;
    }
    Ok(())
}

/// The number of the entries of the index's log, and the entries.
fn append_index_log(out: &mut Vec<u8>, entries: &[IndexEntry]) -> Result<(), AllocError>
    requires { length entries.now < 2 ^ 32 }
    ensures bytes { OnOk result
        (out.new.items ≡ out.old.items ++ counted_bytes index_entry_bytes entries.now) }
    ensures whole { OnOk result (All FitsIndexEntry entries.now) }
{
    append_number(out, entries.len() as u32)?;
    for entry in entries {
        append_index_entry(out, entry)?;
    }
    Ok(())
}

/// The fields of an image.
fn append_fields(out: &mut Vec<u8>, image: &Image) -> Result<(), NoMemory>
    requires { IsCountable image.now }
    ensures bytes { OnOk result
        (out.new.items ≡ out.old.items ++ field_bytes (contents image.now)) }
    ensures whole { OnOk result (HasValues (contents image.now)) }
{
    append_head(out, image.session, &image.rack)?;
    append_tables(out, &image.tables)?;
    append_records(out, &image.records)?;
    append_logs(out, &image.group_logs)?;
    append_index_log(out, &image.index_log)?;
    Ok(())
}

/// Writes a number over the bytes 8 to 16.
fn put_length(text: &mut [u8], number: u64)
    requires { 16 ≤ length text.old }
    ensures { text.new ≡ take 8 text.old ++ big_bytes 8 number ++ drop 16 text.old }
{
    BigEndian::write_u64(&mut text[8..], number);
}

/// Room for all but the records and the entries of the logs.
fn room(image: &Image) -> usize {
    let mut room: usize = 128;
    for table in &image.tables {
        let width = table.columns().len();
        let used = (table.cursor().stripe as usize + 1).saturating_mul(width);
        let slots = (table.stripes() as usize).saturating_mul(width);
        room = room
            .saturating_add(width.saturating_mul(16) + 8)
            .saturating_add(slots)
            .saturating_add(used.saturating_mul(32));
    }
    room
}

/// The text of an image, which its digest follows.
fn append_text(out: &mut Vec<u8>, image: &Image) -> Result<(), NoMemory>
    requires image { IsCountable image.now }
    requires empty { out.old.items ≡ [] }
    ensures bytes { OnOk result (out.new.items ≡ text_bytes (contents image.now)) }
    ensures whole { OnOk result (HasValues (contents image.now)) }
{
    out.extend_from_slice(&[b'P', b'S', b'I', b'1', 0, 0, 0, 2])?;
    out.extend_from_slice(&[0; 8])?;
    append_fields(out, image)?;
    let length = out.len() as u64 + 32;
    put_length(out, length);
    Ok(())
}

/// The bytes of an image, of the second format. The relays of its tables are not written.
///
/// Every image may be written that has fewer than 2^32 records and fewer than 2^32 entries in each
/// log, as `Image::is_countable` tests: so each whose records are those of an index and whose logs
/// are those of groups and of an index, with at most 4,000,000,000 records and 262,144 entries.
/// Nothing is asked of what stands in them. What was written is read back where it keeps the rules
/// of an image (`image_laws`).
///
/// # Errors
/// Want of memory alone.
pub fn write_image(alloc: Global, image: &Image) -> Result<Vec<u8>, NoMemory>
    requires { IsCountable image.now }
    ensures bytes { IfOk result (λ v. v.items ≡ image_bytes (contents image.now)) }
    ensures whole { OnOk result (IsImageWhole (contents image.now)) }
{
    let mut out = Vec::with_capacity(alloc, room(image))?;
    append_text(&mut out, image)?;
    let digest = digest_of(&out);
    append_digest(&mut out, digest)?;
    Ok(out)
}
