//! The bytes of a record in an image, appended to a text.
ghost use Rattle.std.specs.Prelude.{◌≡◌, ◌++◌, ◌+◌, ◌<◌, length, vec_capacity, OnOk, OnErr};
ghost use Rattle.std.specs.List.{flat_map};
ghost use Rattle.pot_index.specs.Records.{record_bytes, head_bytes, split_bytes, place_bytes};
ghost use Rattle.pot_index.specs.Writing.{Appends};

use crate::record::{Record, Split};
use crate::spelling::{geometry_bytes, place_bytes};
use pot_bytes::{Geometry, NoMemory, Place};
use std::alloc::AllocError;

/// Appends the record's bytes: its name under its length, the length of the file, the digest, the
/// number of splits, and the splits, the current one last, each with its geometry and its places.
/// On refusal `out` is as before.
///
/// # Errors
/// Want of memory, where `out` has no room for them.
pub fn write_record(kept: &Record, out: &mut Vec<u8>) -> Result<(), NoMemory>
    ensures ok { OnOk result (out.new.items ≡ out.old.items ++ record_bytes kept.now) }
    ensures err { OnErr result (out.new.items ≡ out.old.items) }
    ensures full { OnErr result (vec_capacity out.old
        < length out.old.items + length (record_bytes kept.now)) }
{
    let start = out.len();
    if append_record(out, kept).is_err() {
        out.truncate(start);
        return Err(NoMemory);
    }
    Ok(())
}

fn append_record(out: &mut Vec<u8>, kept: &Record) -> Result<(), AllocError>
    ensures { Appends out.old out.new result (record_bytes kept.now) }
{
    append_head(out, kept)?;
    append_splits(out, kept.older.as_slice())?;
    append_split(out, kept.geometry, kept.places.as_slice())
}

fn append_head(out: &mut Vec<u8>, kept: &Record) -> Result<(), AllocError>
    ensures { Appends out.old out.new result (head_bytes kept.now) }
{
    let name = kept.name.bytes();
    let splits = kept.older.as_slice().len() as u8 + 1;
    out.extend_from_slice(&[name.len() as u8])?;
    out.extend_from_slice(name)?;
    out.extend_from_slice(&kept.length.to_be_bytes())?;
    out.extend_from_slice(&kept.digest.bytes)?;
    out.extend_from_slice(&[splits])
}

fn append_splits(out: &mut Vec<u8>, splits: &[Split]) -> Result<(), AllocError>
    ensures { Appends out.old out.new result (flat_map split_bytes splits.now) }
{
    for split in splits {
        append_split(out, split.geometry, split.places.as_slice())?;
    }
    Ok(())
}

fn append_split(out: &mut Vec<u8>, geometry: Geometry, places: &[Place]) -> Result<(), AllocError>
    ensures { Appends out.old out.new result
        (split_bytes (record { geometry = geometry; places = places.now })) }
{
    append(out, &geometry_bytes(geometry))?;
    for place in places {
        append(out, &place_bytes(*place))?;
    }
    Ok(())
}

fn append(out: &mut Vec<u8>, bytes: &[u8]) -> Result<(), AllocError>
    ensures { Appends out.old out.new result bytes.now }
{
    out.extend_from_slice(bytes)
}
