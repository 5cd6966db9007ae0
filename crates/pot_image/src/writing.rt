//! How the parts of an image are written: each is appended to the bytes so far.
ghost use Rattle.std.specs.Prelude.{◌≡◌, ◌<◌, ◌*◌, ◌^◌, ◌++◌, All, OnOk, take, drop, flat_map};
ghost use Rattle.pot_machine.specs.Table.{width};
ghost use Rattle.byteorder.specs.Endian.{big_bytes};
ghost use Rattle.pot_image.specs.Spelling.{flag_bytes, head_bytes, cursor_bytes, move_bytes};
ghost use Rattle.pot_image.specs.Spelling.{column_bytes, slot_bytes, table_bytes, place_bytes};
ghost use Rattle.pot_image.specs.Rules.{HasSlotDigest, HaveDigests, IsDigest};

use pot_bytes::{Digest, Rack};
use pot_machine::{Column, Cursor, GroupTable, SlotState};
use std::alloc::AllocError;

/// A number in four bytes, the highest first.
pub(crate) fn append_number(out: &mut Vec<u8>, number: u32) -> Result<(), AllocError>
    ensures { OnOk result (out.new.items ≡ out.old.items ++ big_bytes 4 number) }
{
    out.extend_from_slice(&number.to_be_bytes())
}

/// A byte of 0 or 1.
pub(crate) fn append_flag(out: &mut Vec<u8>, flag: bool) -> Result<(), AllocError>
    ensures { OnOk result (out.new.items ≡ out.old.items ++ flag_bytes flag) }
{
    out.extend_from_slice(&[u8::from(flag)])
}

/// A digest is whole. It does nothing.
pub(crate) fn digest_law(digest: Digest)
    ensures { IsDigest digest }
{}

/// A digest.
pub(crate) fn append_digest(out: &mut Vec<u8>, digest: Digest) -> Result<(), AllocError>
    ensures bytes { OnOk result (out.new.items ≡ out.old.items ++ digest.bytes) }
    ensures whole { IsDigest digest }
{
    out.extend_from_slice(&digest.bytes)
}

/// A stripe and a column.
pub(crate) fn append_place(out: &mut Vec<u8>, stripe: u32, column: u8) -> Result<(), AllocError>
    ensures { OnOk result (out.new.items ≡ out.old.items ++ place_bytes stripe column) }
{
    append_number(out, stripe)?;
    out.extend_from_slice(&[column])
}

/// The session and the rack.
pub(crate) fn append_head(out: &mut Vec<u8>, session: u32, rack: &Rack) -> Result<(), AllocError>
    ensures bytes { OnOk result (out.new.items ≡ out.old.items ++ head_bytes session rack.now) }
    ensures whole { session < 2 ^ 32 }
{
    let geometry = rack.geometry;
    append_number(out, session)?;
    out.extend_from_slice(&[rack.groups, rack.columns])?;
    out.extend_from_slice(&[
        geometry.fragments,
        geometry.need,
        geometry.shards,
        geometry.blur,
    ])?;
    out.extend_from_slice(&[rack.parity, 0])?;
    append_number(out, rack.stripes)
}

/// The cursor of a table.
fn append_cursor(out: &mut Vec<u8>, cursor: Cursor) -> Result<(), AllocError>
    ensures { OnOk result (out.new.items ≡ out.old.items ++ cursor_bytes cursor) }
{
    append_number(out, cursor.stripe)?;
    out.extend_from_slice(&[cursor.column, 0, 0, 0])
}

/// Where a column moves to.
fn append_move(out: &mut Vec<u8>, column: Column) -> Result<(), AllocError>
    ensures { OnOk result (out.new.items ≡ out.old.items ++ move_bytes column) }
{
    match column.moving {
        None => {
            out.extend_from_slice(&[0, 0, 0, 0])?;
            append_number(out, 0)?;
            append_number(out, 0)
        }
        Some(moving) => {
            out.extend_from_slice(&[1, 0, 0, 0])?;
            append_number(out, moving.to)?;
            append_number(out, moving.upto)
        }
    }
}

/// A column of a table.
fn append_column(out: &mut Vec<u8>, column: Column) -> Result<(), AllocError>
    ensures { OnOk result (out.new.items ≡ out.old.items ++ column_bytes column) }
{
    append_number(out, column.home)?;
    append_move(out, column)
}

/// The columns of a table.
fn append_columns(out: &mut Vec<u8>, columns: &[Column]) -> Result<(), AllocError>
    ensures { OnOk result (out.new.items ≡ out.old.items ++ flat_map column_bytes columns.now) }
{
    for column in columns {
        append_column(out, *column)?;
    }
    Ok(())
}

/// A slot.
fn append_slot(out: &mut Vec<u8>, slot: SlotState) -> Result<(), AllocError>
    ensures bytes { OnOk result (out.new.items ≡ out.old.items ++ slot_bytes slot) }
    ensures whole { OnOk result (HasSlotDigest slot) }
{
    match slot {
        SlotState::Void => { out.extend_from_slice(&[0]) }
        SlotState::Live(digest) => {
            out.extend_from_slice(&[1])?;
            append_digest(out, digest)
        }
        SlotState::Lost(digest) => {
            out.extend_from_slice(&[2])?;
            append_digest(out, digest)
        }
        SlotState::Broken(digest) => {
            out.extend_from_slice(&[3])?;
            append_digest(out, digest)
        }
    }
}

/// The slots of a stripe.
fn append_stripe(out: &mut Vec<u8>, table: &GroupTable, stripe: u32) -> Result<(), AllocError>
    requires { stripe < table.now.stripes }
    ensures bytes { OnOk result
        (out.new.items
        ≡ out.old.items
        ++ flat_map slot_bytes
        (take (width table.now) (drop (stripe * width table.now) table.now.slots))) }
    ensures whole { OnOk result
        (All HasSlotDigest (take (width table.now) (drop (stripe * width table.now)
        table.now.slots))) }
{
    for column in 0..table.data_columns() + table.parity() {
        append_slot(out, table.slot(stripe, column))?;
    }
    Ok(())
}

/// The slots of a table, stripe by stripe and column by column.
fn append_slots(out: &mut Vec<u8>, table: &GroupTable) -> Result<(), AllocError>
    ensures bytes { OnOk result
        (out.new.items ≡ out.old.items ++ flat_map slot_bytes table.now.slots) }
    ensures whole { OnOk result (HaveDigests table.now) }
{
    for stripe in 0..table.stripes() {
        append_stripe(out, table, stripe)?;
    }
    Ok(())
}

/// A table.
pub(crate) fn append_table(out: &mut Vec<u8>, table: &GroupTable) -> Result<(), AllocError>
    ensures bytes { OnOk result (out.new.items ≡ out.old.items ++ table_bytes table.now) }
    ensures whole { OnOk result (HaveDigests table.now) }
{
    append_cursor(out, table.cursor())?;
    append_columns(out, table.columns())?;
    append_slots(out, table)
}
