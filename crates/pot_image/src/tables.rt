//! The tables of an image.
ghost use Rattle.std.specs.Prelude.{◌≡◌, ◌++◌, IfOk, flat_map};
ghost use Rattle.pot_bytes.specs.Rack.{IsRack};
ghost use Rattle.pot_image.specs.Following.{Gives};
ghost use Rattle.pot_image.specs.Reading.{reading};
ghost use Rattle.pot_machine.specs.Table.{archives_in};
ghost use Rattle.pot_image.specs.Tables.{is_cursor, cursor, table, tables};

use crate::columns::{read_at_most, read_columns};
use crate::fault::Fault;
use crate::fields::{read_byte, skip_padding};
use crate::slots::read_slots;
use pot_bytes::Rack;
use pot_machine::{Cursor, GroupTable};
use std::alloc::Global;

/// Whether a cursor may be at this data column of this stripe, which may be the one behind the
/// last.
fn is_cursor(rack: &Rack, stripe: u32, column: u8) -> bool
    ensures { result ≡ is_cursor rack.now stripe column }
{
    stripe < rack.stripes || column == 0
}

/// The cursor of a table.
fn read_cursor<'a>(bytes: &'a [u8], rack: &Rack) -> Result<(Cursor, &'a [u8]), Fault>
    requires { IsRack rack.now }
    ensures { Gives (λ x. (x.0, x.1.now)) result (reading (cursor rack.now) bytes.now) }
{
    let (stripe, after_stripe) = read_at_most(bytes, rack.stripes)?;
    let (column, after_column) = read_byte(after_stripe, 0, rack.columns - 1)?;
    if !is_cursor(rack, stripe, column) {
        return Err(Fault::at(after_stripe));
    }
    let padding = skip_padding(after_column)?;
    Ok((Cursor { stripe, column }, padding))
}

/// A table whose archives are not among those that are taken. They are added to these.
fn read_table<'a>(
    alloc: Global,
    bytes: &'a [u8],
    rack: &Rack,
    taken: &mut Vec<u32>,
) -> Result<(GroupTable, &'a [u8]), Fault>
    requires { IsRack rack.now }
    ensures reads { Gives (λ x. (x.0, x.1.now)) result
        (reading (table rack.now taken.old.items) bytes.now) }
    ensures taken { IfOk result (λ x. taken.new.items ≡ taken.old.items ++ archives_in x.0) }
{
    let width = rack.columns + rack.parity;
    let (cursor, after_cursor) = read_cursor(bytes, rack)?;
    let (columns, after_columns) = read_columns(alloc, after_cursor, width, rack.stripes, taken)?;
    let (slots, rest) = read_slots(alloc, after_columns, rack, cursor)?;
    let table = GroupTable::from_parts(alloc, rack.stripes, cursor, columns, slots, rack.parity)?;
    Ok((table, rest))
}

/// The tables of all groups.
pub(crate) fn read_tables<'a>(
    alloc: Global,
    bytes: &'a [u8],
    rack: &Rack,
) -> Result<(Vec<GroupTable>, &'a [u8]), Fault>
    requires { IsRack rack.now }
    ensures { Gives (λ x. (x.0.items, x.1.now)) result (reading (tables rack.now) bytes.now) }
{
    let mut taken = Vec::new(alloc);
    let mut tables = Vec::with_capacity(alloc, usize::from(rack.groups))?;
    let mut rest = bytes;
    for _ in 0..rack.groups {
        let (table, after) = read_table(alloc, rest, rack, &mut taken)?;
        tables.push(table)?;
        rest = after;
    }
    Ok((tables, rest))
}
