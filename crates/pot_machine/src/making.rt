//! How the parts of a table are made.
ghost use Rattle.std.specs.Prelude.{◌≡◌, ◌<◌, ◌≤◌, ◌+◌, ◌*◌, IfOk, map, length, vec_capacity};
ghost use Rattle.std.specs.List.{range_with_len};
ghost use Rattle.pot_bytes.specs.Rack.{IsRack};
ghost use Rattle.pot_machine.specs.Making.{column_home, empty_table, table_of};
ghost use Rattle.pot_machine.specs.Rules.{HasSize};

use crate::column::Column;
use crate::cursor::Cursor;
use crate::parts::Parts;
use crate::slot::SlotState;
use pot_bytes::{NoMemory, Rack};
use std::alloc::Global;

/// How many relays may stand in one group.
pub(crate) const RELAYS: usize = 16;

/// The columns of a group, whose archives are numbered from this one on.
fn columns_from(alloc: Global, first: u32, width: u8) -> Result<Vec<Column>, NoMemory>
    requires { first + width < 4096 }
    ensures { IfOk result (λ v. v.items ≡ map column_home (range_with_len first width)) }
{
    let mut columns = Vec::with_capacity(alloc, usize::from(width))?;
    for column in 0..width {
        columns.push_reserved(Column {
            home: first + u32::from(column),
            moving: None,
        });
    }
    Ok(columns)
}

impl Parts {
    pub(crate) fn empty(alloc: Global, rack: &Rack, group: u8) -> Result<Parts, NoMemory>
        requires rack { IsRack rack.now }
        requires group { group < rack.now.groups }
        ensures { IfOk result (λ p. p ≡ empty_table rack.now group) }
    {
        let width = rack.columns + rack.parity;
        let number = rack.stripes as usize * usize::from(width);
        let first = u32::from(group) * u32::from(width);
        Ok(Parts {
            data_columns: rack.columns,
            parity: rack.parity,
            stripes: rack.stripes,
            cursor: Cursor {
                stripe: 0,
                column: 0,
            },
            columns: columns_from(alloc, first, width)?,
            slots: Vec::from_elem(alloc, SlotState::Void, number)?,
            relays: Vec::with_capacity(alloc, RELAYS)?,
        })
    }

    pub(crate) fn from_parts(
        alloc: Global,
        stripes: u32,
        cursor: Cursor,
        columns: Vec<Column>,
        slots: Vec<SlotState>,
        parity: u8,
    ) -> Result<Parts, NoMemory>
        requires { HasSize (table_of stripes cursor columns.items slots.items parity) }
        ensures { IfOk result (λ p. p ≡ table_of stripes cursor columns.items slots.items parity) }
    {
        let data_columns = (columns.len() - usize::from(parity)) as u8;
        Ok(Parts {
            data_columns,
            parity,
            stripes,
            cursor,
            columns,
            slots,
            relays: Vec::with_capacity(alloc, RELAYS)?,
        })
    }

    pub(crate) fn copy(&self, alloc: Global) -> Result<Parts, NoMemory>
        ensures { IfOk result (λ p. p ≡ self.now) }
    {
        let mut relays = Vec::with_capacity(alloc, RELAYS)?;
        relays.extend_from_slice(&self.relays)?;
        Ok(Parts {
            data_columns: self.data_columns,
            parity: self.parity,
            stripes: self.stripes,
            cursor: self.cursor,
            columns: Vec::from_slice(alloc, &self.columns)?,
            slots: Vec::from_slice(alloc, &self.slots)?,
            relays,
        })
    }
}
