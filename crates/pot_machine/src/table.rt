//! The table of a group.
ghost use Rattle.std.specs.Prelude.{◌≡◌, ◌<◌, ◌↔◌, IsTrue, IfOk};
ghost use Rattle.pot_machine.specs.Table.{width, slot_at, relay_at, serving_at, next_column};
ghost use Rattle.pot_machine.specs.Table.{holder_of};
ghost use Rattle.pot_machine.specs.Machine.{Legal, after, Replayed, stuck_by};
ghost use Rattle.pot_machine.specs.Rules.{IsTable};
ghost use Rattle.pot_machine.specs.Making.{empty_table, table_of};
ghost use Rattle.pot_bytes.specs.Rack.{IsRack};

use crate::column::Column;
use crate::cursor::Cursor;
use crate::entry::Entry;
use crate::parts::Parts;
use crate::relay::Relay;
use crate::slot::SlotState;
use pot_bytes::{NoMemory, Rack};
use std::alloc::Global;
use std::marker::Model;

/// The table of a group. Contracts see a record of its sizes, its cursor, its columns, its slots
/// and its relays.
#[derive(Drop)]
pub struct GroupTable {
    parts: Parts,
}

impl Model for GroupTable {
    ghost use Rattle.pot_machine.specs.Table.{Table};

    ghost Value = { Table };

    ghost use Rattle.pot_machine.specs.Rules.{IsTable};

    ghost view = { λ t. t.parts };

    ghost invariant = { λ t. IsTable t.parts };
}

impl GroupTable {
    /// The table of a new group: no slot is used, the cursor is at the first place, and column c
    /// has the archive of number group·w + c as its home, where w is the number of columns of a
    /// group.
    pub fn empty(alloc: Global, rack: &Rack, group: u8) -> Result<GroupTable, NoMemory>
        requires rack { IsRack rack.now }
        requires group { group < rack.now.groups }
        ensures { IfOk result (λ t. t ≡ empty_table rack.now group) }
    {
        let parts = Parts::empty(alloc, rack, group)?;
        Ok(GroupTable { parts })
    }

    /// The table of these parts, without relays. The last columns are the parity columns, 1 or 2.
    pub fn from_parts(
        alloc: Global,
        stripes: u32,
        cursor: Cursor,
        columns: Vec<Column>,
        slots: Vec<SlotState>,
        parity: u8,
    ) -> Result<GroupTable, NoMemory>
        requires { IsTable (table_of stripes cursor columns.items slots.items parity) }
        ensures { IfOk result (λ t. t ≡ table_of stripes cursor columns.items slots.items parity) }
    {
        let parts = Parts::from_parts(alloc, stripes, cursor, columns, slots, parity)?;
        Ok(GroupTable { parts })
    }

    /// An equal table.
    pub fn copy(&self, alloc: Global) -> Result<GroupTable, NoMemory>
        ensures { IfOk result (λ t. t ≡ self.now) }
    {
        let parts = self.parts.copy(alloc)?;
        Ok(GroupTable { parts })
    }

    /// Where the next put goes.
    pub fn cursor(&self) -> Cursor
        ensures value { result ≡ self.now.cursor }
        ensures rules { IsTable self.now }
    {
        self.parts.cursor()
    }

    /// The number of stripes.
    pub fn stripes(&self) -> u32
        ensures value { result ≡ self.now.stripes }
        ensures rules { IsTable self.now }
    {
        self.parts.stripes()
    }

    /// The number of parity columns, 1 or 2.
    pub fn parity(&self) -> u8
        ensures value { result ≡ self.now.parity }
        ensures rules { IsTable self.now }
    {
        self.parts.parity()
    }

    /// The columns, data columns first.
    pub fn columns(&self) -> &[Column]
        ensures value { result.now ≡ self.now.columns }
        ensures rules { IsTable self.now }
    {
        self.parts.columns()
    }

    /// The relays, in the order in which they began.
    pub fn relays(&self) -> &[Relay]
        ensures value { result.now ≡ self.now.relays }
        ensures rules { IsTable self.now }
    {
        self.parts.relays()
    }

    /// The number of data columns, 1 to 16. They come before the parity columns.
    pub fn data_columns(&self) -> u8
        ensures value { result ≡ self.now.data_columns }
        ensures rules { IsTable self.now }
    {
        self.parts.data_columns()
    }

    /// The relay that stands in a stripe.
    pub fn relay(&self, stripe: u32) -> Option<Relay>
        ensures { result ≡ relay_at self.now stripe }
    {
        self.parts.relay(stripe)
    }

    /// The column that a relay goes over next: the least one above its last that is neither its
    /// target nor the column that it goes without, and whose slot is not Void.
    pub fn next_column(&self, relay: Relay) -> Option<u8>
        requires { relay.stripe < self.now.stripes }
        ensures { result ≡ next_column self.now relay }
    {
        self.parts.next_column(relay)
    }

    /// The other column for which `Stuck` is legal at a slot that is Lost or Broken in a stripe
    /// without a relay. It is `None` where a relay could begin there but for the number of relays.
    pub fn stuck_by(&self, stripe: u32, column: u8) -> Option<u8>
        requires { stripe < self.now.stripes }
        ensures { result ≡ stuck_by self.now stripe column }
    {
        self.parts.stuck_by(stripe, column)
    }

    /// The column whose home or target is the archive of this number.
    pub fn holder_of(&self, number: u32) -> Option<u8>
        ensures { result ≡ holder_of self.now number }
    {
        self.parts.holder_of(number)
    }

    /// The state of a slot.
    pub fn slot(&self, stripe: u32, column: u8) -> SlotState
        requires stripe { stripe < self.now.stripes }
        requires column { column < width self.now }
        ensures { result ≡ slot_at self.now stripe column }
    {
        self.parts.slot(stripe, column)
    }

    /// The number of the archive that serves a slot: the target of the column's move for stripes
    /// below its position, else the column's home.
    pub fn archive_of(&self, stripe: u32, column: u8) -> u32
        requires { column < width self.now }
        ensures { result ≡ serving_at self.now stripe column }
    {
        self.parts.column(column).serving(stripe)
    }

    /// Whether the entry is legal.
    pub fn legal(&self, entry: &Entry) -> bool
        ensures { IsTrue result ↔ Legal self.now entry.now }
    {
        self.parts.legal(entry)
    }

    /// Does what a legal entry says. It takes no memory.
    pub fn apply(&mut self, entry: &Entry)
        requires { Legal self.old entry.now }
        ensures { self.new ≡ after self.old entry.now }
    {
        self.parts.apply(entry);
    }

    /// Applies the longest front of the entries of which each is legal in turn, and says whether
    /// that is all of them.
    pub fn replay(&mut self, entries: &[Entry]) -> bool
        ensures { Replayed self.old self.new entries.now result }
    {
        for entry in entries {
            if !self.legal(entry) {
                return false;
            }
            self.apply(entry);
        }
        true
    }
}
