//! The parts of a table: its sizes, and lists of the lengths that they ask for. What stands in the
//! lists is not ruled here.
ghost use Rattle.std.specs.Prelude.{◌≡◌, ◌<◌, ◌≤◌, ◌+◌, ◌*◌, ℕ, IfSome};
ghost use Rattle.pot_machine.specs.Table.{width, slot_at, column_at, relay_at, first, first_beside};
ghost use Rattle.pot_machine.specs.Table.{count_beside, skipped, is_after, is_ahead, next_column};
ghost use Rattle.pot_machine.specs.Table.{holder_of};
ghost use Rattle.pot_machine.specs.Slot.{meets};

use crate::column::Column;
use crate::cursor::Cursor;
use crate::relay::Relay;
use crate::slot::{Condition, SlotState};
use std::marker::Model;

/// The parts of a table. Its type keeps that the sizes are within the limits, that the lists are as
/// long as they ask for, and that there is room for 16 relays.
#[derive(Drop)]
pub(crate) struct Parts {
    pub(crate) data_columns: u8,
    pub(crate) parity: u8,
    pub(crate) stripes: u32,
    pub(crate) cursor: Cursor,
    pub(crate) columns: Vec<Column>,
    pub(crate) slots: Vec<SlotState>,
    pub(crate) relays: Vec<Relay>,
}

impl Model for Parts {
    ghost use Rattle.pot_machine.specs.Table.{Table};

    ghost Value = { Table };

    ghost use Rattle.std.specs.Prelude.{◌≤◌, vec_capacity};
    ghost use Rattle.pot_machine.specs.Rules.{HasSize};

    ghost view = { λ p. record { data_columns = p.data_columns; parity = p.parity; stripes = p.stripes; cursor = p.cursor; columns = p.columns.items; slots = p.slots.items; relays = p.relays.items } };

    ghost invariant = { λ p. HasSize (record { data_columns = p.data_columns; parity = p.parity; stripes = p.stripes; cursor = p.cursor; columns = p.columns.items; slots = p.slots.items; relays = p.relays.items }) × (16 ≤ vec_capacity p.relays) };
}

impl Parts {
    pub(crate) fn cursor(&self) -> Cursor
        ensures { result ≡ self.now.cursor }
    {
        self.cursor
    }

    pub(crate) fn stripes(&self) -> u32
        ensures { result ≡ self.now.stripes }
    {
        self.stripes
    }

    pub(crate) fn data_columns(&self) -> u8
        ensures { result ≡ self.now.data_columns }
    {
        self.data_columns
    }

    pub(crate) fn parity(&self) -> u8
        ensures { result ≡ self.now.parity }
    {
        self.parity
    }

    pub(crate) fn columns(&self) -> &[Column]
        ensures { result.now ≡ self.now.columns }
    {
        &self.columns
    }

    pub(crate) fn relays(&self) -> &[Relay]
        ensures { result.now ≡ self.now.relays }
    {
        &self.relays
    }

    pub(crate) fn width(&self) -> u8
        ensures value { result ≡ width self.now }
        ensures small { result ≤ 18 }
    {
        self.data_columns + self.parity
    }

    pub(crate) fn slot(&self, stripe: u32, column: u8) -> SlotState
        requires stripe { stripe < self.now.stripes }
        requires column { column < width self.now }
        ensures { result ≡ slot_at self.now stripe column }
    {
        self.slots[place(stripe, column, self.width())]
    }

    pub(crate) fn column(&self, column: u8) -> Column
        requires { column < width self.now }
        ensures { result ≡ column_at self.now column }
    {
        self.columns[usize::from(column)]
    }

    /// The relay that stands in a stripe.
    pub(crate) fn relay(&self, stripe: u32) -> Option<Relay>
        ensures value { result ≡ relay_at self.now stripe }
        ensures stripe { IfSome result (λ r. r.stripe ≡ stripe) }
    {
        for relay in &self.relays {
            if relay.stripe == stripe {
                return Some(*relay);
            }
        }
        None
    }

    /// The least column whose slot meets the condition.
    #[tactic(auto, using(crate::proofs::Searches::least_more, crate::proofs::Searches::least_at, crate::proofs::Searches::least_zero))]
    pub(crate) fn first(&self, stripe: u32, condition: Condition) -> Option<u8>
        requires { stripe < self.now.stripes }
        ensures { result ≡ first self.now stripe (meets condition) }
    {
        for column in 0..self.width() {
            if self.slot(stripe, column).meets(condition) {
                return Some(column);
            }
        }
        None
    }

    /// The least other column whose slot meets the condition.
    #[tactic(auto, using(crate::proofs::Searches::least_more, crate::proofs::Searches::least_at, crate::proofs::Searches::least_zero))]
    pub(crate) fn first_beside(&self, stripe: u32, column: u8, condition: Condition) -> Option<u8>
        requires { stripe < self.now.stripes }
        ensures { result ≡ first_beside self.now stripe column (meets condition) }
    {
        for other in 0..self.width() {
            if other != column && self.slot(stripe, other).meets(condition) {
                return Some(other);
            }
        }
        None
    }

    /// How many other slots of the stripe meet the condition.
    #[tactic(auto, using(crate::proofs::Searches::count_hit, crate::proofs::Searches::count_miss, crate::proofs::Searches::count_zero, crate::proofs::Searches::count_most))]
    pub(crate) fn count_beside(&self, stripe: u32, column: u8, condition: Condition) -> u8
        requires { stripe < self.now.stripes }
        ensures { result ≡ count_beside self.now stripe column (meets condition) }
    {
        let mut number = 0;
        for other in 0..self.width() {
            if other != column && self.slot(stripe, other).meets(condition) {
                number += 1;
            }
        }
        number
    }

    /// The column that a relay goes without.
    fn skipped(&self, relay: Relay) -> u8
        ensures { result ≡ skipped self.now.data_columns relay.skip relay.target }
    {
        match relay.skip {
            Some(column) => column,
            None => {
                if relay.target <= self.data_columns {
                    self.data_columns + 1
                } else {
                    self.data_columns
                }
            }
        }
    }

    /// Whether a relay has yet to go over the column.
    fn is_ahead(&self, relay: Relay, column: u8) -> bool
        requires stripe { relay.stripe < self.now.stripes }
        requires column { column < width self.now }
        ensures { result ≡ is_ahead self.now relay column }
    {
        is_after(relay.last, column)
            && column != relay.target
            && column != self.skipped(relay)
            && !self.slot(relay.stripe, column).is_void()
    }

    /// The column that a relay goes over next.
    #[tactic(auto, using(crate::proofs::Searches::least_more, crate::proofs::Searches::least_at, crate::proofs::Searches::least_zero))]
    pub(crate) fn next_column(&self, relay: Relay) -> Option<u8>
        requires { relay.stripe < self.now.stripes }
        ensures { result ≡ next_column self.now relay }
    {
        for column in 0..self.width() {
            if self.is_ahead(relay, column) {
                return Some(column);
            }
        }
        None
    }

    /// The column whose home or target is the archive of this number.
    #[tactic(auto, using(crate::proofs::Searches::least_more, crate::proofs::Searches::least_at, crate::proofs::Searches::least_zero))]
    pub(crate) fn holder_of(&self, number: u32) -> Option<u8>
        ensures { result ≡ holder_of self.now number }
    {
        for column in 0..self.width() {
            if self.column(column).names(number) {
                return Some(column);
            }
        }
        None
    }
}

/// Whether a column is above the last one.
fn is_after(last: Option<u8>, column: u8) -> bool
    ensures { result ≡ is_after last column }
{
    match last {
        None => true,
        Some(last) => last < column,
    }
}

/// Where the slots have a slot.
pub(crate) fn place(stripe: u32, column: u8, width: u8) -> usize
    ensures { result ≡ stripe * width + column }
{
    stripe as usize * usize::from(width) + usize::from(column)
}
