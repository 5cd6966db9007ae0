//! What the entries do to the parts of a table.
ghost use Rattle.std.specs.Prelude.{◌≡◌, ◌<◌, ◌+◌, map, length, IfSome, if◌then◌else◌};
ghost use Rattle.pot_machine.specs.Table.{width, column_at};
ghost use Rattle.pot_machine.specs.Machine.{InRange, Legal, after, with_slot, with_put};
ghost use Rattle.pot_machine.specs.Machine.{with_column, with_cursor, past, with_relay, with_hop};
ghost use Rattle.pot_machine.specs.Machine.{hopped, without_relay, with_loss, with_losses};
ghost use Rattle.pot_machine.specs.Machine.{moved_on, moved_home};
ghost use Rattle.pot_machine.specs.Rules.{IsTable};

use crate::column::{Column, Moving};
use crate::cursor::Cursor;
use crate::entry::Entry;
use crate::parts::{Parts, place};
use crate::relay::Relay;
use crate::slot::{Condition, SlotState};
use pot_bytes::Digest;

impl Parts {
    fn set_slot(&mut self, stripe: u32, column: u8, state: SlotState)
        requires { InRange self.old stripe column }
        ensures { self.new ≡ with_slot self.old stripe column state }
    {
        let place = place(stripe, column, self.width());
        self.slots[place] = state;
    }

    /// Where the slot is Live it becomes Lost.
    fn lose(&mut self, stripe: u32, column: u8)
        requires { InRange self.old stripe column }
        ensures { self.new ≡ with_loss self.old stripe column }
    {
        self.set_slot(stripe, column, self.slot(stripe, column).lost());
    }

    /// Each slot of the column that is Live becomes Lost.
    fn lose_column(&mut self, column: u8)
        requires { column < width self.old }
        ensures { self.new ≡ with_losses self.old.stripes self.old column }
    {
        for stripe in 0..self.stripes {
            self.lose(stripe, column);
        }
    }

    fn set_column(&mut self, column: u8, state: Column)
        requires { column < width self.old }
        ensures { self.new ≡ with_column self.old column state }
    {
        self.columns[usize::from(column)] = state;
    }

    /// The cursor goes one column on, or to column 0 of the next stripe after the last data column.
    fn pass(&mut self, stripe: u32, column: u8)
        requires { stripe < 4096 }
        ensures { self.new ≡ with_cursor self.old (past self.old stripe column) }
    {
        self.cursor = if column < self.data_columns - 1 {
            Cursor {
                stripe,
                column: column + 1,
            }
        } else {
            Cursor {
                stripe: stripe + 1,
                column: 0,
            }
        };
    }

    /// The cursor goes to column 0 of the next stripe.
    fn skip(&mut self, stripe: u32)
        requires { stripe < 4096 }
        ensures { self.new ≡ with_cursor self.old (record { stripe = stripe + 1; column = 0 }) }
    {
        self.cursor = Cursor {
            stripe: stripe + 1,
            column: 0,
        };
    }

    fn begin(&mut self, stripe: u32, column: u8)
        requires place { InRange self.old stripe column }
        requires few { length self.old.relays < 16 }
        ensures { self.new ≡ with_relay self.old stripe column }
    {
        let relay = Relay {
            stripe,
            target: column,
            skip: self.first_beside(stripe, column, Condition::Lost),
            last: None,
        };
        self.relays.push_reserved(relay);
    }

    fn hop(&mut self, stripe: u32, column: u8)
        ensures { self.new ≡ with_hop self.old stripe column }
    {
        hop(&mut self.relays, stripe, column);
    }

    fn end(&mut self, stripe: u32)
        ensures { self.new ≡ without_relay self.old stripe }
    {
        self.relays.retain(|relay| relay.stripe != stripe);
    }
}

/// The last column of a stripe's relay is this one.
fn hop(relays: &mut [Relay], stripe: u32, column: u8)
    ensures { relays.new ≡ map (hopped stripe column) relays.old }
{
    for relay in relays {
        *relay = relay.hopped(stripe, column);
    }
}

impl Parts {
    pub(crate) fn apply(&mut self, entry: &Entry)
        requires rules { IsTable self.old }
        requires legal { Legal self.old entry.now }
        ensures { self.new ≡ after self.old entry.now }
    {
        match *entry {
            Entry::Put {
                stripe,
                column,
                digest,
                parity_digest,
                kept,
                ..
            } => {
                self.put(stripe, column, digest, parity_digest, kept);
                self.pass(stripe, column);
            }
            Entry::Skip { stripe, .. } => self.skip(stripe),
            Entry::Seen { .. } => {}
            Entry::Gone { stripe, column, .. } => self.lose(stripe, column),
            Entry::Broke { stripe, column, .. } => {
                self.set_slot(stripe, column, self.slot(stripe, column).broken());
            }
            Entry::Fault { .. } => {}
            Entry::Begin { stripe, column, .. } => self.begin(stripe, column),
            Entry::Hop { stripe, column, .. } => self.hop(stripe, column),
            Entry::Mended { stripe, column, .. } => {
                self.set_slot(stripe, column, self.slot(stripe, column).live());
                self.end(stripe);
            }
            Entry::GaveUp { stripe, other, .. } => {
                self.lose(stripe, other);
                self.end(stripe);
            }
            Entry::Oddly { stripe, .. } => self.end(stripe),
            Entry::Stuck { .. } => {}
            Entry::MoveBegin { column, to, .. } => self.move_begin(column, to),
            Entry::Moved {
                stripe,
                column,
                copied,
                ..
            } => self.move_on(stripe, column, copied),
            Entry::MoveEnd { column, .. } => {
                self.set_column(column, self.column(column).moved_home());
            }
            Entry::Swapped { column, to, .. } => self.swap(column, to),
            Entry::Counted { .. } => {}
            Entry::Put2 {
                stripe,
                column,
                digest,
                parity_digest,
                second_digest,
                kept,
                kept2,
                ..
            } => {
                self.put(stripe, column, digest, parity_digest, kept);
                self.set_slot(
                    stripe,
                    self.data_columns + 1,
                    SlotState::parity(second_digest, kept2),
                );
                self.pass(stripe, column);
            }
        }
    }

    fn put(&mut self, stripe: u32, column: u8, digest: Digest, parity_digest: Digest, kept: bool)
        requires stripe { stripe < self.old.stripes }
        requires column { column < self.old.data_columns }
        ensures { self.new ≡ with_put self.old stripe column digest parity_digest kept }
    {
        self.set_slot(stripe, column, SlotState::Live(digest));
        self.set_slot(
            stripe,
            self.data_columns,
            SlotState::parity(parity_digest, kept),
        );
    }

    fn move_begin(&mut self, column: u8, to: u32)
        requires { column < width self.old }
        ensures { self.new
            ≡ with_column self.old column
            (record (column_at self.old column) { moving = Some (record { to = to; upto = 0 }) }) }
    {
        let home = self.column(column).home;
        let moving = Some(Moving { to, upto: 0 });
        self.set_column(column, Column { home, moving });
    }

    fn move_on(&mut self, stripe: u32, column: u8, copied: bool)
        requires place { InRange self.old stripe column }
        requires position { IfSome (column_at self.old column).moving (λ m. m.upto < 4096) }
        ensures { self.new
            ≡ with_column (if copied then self.old else with_loss self.old stripe column) column
            (moved_on (column_at self.old column)) }
    {
        let column_after = self.column(column).moved_on();
        if !copied {
            self.lose(stripe, column);
        }
        self.set_column(column, column_after);
    }

    fn swap(&mut self, column: u8, to: u32)
        requires { column < width self.old }
        ensures { self.new
            ≡ with_column (with_losses self.old.stripes self.old column) column
            (record { home = to; moving = None }) }
    {
        self.lose_column(column);
        let moved = Column {
            home: to,
            moving: None,
        };
        self.set_column(column, moved);
    }
}
