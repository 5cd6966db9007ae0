//! Which entries are legal in a table.
ghost use Rattle.std.specs.Prelude.{◌≡◌, ◌<◌, ◌↔◌, IsTrue};
ghost use Rattle.pot_machine.specs.Table.{width};
ghost use Rattle.pot_machine.specs.Machine.{InRange, AtCursor, TakesBlocks, TakesPut, TakesSkip};
ghost use Rattle.pot_machine.specs.Machine.{TakesBroke, MayBeRebuilt, TakesRelay, GoesTo};
ghost use Rattle.pot_machine.specs.Machine.{RelayStandsAt};
ghost use Rattle.pot_machine.specs.Machine.{TakesArchive, MovesAt, stuck_by, Legal};

use crate::entry::Entry;
use crate::parts::Parts;
use crate::slot::Condition;

impl Parts {
    pub(crate) fn in_range(&self, stripe: u32, column: u8) -> bool
        ensures { IsTrue result ↔ InRange self.now stripe column }
    {
        stripe < self.stripes && column < self.width()
    }

    fn at_cursor(&self, stripe: u32) -> bool
        ensures { IsTrue result ↔ AtCursor self.now stripe }
    {
        stripe == self.cursor.stripe && stripe < self.stripes
    }

    fn takes_put(&self, stripe: u32, column: u8) -> bool
        ensures { IsTrue result ↔ TakesPut self.now stripe column }
    {
        self.at_cursor(stripe) && column == self.cursor.column && self.takes_blocks(stripe)
    }

    fn takes_blocks(&self, stripe: u32) -> bool
        requires { stripe < self.now.stripes }
        ensures { IsTrue result ↔ TakesBlocks self.now stripe }
    {
        let relay = self.relay(stripe);
        relay.is_none() && self.first(stripe, Condition::Unsound).is_none()
    }

    fn takes_skip(&self, stripe: u32) -> bool
        ensures { IsTrue result ↔ TakesSkip self.now stripe }
    {
        self.at_cursor(stripe)
            && (self.relay(stripe).is_some() || self.first(stripe, Condition::Unsound).is_some())
    }

    fn takes_relay(&self, stripe: u32, column: u8) -> bool
        ensures { IsTrue result ↔ TakesRelay self.now stripe column }
    {
        self.in_range(stripe, column)
            && self.is_rebuilt(stripe, column)
            && self.relay(stripe).is_none()
            && self
                .first_beside(stripe, column, Condition::Broken)
                .is_none()
            && self.count_beside(stripe, column, Condition::Lost) < self.parity
            && self.relays.len() < 16
    }

    fn is_rebuilt(&self, stripe: u32, column: u8) -> bool
        requires { InRange self.now stripe column }
        ensures { IsTrue result ↔ MayBeRebuilt self.now stripe column }
    {
        let slot = self.slot(stripe, column);
        slot.meets(Condition::Lost) || slot.meets(Condition::Broken) && self.parity == 1
    }

    fn goes_to(&self, stripe: u32, column: u8) -> bool
        requires { stripe < self.now.stripes }
        ensures { IsTrue result ↔ GoesTo self.now stripe column }
    {
        match self.relay(stripe) {
            None => false,
            Some(relay) => self.next_column(relay) == Some(column),
        }
    }

    fn stands_at(&self, stripe: u32, column: u8, next: Option<u8>) -> bool
        requires { stripe < self.now.stripes }
        ensures { IsTrue result ↔ RelayStandsAt self.now stripe column next }
    {
        match self.relay(stripe) {
            None => false,
            Some(relay) => relay.target == column && self.next_column(relay) == next,
        }
    }

    /// Why no relay can begin at an unsound slot, whatever else stands.
    pub(crate) fn stuck_by(&self, stripe: u32, column: u8) -> Option<u8>
        requires { stripe < self.now.stripes }
        ensures { result ≡ stuck_by self.now stripe column }
    {
        let broken = self.first(stripe, Condition::Broken);
        if self.parity == 2 && broken.is_some() {
            return broken;
        }
        if self.parity <= self.count_beside(stripe, column, Condition::Unsound) {
            return self.first_beside(stripe, column, Condition::Unsound);
        }
        None
    }

    fn takes_archive(&self, column: u8, number: u32) -> bool
        ensures { IsTrue result ↔ TakesArchive self.now column number }
    {
        column < self.width() && self.holder_of(number).is_none()
    }

    fn moves_at(&self, column: u8, stripe: u32) -> bool
        ensures { IsTrue result ↔ MovesAt self.now column stripe }
    {
        if column >= self.width() {
            return false;
        }
        match self.column(column).moving {
            None => false,
            Some(moving) => moving.upto == stripe,
        }
    }
}

impl Parts {
    pub(crate) fn legal(&self, entry: &Entry) -> bool
        ensures { IsTrue result ↔ Legal self.now entry.now }
    {
        match *entry {
            Entry::Put { stripe, column, .. } => self.parity == 1 && self.takes_put(stripe, column),
            Entry::Skip { stripe, .. } => self.takes_skip(stripe),
            Entry::Seen { stripe, column, .. } => {
                self.in_range(stripe, column) && self.slot(stripe, column).is_live()
            }
            Entry::Gone { stripe, column, .. } => self.in_range(stripe, column),
            Entry::Broke {
                job,
                stripe,
                column,
            } => job == 0 && self.in_range(stripe, column) && self.takes_broke(stripe, column),
            Entry::Fault { stripe, column, .. } => self.in_range(stripe, column),
            Entry::Begin { stripe, column, .. } => self.takes_relay(stripe, column),
            Entry::Hop { stripe, column, .. } => {
                self.in_range(stripe, column)
                    && self.goes_to(stripe, column)
                    && self.slot(stripe, column).is_live()
            }
            Entry::Mended { stripe, column, .. } => {
                self.in_range(stripe, column) && self.stands_at(stripe, column, None)
            }
            Entry::GaveUp {
                stripe,
                column,
                other,
                ..
            } => self.in_range(stripe, column) && self.stands_at(stripe, column, Some(other)),
            Entry::Oddly {
                stripe,
                column,
                found,
                ..
            } => {
                self.in_range(stripe, column)
                    && self.stands_at(stripe, column, None)
                    && !self.slot(stripe, column).has_digest(found)
            }
            Entry::Stuck {
                stripe,
                column,
                other,
                ..
            } => {
                self.in_range(stripe, column)
                    && self.slot(stripe, column).meets(Condition::Unsound)
                    && self.relay(stripe).is_none()
                    && self.stuck_by(stripe, column) == Some(other)
            }
            Entry::MoveBegin { column, to, .. } => {
                self.takes_archive(column, to) && self.column(column).moving.is_none()
            }
            Entry::Moved {
                stripe,
                column,
                copied,
                ..
            } => {
                self.moves_at(column, stripe)
                    && stripe < self.stripes
                    && (!copied || self.slot(stripe, column).is_live())
            }
            Entry::MoveEnd { column, .. } => self.moves_at(column, self.stripes),
            Entry::Swapped { column, to, .. } => self.takes_archive(column, to),
            Entry::Counted { .. } => true,
            Entry::Put2 { stripe, column, .. } => self.parity == 2
                && self.takes_put(stripe, column),
        }
    }

    fn takes_broke(&self, stripe: u32, column: u8) -> bool
        requires { InRange self.now stripe column }
        ensures { IsTrue result ↔ TakesBroke self.now stripe column }
    {
        let slot = self.slot(stripe, column);
        slot.is_live() || slot.meets(Condition::Lost)
    }
}
