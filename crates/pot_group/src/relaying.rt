//! The relays of a group.
ghost use Rattle.std.specs.Prelude.{◌≡◌, ◌<◌, ◌↔◌, IsTrue, length, map};
ghost use Rattle.pot_bytes.specs.Rack.{log_bound};
ghost use Rattle.pot_group.specs.Relaying.{answered, flown_to};
ghost use Rattle.pot_machine.specs.Table.{width};

use crate::group::Group;
use pot_bytes::{Block, Digest, LOG_BOUND, Place, block_law};
use pot_machine::{Entry, Relay};
use pot_outside::{Archive, Failed, Held};
use pot_shelves::note;
use pot_steps::{Finished, Flight, Hopped, begin, finish, give_up, hop, mended, weight_of};
use std::snapshot::Snapshot;

/// What an advance of a relay came to.
#[derive(Clone, Copy, PartialEq, Eq, Debug)]
pub enum Advanced {
    /// The relay went over one column.
    Hopped,
    /// The target was written, and the relay ended.
    Mended,
    /// The next column's slot is not Live, or its archive has no block of its digest; a Live slot
    /// is Lost now. The relay ended.
    Ended,
}

/// Why a relay did not go on.
#[derive(Clone, Copy, PartialEq, Eq, Debug)]
pub enum AdvanceFault {
    /// The log has no room. Nothing changed.
    LogFull,
    /// No relay stands in the stripe.
    Idle,
    /// The archive of this column failed. The relay stays as it was.
    Faulted { column: u8 },
    /// The relay came to a block of another digest, and ended.
    Odd { wanted: Digest, found: Digest },
}

/// Why no relay began.
#[derive(Clone, Copy, PartialEq, Eq, Debug)]
pub enum BeginFault {
    /// The log has no room. Nothing changed.
    LogFull,
    /// The slot is Void or Live.
    Whole,
    /// A relay stands in the stripe, and rebuilds the slot of this column.
    Standing { column: u8 },
    /// No relay can rebuild the slot of column `first`, because of that of column `second`.
    TwoGone { first: u8, second: u8 },
    /// 16 relays stand.
    Crowded,
}

/// What a mend of a slot came to. Each but `Whole` and `LogFull` logged one entry.
#[derive(Clone, Copy, PartialEq, Eq, Debug)]
pub enum Mend {
    /// The slot is Void or Live. Nothing changed.
    Whole,
    /// A relay began.
    Began,
    /// A relay went over one column, or gave up.
    Extends,
    /// A relay ended, and its target was written.
    Mended,
    /// The relay of another slot came to a block of another digest, and ended.
    Passed,
    /// No relay can rebuild the slot of column `first`, because of that of column `second`.
    TwoGone { first: u8, second: u8 },
    /// The slot's relay came to a block of another digest, and ended.
    Odd { wanted: Digest, found: Digest },
    /// The archive of this column failed. The relay stays as it was.
    Faulted { column: u8 },
    /// The log has no room. Nothing changed.
    LogFull,
}

impl<A: Archive> Group<A> {
    ghost use Rattle.pot_machine.specs.declared.entry.Entry.TheVariants.{Begin};
    ghost use Rattle.pot_machine.specs.Machine.{Legal};
    ghost use Rattle.pot_machine.specs.Slot.{is_unsound};
    ghost use Rattle.pot_machine.specs.Table.{slot_at};
    ghost use Rattle.std.specs.Prelude.{IsSomeAnd, Some, Ok};
    ghost use Rattle.pot_outside.specs.Archives.{FoldTells};
    ghost use Rattle.pot_machine.specs.Table.{serving_at, next_column};
    ghost use Rattle.pot_machine.specs.Slot.{is_live};
    ghost use Rattle.pot_steps.specs.Flight.{weight_in};
    ghost use Rattle.pot_steps.specs.Flights.{flight_in};
    ghost use Rattle.pot_shelves.specs.Shelves.{plain, FoldsAt, OnShelves};
    ghost use Rattle.pot_group.specs.Group.{with_archives};
    ghost use Rattle.std.specs.Prelude.{None, []};
    ghost use Rattle.pot_machine.specs.declared.entry.Entry.TheVariants.{GaveUp};
    ghost use Rattle.pot_machine.specs.Slot.{digest_in};
    ghost use Rattle.pot_bytes.specs.Digests.{digest_of};
    ghost use Rattle.pot_steps.specs.Stripe.{Sound};
    ghost use Rattle.pot_steps.specs.Flight.{partial_of};
    ghost use Rattle.std.specs.Prelude.{Err, IsErr};
    ghost use Rattle.pot_steps.specs.RelaySteps.{no_relay};
    ghost use Rattle.std.specs.Prelude.{slice_index_or};
    ghost use Rattle.pot_group.specs.Group.{OnGroup, stripe_in, view_of, CoversOne, IsSettled};
    ghost use Rattle.pot_group.specs.Relaying.{acted, Advances, BeginMeans, HopsOver, EndsRelay};
    ghost use Rattle.pot_group.specs.Calls.{MakesCall, AdvanceCall, BeginCall, MendCall};

    /// Begins to rebuild a slot that is Lost or Broken, with a random block.
    ///
    /// # Errors
    /// In this order: `LogFull`, `Whole`, `Standing`, `TwoGone`, which is logged as Stuck,
    /// `Crowded`.
    pub fn begin(&mut self, job: u32, place: Place, blind: &Block) -> Result<(), BeginFault>
        requires job { 0 < job }
        requires stripe { place.stripe < self.old.table.stripes }
        requires column { place.column < width self.old.table }
        ensures begins { MakesCall A.account (λ told. BeginCall told job place blind.now result)
            self.old self.new }
    {
        block_law(blind);
        let _settled = self.logged();
        self.begin_there(job, place, blind)
    }

    /// Begins, or says why not.
    fn begin_there(&mut self, job: u32, place: Place, blind: &Block) -> Result<(), BeginFault>
        requires stripe { place.stripe < self.old.table.stripes }
        requires column { place.column < width self.old.table }
        ensures { BeginMeans job place.stripe place.column blind.now result self.old self.new }
    {
        if self.log.len() >= LOG_BOUND {
            return Err(BeginFault::LogFull);
        }
        let Place {
            group: _,
            column,
            stripe,
        } = place;
        if !self.is_unsound(stripe, column) {
            return Err(BeginFault::Whole);
        }
        if let Some(relay) = self.table.relay(stripe) {
            return Err(BeginFault::Standing {
                column: relay.target,
            });
        }
        if let Some(other) = self.table.stuck_by(stripe, column) {
            self.note(Entry::Stuck {
                job,
                stripe,
                column,
                other,
            });
            return Err(BeginFault::TwoGone {
                first: column,
                second: other,
            });
        }
        let entry = Entry::Begin {
            job,
            stripe,
            column,
        };
        if !self.table.legal(&entry) {
            return Err(BeginFault::Crowded);
        }
        self.begin_flight(job, place, blind);
        Ok(())
    }

    /// Whether a slot is Lost or Broken.
    fn is_unsound(&self, stripe: u32, column: u8) -> bool
        requires stripe { stripe < self.now.table.stripes }
        requires column { column < width self.now.table }
        ensures { result ≡ is_unsound (slot_at self.now.table stripe column) }
    {
        let slot = self.table.slot(stripe, column);
        !slot.is_void() && !slot.is_live()
    }

    /// Begins a flight where a relay may begin.
    fn begin_flight(&mut self, job: u32, place: Place, blind: &Block)
        requires legal { Legal self.old.table (Begin job place.stripe place.column) }
        requires room { length self.old.log < log_bound }
        ensures { self.new ≡ acted self.old (Begin job place.stripe place.column) blind.now }
    {
        block_law(blind);
        let (flight, entry) = begin(&mut self.table, job, place, blind);
        self.log.push_reserved(entry);
        self.flights.push_reserved(flight);
        self.blinds.push_reserved(Snapshot::of(blind));
    }

    /// The flight over a stripe.
    fn flight(&self, stripe: u32) -> Option<Flight>
        ensures { result ≡ flight_in self.now.flights stripe }
    {
        for flight in &self.flights {
            if flight.relay.stripe == stripe {
                return Some(*flight);
            }
        }
        None
    }

    /// Moves the relay of a stripe by one column, or ends it. It writes to no other slot than the
    /// target's.
    ///
    /// # Errors
    /// `LogFull` first, exactly where the log has 262,144 entries, and nothing changes then. `Idle`
    /// exactly where no relay stands in the stripe. `Faulted` where the archive of that column
    /// failed; the relay stays as it was. `Odd` where the relay came to a block of another digest.
    pub fn advance(&mut self, job: u32, stripe: u32) -> Result<Advanced, AdvanceFault>
        requires job { 0 < job }
        requires stripe { stripe < self.old.table.stripes }
        ensures advances { MakesCall A.account (λ told. AdvanceCall told job stripe result) self.old
            self.new }
    {
        if self.log.len() >= LOG_BOUND {
            return Err(AdvanceFault::LogFull);
        }
        let _settled = self.logged();
        let Some(flight) = self.flight(stripe) else {
            return Err(AdvanceFault::Idle);
        };
        match self.table.next_column(flight.relay) {
            Some(column) => self.go_on(job, flight, column),
            None => self.finish_flight(job, flight),
        }
    }

    /// Moves a flight by one column.
    fn go_on(&mut self, job: u32, flight: Flight, column: u8) -> Result<Advanced, AdvanceFault>
        requires here { flight_in self.old.flights flight.relay.stripe ≡ Some flight }
        requires next { next_column self.old.table flight.relay ≡ Some column }
        requires within { flight.relay.stripe < self.old.table.stripes }
        requires room { length self.old.log < log_bound }
        ensures { OnGroup A.account (λ told. Advances told job flight.relay.stripe result) self.old
            self.new }
    {
        let stripe = flight.relay.stripe;
        let _settled = self.logged();
        if !self.is_live(&flight, column) {
            self.leave_flight(job, flight);
            return Ok(Advanced::Ended);
        }
        let mut sum = flight.sum;
        match self.fold_next(&flight, column, &mut sum) {
            Ok(Held::Held) => Ok(self.hop_over(job, flight, &sum)),
            Ok(Held::Absent) => {
                self.leave_flight(job, flight);
                Ok(Advanced::Ended)
            }
            Err(Failed) => {
                self.note(Entry::Fault {
                    job,
                    stripe,
                    column,
                });
                Err(AdvanceFault::Faulted { column })
            }
        }
    }

    /// Goes one step towards the rebuilding of a slot that is Lost or Broken: begins its relay, or
    /// moves the relay that stands in its way, by one column. The blind is used exactly at `Began`.
    ///
    /// `LogFull` comes first, then `Whole`, exactly where the slot is Void or Live. Where the
    /// stripe has a relay it is moved; else `TwoGone` comes exactly where no relay can rebuild the
    /// slot. `Mended` and `Passed` may be ends of the relay of another slot.
    pub fn mend(&mut self, job: u32, place: Place, blind: &Block) -> Mend
        requires job { 0 < job }
        requires stripe { place.stripe < self.old.table.stripes }
        requires column { place.column < width self.old.table }
        ensures mends { MakesCall A.account (λ told. MendCall told job place blind.now result)
            self.old
            self.new }
    {
        let _settled = self.logged();
        match self.begin(job, place, blind) {
            Ok(()) => Mend::Began,
            Err(BeginFault::LogFull) => Mend::LogFull,
            Err(BeginFault::Whole) => Mend::Whole,
            Err(BeginFault::TwoGone { first, second }) => Mend::TwoGone { first, second },
            Err(BeginFault::Standing { column }) => {
                let step = self.advance(job, place.stripe);
                answered(step, column == place.column)
            }
            Err(BeginFault::Crowded) => {
                let stripe = self.first_stripe();
                let step = self.advance(job, stripe);
                answered(step, false)
            }
        }
    }

    /// The stripe of the first relay of all.
    fn first_stripe(&self) -> u32
        ensures value { length self.now.table.relays ≡ 16
            → result ≡ (slice_index_or self.now.table.relays 0 no_relay).stripe }
        ensures within { length self.now.table.relays ≡ 16 → result < self.now.table.stripes }
    {
        match self.table.relays().first() {
            Some(relay) => relay.stripe,
            None => 0,
        }
    }

    /// Whether the slot of a flight's next column is Live.
    fn is_live(&self, flight: &Flight, column: u8) -> bool
        requires within { flight.now.relay.stripe < self.now.table.stripes }
        requires here { flight_in self.now.flights flight.now.relay.stripe ≡ Some flight.now }
        requires next { next_column self.now.table flight.now.relay ≡ Some column }
        ensures { result ≡ is_live (slot_at self.now.table flight.now.relay.stripe column) }
    {
        self.table.slot(flight.relay.stripe, column).is_live()
    }

    /// Writes the target of a flight that went over all its columns, or ends it.
    fn finish_flight(&mut self, job: u32, flight: Flight) -> Result<Advanced, AdvanceFault>
        requires here { flight_in self.old.flights flight.relay.stripe ≡ Some flight }
        requires next { next_column self.old.table flight.relay ≡ None }
        requires room { length self.old.log < log_bound }
        ensures { OnGroup A.account (λ told. Advances told job flight.relay.stripe result) self.old
            self.new }
    {
        match finish(&mut self.table, &flight, job) {
            Finished::Ready(block) => self.write_back(job, flight, &block),
            Finished::Odd {
                wanted,
                found,
                entry,
            } => {
                let stripe = flight.relay.stripe;
                self.log.push_reserved(entry);
                self.flights.retain(|flight| flight.relay.stripe != stripe);
                Err(AdvanceFault::Odd { wanted, found })
            }
        }
    }

    /// Folds the block of a flight's next column into its sum.
    fn fold_next(&mut self, flight: &Flight, column: u8, sum: &mut Block) -> Result<Held, Failed>
        requires here { flight_in self.old.flights flight.now.relay.stripe ≡ Some flight.now }
        requires next { next_column self.old.table flight.now.relay ≡ Some column }
        requires sum { sum.old ≡ flight.now.sum }
        ensures same { self.new ≡ with_archives self.old self.new.shelves }
        ensures covers { IsErr result → CoversOne (view_of A.account.meaning self.new) column }
        ensures folds { OnShelves A.account
            (λ told.
            FoldsAt told (serving_at self.old.table flight.now.relay.stripe column)
            flight.now.relay.stripe
            (weight_in self.old.table.data_columns flight.now.relay column) sum.old sum.new result)
            self.old.shelves self.new.shelves }
    {
        let stripe = flight.relay.stripe;
        let _rules = self.table.cursor();
        let weight = weight_of(self.table.data_columns(), flight.relay, column);
        let number = self.table.archive_of(stripe, column);
        self.archives.fold(number, stripe, weight, sum)
    }

    /// Takes note of a fold over a flight's next column, whose slot is Live. `sum` is the sum after
    /// the fold.
    fn hop_over(&mut self, job: u32, flight: Flight, sum: &Block) -> Advanced
        requires here { flight_in self.old.flights flight.relay.stripe ≡ Some flight }
        requires next { IsSomeAnd (next_column self.old.table flight.relay) (λ c.
            IsTrue (is_live (slot_at self.old.table flight.relay.stripe c))
            × (IsTrue A.account.tells → FoldTells
            ((plain A.account.meaning self.old.shelves).held
            (serving_at self.old.table flight.relay.stripe c))
            flight.relay.stripe (weight_in self.old.table.data_columns flight.relay c) flight.sum
            sum.now
            (Ok Held.Held))) }
        requires within { flight.relay.stripe < self.old.table.stripes }
        requires room { length self.old.log < log_bound }
        ensures { HopsOver job sum.now result flight self.old self.new }
    {
        let mut flight = flight;
        let stripe = flight.relay.stripe;
        match hop(&mut self.table, &mut flight, job, sum) {
            Hopped::Folded(entry) => {
                self.log.push_reserved(entry);
                fly(&mut self.flights, stripe, flight.relay.last, sum);
                Advanced::Hopped
            }
            Hopped::Ended(entry) => {
                self.log.push_reserved(entry);
                self.flights.retain(|flight| flight.relay.stripe != stripe);
                Advanced::Ended
            }
        }
    }

    /// Ends a flight whose next column has no block of its slot's digest.
    fn leave_flight(&mut self, job: u32, flight: Flight)
        requires here { flight_in self.old.flights flight.relay.stripe ≡ Some flight }
        requires next { IsSomeAnd (next_column self.old.table flight.relay) (λ c.
            IsTrue A.account.tells → Sound (stripe_in A.account self.old flight.relay.stripe) c
            → ⊥) }
        requires within { flight.relay.stripe < self.old.table.stripes }
        requires room { length self.old.log < log_bound }
        ensures { IsSomeAnd (next_column self.old.table flight.relay) (λ c.
            self.new ≡ acted self.old (GaveUp job flight.relay.stripe flight.relay.target c) []) }
    {
        let stripe = flight.relay.stripe;
        let entry = give_up(&mut self.table, flight, job);
        self.log.push_reserved(entry);
        self.flights.retain(|flight| flight.relay.stripe != stripe);
    }

    /// Writes the block that a flight came to into its target's slot.
    fn write_back(
        &mut self,
        job: u32,
        flight: Flight,
        block: &Block,
    ) -> Result<Advanced, AdvanceFault>
        requires here { flight_in self.old.flights flight.relay.stripe ≡ Some flight }
        requires next { next_column self.old.table flight.relay ≡ None }
        requires partial { block.now ≡ partial_of flight }
        requires digest { digest_in (slot_at self.old.table flight.relay.stripe flight.relay.target)
            ≡ Some (digest_of block.now) }
        requires room { length self.old.log < log_bound }
        ensures { OnGroup A.account (λ told. EndsRelay told job block.now flight result) self.old
            self.new }
    {
        let stripe = flight.relay.stripe;
        let column = flight.relay.target;
        let _rules = self.table.cursor();
        let number = self.table.archive_of(stripe, column);
        match self.archives.write(number, stripe, block) {
            Ok(()) => {
                let entry = mended(&mut self.table, flight, job);
                self.log.push_reserved(entry);
                self.flights.retain(|flight| flight.relay.stripe != stripe);
                Ok(Advanced::Mended)
            }
            Err(Failed) => {
                note(
                    &mut self.table,
                    &mut self.log,
                    Entry::Fault {
                        job,
                        stripe,
                        column,
                    },
                );
                Err(AdvanceFault::Faulted { column })
            }
        }
    }
}

/// What an advance is to a mend that made it, of its slot's own relay or of another.
fn answered(step: Result<Advanced, AdvanceFault>, own: bool) -> Mend
    ensures { result ≡ answered own step }
{
    match step {
        Ok(Advanced::Hopped) => Mend::Extends,
        Ok(Advanced::Ended) => Mend::Extends,
        Ok(Advanced::Mended) => Mend::Mended,
        Err(AdvanceFault::Odd { wanted, found }) => {
            if own {
                Mend::Odd { wanted, found }
            } else {
                Mend::Passed
            }
        }
        Err(AdvanceFault::Faulted { column }) => Mend::Faulted { column },
        Err(AdvanceFault::LogFull) => Mend::LogFull,
        Err(AdvanceFault::Idle) => Mend::LogFull,
    }
}

/// A flight, after the one over this stripe has come to a column with this sum.
fn flown_to(flight: Flight, stripe: u32, last: Option<u8>, sum: &Block) -> Flight
    ensures { result ≡ flown_to stripe last sum.now flight }
{
    let here = flight.relay.stripe == stripe;
    Flight {
        relay: Relay {
            stripe: flight.relay.stripe,
            target: flight.relay.target,
            skip: flight.relay.skip,
            last: if here { last } else { flight.relay.last },
        },
        blind: flight.blind,
        sum: if here { *sum } else { flight.sum },
    }
}

/// The flight over a stripe has gone over a column, which left this sum.
fn fly(flights: &mut [Flight], stripe: u32, last: Option<u8>, sum: &Block)
    ensures { flights.new ≡ map (flown_to stripe last sum.now) flights.old }
{
    for flight in flights {
        *flight = flown_to(*flight, stripe, last, sum);
    }
}
