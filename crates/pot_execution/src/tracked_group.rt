//! A group and its execution.
ghost use Rattle.std.specs.Prelude.{◌≡◌, ◌<◌, ◌≤◌, [], IsTrue, IfOk, IfErr, map, length};
ghost use Rattle.pot_machine.specs.Table.{width, archives_in};

use pot_bytes::{Block, Place, block_law};
use pot_group::{
    Counts, Ended, Group, Kind, LogFull, Looked, Mend, MoveFault, MoveStep, PutFault, ShelfRefused,
    Standing, StartRefused, Swept, Trace, Use,
};
use pot_machine::GroupTable;
use pot_outside::{Archive, Shelf};
use pot_sealed::Sealed;
use std::alloc::Global;
use std::marker::Model;

/// A group of archives whose type keeps an execution: the calls that led to its state. Contracts
/// see it as a `Group`.
#[derive(Drop)]
pub struct TrackedGroup<A: Archive> {
    group: Group<A>,
}

impl<A: Archive> Model for TrackedGroup<A> {
    ghost use Rattle.std.specs.Prelude.{IsTrue};
    ghost use Rattle.pot_group.specs.Group.{GroupParts, view_of};
    ghost use Rattle.pot_execution.specs.Execution.{HasExecution};

    ghost Value = { GroupParts A };

    ghost view = { λ f. f.group };

    ghost invariant = { λ f. IsTrue A.account.tells
        → HasExecution (view_of A.account.meaning f.group) };
}

impl<A: Archive> TrackedGroup<A> {
    ghost use Rattle.pot_group.specs.Beginning.{Begins};
    ghost use Rattle.pot_group.specs.Calls.{MakesCall, PutCall, LookCall, CountCall};
    ghost use Rattle.pot_group.specs.Calls.{MendCall, MoveBeginCall, MoveStepCall};
    ghost use Rattle.pot_group.specs.Calls.{SwapCall};
    ghost use Rattle.pot_group.specs.Sweeping.{SweepCall};
    ghost use Rattle.pot_bytes.specs.Rack.{log_bound};
    ghost use Rattle.pot_machine.specs.Rules.{IsTable};
    ghost use Rattle.pot_group.specs.Finding.{is_of, IsPlace};
    ghost use Rattle.pot_group.specs.Standing.{IsCursorStanding};
    ghost use Rattle.pot_group.specs.Uses.{IsTrace, IsUse};
    ghost use Rattle.pot_group.specs.Group.{view_of, IsSettled};
    ghost use Rattle.pot_shelves.specs.Shelves.{numbers_of};
    ghost use Rattle.pot_group.specs.Arrivals.{HasArrived};
    ghost use Rattle.pot_execution.specs.Execution.{HasExecution};

    /// As `Group::start`.
    ///
    /// # Errors
    /// Those of `Group::start`.
    pub fn start(
        alloc: Global,
        number: u8,
        table: GroupTable,
        shelves: Vec<Shelf<A>>,
    ) -> Result<TrackedGroup<A>, StartRefused<A>>
        requires relays { table.relays ≡ [] }
        requires shelves { map (λ s. s.number) shelves.items ≡ archives_in table }
        ensures begins { IfOk result (λ f.
            Begins (IsTrue A.account.tells) A.account.meaning number table shelves.items f) }
        ensures refused { IfErr result (λ r. (r.table ≡ table) × (r.shelves ≡ shelves)) }
    {
        match Group::start(alloc, number, table, shelves) {
            Ok(group) => Ok(TrackedGroup { group }),
            Err(refused) => Err(refused),
        }
    }

    /// As `Group::put`.
    ///
    /// # Errors
    /// Those of `Group::put`.
    pub fn put(&mut self, job: u32, block: &Block) -> Result<Place, PutFault>
        requires job { 0 < job }
        ensures puts { MakesCall A.account (λ told. PutCall told job block.now result) self.old
            self.new }
    {
        block_law(block);
        let _settled = self.group.logged();
        self.group.put(job, block)
    }

    /// As `Group::look`.
    pub fn look(&mut self, job: u32, place: Place, into: &mut Block) -> Looked
        requires job { 0 < job }
        requires stripe { place.stripe < self.old.table.stripes }
        requires column { place.column < width self.old.table }
        ensures looks { MakesCall A.account (λ told. LookCall told job place into.new result)
            self.old self.new }
    {
        let _settled = self.group.logged();
        self.group.look(job, place, into)
    }

    /// As `Group::sweep`.
    pub fn sweep(&mut self, job: u32, stripe: u32, column: u8) -> Swept
        requires job { 0 < job }
        ensures sweeps { MakesCall A.account (λ told. SweepCall told job stripe column result)
            self.old self.new }
    {
        let _settled = self.group.logged();
        self.group.sweep(job, stripe, column)
    }

    /// As `Group::count`.
    ///
    /// # Errors
    /// Those of `Group::count`.
    pub fn count(&mut self, job: u32) -> Result<Counts, LogFull>
        requires job { 0 < job }
        ensures counts { MakesCall A.account (λ told. CountCall told job result) self.old
            self.new }
    {
        let _settled = self.group.logged();
        self.group.count(job)
    }

    /// As `Group::mend`.
    pub fn mend(&mut self, job: u32, place: Place, blind: &Block) -> Mend
        requires job { 0 < job }
        requires stripe { place.stripe < self.old.table.stripes }
        requires column { place.column < width self.old.table }
        ensures mends { MakesCall A.account (λ told. MendCall told job place blind.now result)
            self.old self.new }
    {
        block_law(blind);
        let _settled = self.group.logged();
        self.group.mend(job, place, blind)
    }

    /// As `Group::move_begin`.
    ///
    /// # Errors
    /// Those of `Group::move_begin`.
    pub fn move_begin(
        &mut self,
        job: u32,
        column: u8,
        shelf: Shelf<A>,
    ) -> Result<(), ShelfRefused<A>>
        requires job { 0 < job }
        requires column { column < width self.old.table }
        ensures moves { MakesCall A.account
            (λ told. MoveBeginCall told A.account.meaning job column shelf result) self.old
            self.new }
    {
        let _settled = self.group.logged();
        self.group.move_begin(job, column, shelf)
    }

    /// As `Group::move_step`.
    ///
    /// # Errors
    /// Those of `Group::move_step`.
    pub fn move_step(&mut self, job: u32, column: u8) -> Result<MoveStep, MoveFault>
        requires job { 0 < job }
        requires column { column < width self.old.table }
        ensures moves { MakesCall A.account (λ told. MoveStepCall told job column result)
            self.old self.new }
    {
        let _settled = self.group.logged();
        self.group.move_step(job, column)
    }

    /// As `Group::swap`.
    ///
    /// # Errors
    /// Those of `Group::swap`.
    pub fn swap(&mut self, job: u32, column: u8, shelf: Shelf<A>) -> Result<u32, ShelfRefused<A>>
        requires job { 0 < job }
        requires column { column < width self.old.table }
        ensures swaps { MakesCall A.account
            (λ told. SwapCall told A.account.meaning job column shelf result) self.old
            self.new }
    {
        let _settled = self.group.logged();
        self.group.swap(job, column, shelf)
    }

    /// As `Group::expect`.
    pub fn expect(&mut self, block: &Sealed, parity: &Sealed)
        ensures { self.new ≡ self.old }
    {
        self.group.expect(block, parity);
    }

    /// As `Group::next`.
    pub fn next(&self, stripe: u32, column: u8, kind: Kind) -> Option<Place>
        ensures { IsPlace self.now.number self.now.table (is_of kind) stripe column result }
    {
        self.group.next(stripe, column, kind)
    }

    /// As `Group::standing`.
    pub fn standing(&self) -> Standing
        ensures { IsCursorStanding self.now.table result }
    {
        self.group.standing()
    }

    /// As `Group::use_of`.
    pub fn use_of(&self, number: u32) -> Option<Use>
        ensures { IsUse (view_of A.account.meaning self.now) number result }
    {
        self.group.use_of(number)
    }

    /// As `Group::trace`.
    pub fn trace(&self, from: u32, to: u32) -> Trace
        ensures { IsTrace (view_of A.account.meaning self.now) from to result }
    {
        self.group.trace(from, to)
    }

    /// As `Group::logged`.
    pub fn logged(&self) -> u64
        ensures value { result ≡ length self.now.log }
        ensures bound { result ≤ log_bound }
        ensures settled { IsSettled (IsTrue A.account.tells) (view_of A.account.meaning self.now) }
        ensures first { IsTable self.now.first }
        ensures arrived { HasArrived self.now.first self.now.log
            (numbers_of self.now.shelves.shelves) }
        ensures execution { IsTrue A.account.tells → HasExecution (view_of A.account.meaning self.now) }
    {
        self.group.logged()
    }

    /// As `Group::end`. What the archives hold and have heard comes of what they meant at their
    /// taking by the steps of the group's calls alone.
    pub fn end(self) -> Ended<A>
        ensures table { result.table ≡ self.table }
        ensures log { result.log.items ≡ self.log }
        ensures shelves { result.shelves.items ≡ self.shelves.shelves }
        ensures settled { IsSettled (IsTrue A.account.tells) (view_of A.account.meaning self) }
        ensures arrived { HasArrived self.first self.log (numbers_of self.shelves.shelves) }
        ensures execution { IsTrue A.account.tells → HasExecution (view_of A.account.meaning self) }
    {
        let TrackedGroup { group } = self;
        group.end()
    }
}
