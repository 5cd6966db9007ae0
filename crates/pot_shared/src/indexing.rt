//! The locked calls of the index.
ghost use Rattle.std.specs.Prelude.{◌≡◌, []};
ghost use Rattle.pot_rows.specs.Rows.{HasMoreParts};
ghost use Rattle.pot_index.specs.Fits.{FitsRack};

use crate::catalog::ReservationLost;
use crate::connection::Connection;
use crate::vault::{Passes, Vault};
use pot_bytes::Name;
use pot_index::{FindFault, ListFault, Listed, Record, RenewFault, ReserveFault, Split};
use pot_outside::Archive;
use std::alloc::Global;
use std::sync::Wait;

impl<A: Archive> Vault<A> {
    ghost use Rattle.pot_shared.specs.Ready.{AreReady};
    ghost use Rattle.pot_shared.specs.Seen.{RowKnowsMore, SeesFile};
    ghost use Rattle.pot_shared.specs.Catalogs.{IsIndexReady};
    ghost use Rattle.pot_shared.specs.IndexCalls.{IndexCall, HasReserved, ReservesName, ListsIndex};
    ghost use Rattle.pot_shared.specs.IndexCalls.{FindsRecord, Abandons, PublishesRecord};
    ghost use Rattle.pot_shared.specs.IndexCalls.{MayRenewBy, RenewsSplit};

    /// Reserves a name, in one turn of the index, as `Index::reserve`.
    pub fn reserve<R: Wait>(
        &self,
        rt: &R,
        passes: &mut Passes<A>,
        job: u32,
        name: &Name,
    ) -> Result<(), ReserveFault>
        requires index { IsIndexReady self.now.rack self.now.groups self.now.index
            passes.old.index }
        ensures index { IsIndexReady self.now.rack self.now.groups self.now.index passes.new.index }
        ensures groups { passes.new.groups ≡ passes.old.groups }
        ensures call { IndexCall (ReservesName job name.now result) passes.old.index
            passes.new.index }
    {
        let mut catalog = self.index.enter(rt, &mut passes.index, 0);
        catalog.rules();
        let answer = catalog.reserve(job, name);
        catalog.rules();
        self.index.leave(&mut passes.index, 0, catalog);
        answer
    }

    /// Lists the published names, in one turn of the index, as `Index::names`.
    pub fn names<R: Wait>(
        &self,
        rt: &R,
        alloc: Global,
        passes: &mut Passes<A>,
        job: u32,
    ) -> Result<Vec<Listed>, ListFault>
        requires index { IsIndexReady self.now.rack self.now.groups self.now.index
            passes.old.index }
        ensures index { IsIndexReady self.now.rack self.now.groups self.now.index passes.new.index }
        ensures groups { passes.new.groups ≡ passes.old.groups }
        ensures call { IndexCall (ListsIndex job result) passes.old.index passes.new.index }
    {
        let mut catalog = self.index.enter(rt, &mut passes.index, 0);
        catalog.rules();
        let answer = catalog.names(alloc, job);
        catalog.rules();
        self.index.leave(&mut passes.index, 0, catalog);
        answer
    }

    /// Ends the job's reservation of a name, in one turn of the index.
    ///
    /// # Errors
    /// `ReservationLost` exactly where the name is not reserved by the job when the turn is had;
    /// nothing is logged then.
    pub fn abandon<R: Wait>(
        &self,
        rt: &R,
        passes: &mut Passes<A>,
        job: u32,
        name: &Name,
    ) -> Result<(), ReservationLost>
        requires index { IsIndexReady self.now.rack self.now.groups self.now.index
            passes.old.index }
        requires reserved { HasReserved job name.now passes.old.index }
        ensures index { IsIndexReady self.now.rack self.now.groups self.now.index passes.new.index }
        ensures groups { passes.new.groups ≡ passes.old.groups }
        ensures call { IndexCall (Abandons job name.now result) passes.old.index passes.new.index }
    {
        let mut catalog = self.index.enter(rt, &mut passes.index, 0);
        catalog.rules();
        let answer = catalog.abandon(job, name);
        catalog.rules();
        self.index.leave(&mut passes.index, 0, catalog);
        answer
    }

    /// Publishes a record of one split whose puts the passes have seen, in one turn of the index.
    ///
    /// # Errors
    /// `ReservationLost` exactly where the name is not reserved by the job when the turn is had;
    /// nothing is logged then.
    pub fn publish<R: Wait>(
        &self,
        rt: &R,
        passes: &mut Passes<A>,
        job: u32,
        kept: Record,
    ) -> Result<(), ReservationLost>
        requires ready { AreReady self.now.rack self.now.groups passes.old.groups }
        requires parts { HasMoreParts 1 passes.old.groups }
        requires index { IsIndexReady self.now.rack self.now.groups self.now.index
            passes.old.index }
        requires reserved { HasReserved job kept.name passes.old.index }
        requires fits { FitsRack self.now.rack kept }
        requires seen { SeesFile passes.old.groups kept }
        requires once { kept.older ≡ [] }
        ensures index { IsIndexReady self.now.rack self.now.groups self.now.index passes.new.index }
        ensures ready { AreReady self.now.rack self.now.groups passes.new.groups }
        ensures groups { RowKnowsMore passes.old.groups passes.new.groups }
        ensures call { IndexCall (PublishesRecord job kept result) passes.old.index
            passes.new.index }
    {
        let mut catalog = self.index.enter(rt, &mut passes.index, 0);
        catalog.rules();
        let answer = catalog.publish(&self.groups, &mut passes.groups, job, kept);
        catalog.rules();
        self.index.leave(&mut passes.index, 0, catalog);
        answer
    }

    /// Gives the record of a name a new current split whose puts the passes have seen, in one turn
    /// of the index, as `Index::renew`.
    pub fn renew<R: Wait>(
        &self,
        rt: &R,
        passes: &mut Passes<A>,
        job: u32,
        name: &Name,
        split: Split,
    ) -> Result<(), RenewFault>
        requires ready { AreReady self.now.rack self.now.groups passes.old.groups }
        requires parts { HasMoreParts 1 passes.old.groups }
        requires index { IsIndexReady self.now.rack self.now.groups self.now.index
            passes.old.index }
        requires renews { MayRenewBy self.now.rack name.now split passes.old.groups
            passes.old.index }
        ensures index { IsIndexReady self.now.rack self.now.groups self.now.index passes.new.index }
        ensures ready { AreReady self.now.rack self.now.groups passes.new.groups }
        ensures groups { RowKnowsMore passes.old.groups passes.new.groups }
        ensures call { IndexCall (RenewsSplit job name.now split result)
            passes.old.index passes.new.index }
    {
        let mut catalog = self.index.enter(rt, &mut passes.index, 0);
        catalog.rules();
        let answer = catalog.renew(&self.groups, &mut passes.groups, job, name, split);
        catalog.rules();
        self.index.leave(&mut passes.index, 0, catalog);
        answer
    }

    /// Finds a record, in one turn of the index, as `Index::find`. Of a split that the record got
    /// in this session the passes have then seen every put.
    pub fn find<R: Wait>(
        &self,
        rt: &R,
        alloc: Global,
        passes: &mut Passes<A>,
        job: u32,
        name: &Name,
    ) -> Result<Record, FindFault>
        requires ready { AreReady self.now.rack self.now.groups passes.old.groups }
        requires parts { HasMoreParts 1 passes.old.groups }
        requires index { IsIndexReady self.now.rack self.now.groups self.now.index
            passes.old.index }
        ensures index { IsIndexReady self.now.rack self.now.groups self.now.index passes.new.index }
        ensures ready { AreReady self.now.rack self.now.groups passes.new.groups }
        ensures groups { RowKnowsMore passes.old.groups passes.new.groups }
        ensures call { IndexCall (FindsRecord job name.now result passes.new.groups)
            passes.old.index passes.new.index }
    {
        let mut catalog = self.index.enter(rt, &mut passes.index, 0);
        catalog.rules();
        let answer = catalog.find(alloc, &self.groups, &mut passes.groups, job, name);
        catalog.rules();
        self.index.leave(&mut passes.index, 0, catalog);
        answer
    }
}

impl<'v, A: Archive, R: Wait> Connection<'v, A, R> {
    ghost use Rattle.pot_shared.specs.Seen.{SeesFile};
    ghost use Rattle.pot_shared.specs.IndexCalls.{IndexCall, HasReserved, ReservesName, ListsIndex};
    ghost use Rattle.pot_shared.specs.IndexCalls.{FindsRecord, Abandons, PublishesRecord};
    ghost use Rattle.pot_shared.specs.IndexCalls.{MayRenewBy, RenewsSplit};
    ghost use Rattle.pot_shared.specs.Connections.{InIndex, InTied, job_of, knows, rack_of};

    /// Reserves a name, as `Vault::reserve`.
    pub fn reserve(&mut self, name: &Name) -> Result<(), ReserveFault>
        ensures { InIndex (λ b. IndexCall (ReservesName b.job name.now result)) self.old self.new }
    {
        let (rt, vault, job) = (self.rt, self.vault, self.job);
        vault.reserve(rt, &mut self.passes, job, name)
    }

    /// Lists the published names, as `Vault::names`.
    pub fn names(&mut self) -> Result<Vec<Listed>, ListFault>
        ensures { InIndex (λ b. IndexCall (ListsIndex b.job result)) self.old self.new }
    {
        let (rt, vault, job) = (self.rt, self.vault, self.job);
        vault.names(rt, self.alloc, &mut self.passes, job)
    }

    /// Ends the job's reservation of a name, as `Vault::abandon`.
    ///
    /// # Errors
    /// `ReservationLost` exactly where the name is not reserved by the job when the turn is had;
    /// nothing is logged then.
    pub fn abandon(&mut self, name: &Name) -> Result<(), ReservationLost>
        requires { HasReserved (job_of self.old) name.now (knows self.old).index }
        ensures { InIndex (λ b. IndexCall (Abandons b.job name.now result)) self.old self.new }
    {
        let (rt, vault, job) = (self.rt, self.vault, self.job);
        vault.abandon(rt, &mut self.passes, job, name)
    }

    /// Publishes a record of one split whose puts the passes have seen, as `Vault::publish`.
    ///
    /// # Errors
    /// `ReservationLost` exactly where the name is not reserved by the job when the turn is had;
    /// nothing is logged then.
    pub fn publish(&mut self, kept: Record) -> Result<(), ReservationLost>
        requires reserved { HasReserved (job_of self.old) kept.name (knows self.old).index }
        requires fits { FitsRack (rack_of self.old) kept }
        requires seen { SeesFile (knows self.old).groups kept }
        requires once { kept.older ≡ [] }
        ensures { InTied (λ b row. IndexCall (PublishesRecord b.job kept result)) self.old self.new }
    {
        let (rt, vault, job) = (self.rt, self.vault, self.job);
        vault.publish(rt, &mut self.passes, job, kept)
    }

    /// Finds a record, as `Vault::find`. Of a split that the record got in this session the passes
    /// have then seen every put.
    pub fn find(&mut self, name: &Name) -> Result<Record, FindFault>
        ensures { InTied (λ b row. IndexCall (FindsRecord b.job name.now result row))
            self.old self.new }
    {
        let (rt, vault, job) = (self.rt, self.vault, self.job);
        vault.find(rt, self.alloc, &mut self.passes, job, name)
    }

    /// Gives the record of a name a new current split whose puts the passes have seen, as
    /// `Vault::renew`.
    pub fn renew(&mut self, name: &Name, split: Split) -> Result<(), RenewFault>
        requires { MayRenewBy (rack_of self.old) name.now split (knows self.old).groups
            (knows self.old).index }
        ensures { InTied (λ b row. IndexCall (RenewsSplit b.job name.now split result))
            self.old self.new }
    {
        let (rt, vault, job) = (self.rt, self.vault, self.job);
        vault.renew(rt, &mut self.passes, job, name, split)
    }
}
