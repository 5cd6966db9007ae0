//! The index as a value under a turn, with a pass of each group that it keeps.
ghost use Rattle.std.specs.Prelude.{◌≡◌, [], Any};
ghost use Rattle.pot_rows.specs.Rows.{HasMoreParts};
ghost use Rattle.pot_index.specs.Calls.{Reserves, Finds, ListsNames, Renews};
ghost use Rattle.pot_index.specs.Entries.{entries, IsReserving};
ghost use Rattle.pot_index.specs.Fits.{FitsRack};
ghost use Rattle.pot_index.specs.Index.{IsIndex};
ghost use Rattle.pot_shared.specs.Ready.{AreReady};
ghost use Rattle.pot_shared.specs.Seen.{RowKnowsMore, SeesFile};
ghost use Rattle.pot_shared.specs.Catalogs.{AreTold, Publishes};
ghost use Rattle.pot_shared.specs.IndexCalls.{Abandons, MayRenew, PublishesRecord};

use crate::member::Member;
use pot_bytes::{Name, Rack};
use pot_index::{
    FindFault, Index, ListFault, Listed, Logged, Record, RenewFault, ReserveFault, Split,
};
use pot_outside::Archive;
use pot_rows::{Passes, Turns};
use pot_turn::{Kept, TurnName};
use std::alloc::Global;
use std::collections::LinkedList;
use std::marker::Model;

/// What never changes of an index under its turn: its rack, the records that it began with, and the
/// turns of the groups. No value of it is made.
pub struct CatalogOrigin {
    pub rack: Rack,
    pub read: LinkedList<Record>,
    pub names: LinkedList<TurnName>,
}

/// The name is not reserved by the job any more: the entry at this place of the index's log ended
/// that, and another pass logged it. Nothing was logged.
#[derive(Clone, Copy, PartialEq, Eq, Debug)]
pub struct ReservationLost {
    pub at: u32,
}

/// An index, and passes that have seen the puts of each split that a record got in this session.
#[derive(Drop)]
pub struct Catalog<A: Archive> {
    pub(crate) index: Index,
    pub(crate) kept: Passes<Member<A>>,
}

impl<A: Archive> Model for Catalog<A> {
    ghost use Rattle.pot_shared.specs.Catalogs.{CatalogView, KeepsSeen};

    ghost Value = { CatalogView };

    ghost view = { λ c. record { index = c.index; kept = c.kept } };

    ghost invariant = { λ c. KeepsSeen (record { index = c.index; kept = c.kept }) };
}

impl<A: Archive> Kept for Catalog<A> {
    ghost use Rattle.pot_shared.specs.Catalogs.{origin_of};

    type Entry = Logged;

    type Origin = CatalogOrigin;

    ghost log = { λ c. c.index.log };

    ghost origin = { origin_of };

    fn length(&self) -> u64 {
        self.index.logged()
    }
}

impl<A: Archive> Catalog<A> {
    /// What the index keeps. It does nothing.
    pub(crate) fn rules(&self)
        ensures { IsIndex self.now.index }
    {
        self.index.logged();
    }

    /// Reserves a name, as `Index::reserve`.
    pub(crate) fn reserve(&mut self, job: u32, name: &Name) -> Result<(), ReserveFault>
        ensures call { Reserves job name.now self.old.index self.new.index result }
        ensures kept { self.new.kept ≡ self.old.kept }
    {
        self.index.reserve(job, name)
    }

    /// Lists the published names, as `Index::names`.
    pub(crate) fn names(&mut self, alloc: Global, job: u32) -> Result<Vec<Listed>, ListFault>
        ensures call { ListsNames job self.old.index self.new.index result }
        ensures kept { self.new.kept ≡ self.old.kept }
    {
        self.index.names(alloc, job)
    }

    /// Finds a record, as `Index::find`. The caller's passes have then seen its puts, since the
    /// kept ones have.
    pub(crate) fn find(
        &mut self,
        alloc: Global,
        groups: &Turns<Member<A>>,
        passes: &mut Passes<Member<A>>,
        job: u32,
        name: &Name,
    ) -> Result<Record, FindFault>
        requires ready { AreReady self.old.index.rack groups.now.names passes.old }
        requires parts { HasMoreParts 1 passes.old }
        requires names { self.old.kept.names ≡ groups.now.names }
        ensures call { Finds job name.now self.old.index self.new.index result }
        ensures names { self.new.kept.names ≡ self.old.kept.names }
        ensures tied { RowKnowsMore passes.old passes.new }
        ensures seen { (r : Record) → Publishes self.old.index.log r → SeesFile passes.new r }
        ensures told { AreTold self.old.index }
    {
        groups.tie(passes, &mut self.kept);
        self.index.find(alloc, job, name)
    }

    /// Ends the job's reservation of a name, as `Index::abandon`.
    ///
    /// # Errors
    /// `ReservationLost` exactly where the name is not reserved by the job.
    pub(crate) fn abandon(&mut self, job: u32, name: &Name) -> Result<(), ReservationLost>
        requires { Any (IsReserving job name.now) (entries self.old.index.log) }
        ensures call { Abandons job name.now result self.old.index self.new.index }
        ensures kept { self.new.kept ≡ self.old.kept }
    {
        if let Some(at) = self.index.ended_at(job, name) {
            return Err(ReservationLost { at });
        }
        self.index.abandon(job, name);
        Ok(())
    }

    /// Publishes a record of one split whose puts the caller has seen, as `Index::publish`. The
    /// kept passes have then seen them too.
    ///
    /// # Errors
    /// `ReservationLost` exactly where the name is not reserved by the job.
    pub(crate) fn publish(
        &mut self,
        groups: &Turns<Member<A>>,
        passes: &mut Passes<Member<A>>,
        job: u32,
        kept: Record,
    ) -> Result<(), ReservationLost>
        requires ready { AreReady self.old.index.rack groups.now.names passes.old }
        requires parts { HasMoreParts 1 passes.old }
        requires names { self.old.kept.names ≡ groups.now.names }
        requires reserved { Any (IsReserving job kept.name) (entries self.old.index.log) }
        requires fits { FitsRack self.old.index.rack kept }
        requires seen { SeesFile passes.old kept }
        requires once { kept.older ≡ [] }
        ensures call { PublishesRecord job kept result self.old.index self.new.index }
        ensures names { self.new.kept.names ≡ self.old.kept.names }
        ensures tied { RowKnowsMore passes.old passes.new }
    {
        if let Some(at) = self.index.ended_at(job, &kept.name) {
            return Err(ReservationLost { at });
        }
        groups.tie(passes, &mut self.kept);
        self.index.publish(job, kept);
        Ok(())
    }

    /// Gives the record of a name a new current split whose puts the caller has seen, as
    /// `Index::renew`. The kept passes have then seen them too.
    pub(crate) fn renew(
        &mut self,
        groups: &Turns<Member<A>>,
        passes: &mut Passes<Member<A>>,
        job: u32,
        name: &Name,
        split: Split,
    ) -> Result<(), RenewFault>
        requires ready { AreReady self.old.index.rack groups.now.names passes.old }
        requires parts { HasMoreParts 1 passes.old }
        requires names { self.old.kept.names ≡ groups.now.names }
        requires rules { IsIndex self.old.index }
        requires renews { MayRenew self.old.index.rack self.old.index.now name.now split
            passes.old }
        ensures call { Renews job name.now split self.old.index self.new.index result }
        ensures names { self.new.kept.names ≡ self.old.kept.names }
        ensures tied { RowKnowsMore passes.old passes.new }
    {
        groups.tie(passes, &mut self.kept);
        self.index.renew(job, name, split)
    }
}
