//! The index.
ghost use Rattle.std.specs.Prelude.{◌≡◌, Any, IfOk, IfErr, IfSome, MatchOption, length};
ghost use Rattle.pot_bytes.specs.Rack.{IsRack};
ghost use Rattle.pot_object.specs.Pieces.{pieces_of};
ghost use Rattle.pot_index.specs.Entries.{IsReserving, entries};
ghost use Rattle.pot_index.specs.Ending.{EndsAt};
ghost use Rattle.pot_index.specs.Fits.{FitsRack, FitsSplit};
ghost use Rattle.pot_index.specs.Index.{IsIndex, AreFirstRecords, IsReservedBy, IsRecordOf};
ghost use Rattle.pot_index.specs.Index.{started};
ghost use Rattle.pot_index.specs.Calls.{Reserves, Finds, ListsNames, Renews, published_by};
ghost use Rattle.pot_index.specs.Calls.{abandoned_by};

use crate::ended::IndexEnded;
use crate::entry::IndexEntry;
use crate::fault::{FindFault, IndexRefused, ListFault, RenewFault, ReserveFault};
use crate::listed::Listed;
use crate::lists::Lists;
use crate::record::{Record, Split};
use crate::splits::MOST_OLDER;
use pot_bytes::{LOG_BOUND, Name, Rack};
use std::alloc::Global;
use std::marker::Model;

/// The index of an archive. Contracts see its rack, the records that it began with, the names now,
/// and the log of which each entry says what it brought.
#[derive(Drop)]
pub struct Index {
    lists: Lists,
}

impl Model for Index {
    ghost use Rattle.pot_index.specs.Index.{IndexView, IsIndex};

    ghost Value = { IndexView };

    ghost view = { λ i. i.lists };

    ghost invariant = { λ i. IsIndex i.lists };
}

impl Index {
    /// The index that has published these records, with no reserved name and an empty log.
    ///
    /// # Errors
    /// Want of memory alone, for the log.
    pub fn start(alloc: Global, rack: &Rack, records: Vec<Record>) -> Result<Index, IndexRefused>
        requires rack { IsRack rack.now }
        requires records { AreFirstRecords rack.now records.items }
        ensures started { IfOk result (λ i. i ≡ started rack.now records.items) }
        ensures refused { IfErr result (λ e. e.records.items ≡ records.items) }
    {
        match Lists::begin(alloc, *rack, records) {
            Ok(lists) => Ok(Index { lists }),
            Err(records) => Err(IndexRefused { records }),
        }
    }

    /// Reserves a name that is free, and keeps room for its record and for the entry that will end
    /// the reservation.
    pub fn reserve(&mut self, job: u32, name: &Name) -> Result<(), ReserveFault>
        ensures { Reserves job name.now self.old self.new result }
    {
        if self.lists.owed() + 2 > LOG_BOUND {
            return Err(ReserveFault::LogFull);
        }
        if self.lists.is_taken(name) {
            self.lists.enter(IndexEntry::Taken { job, name: *name });
            return Err(ReserveFault::Exists);
        }
        self.lists.reserve(job, *name)?;
        Ok(())
    }

    /// Publishes the record of a name that the job has reserved. It takes no memory.
    pub fn publish(&mut self, job: u32, kept: Record)
        requires reserved { IsReservedBy self.old.now job kept.name }
        requires fits { FitsRack self.old.rack kept }
        ensures { self.new ≡ published_by self.old job kept }
    {
        let Err(at) = self.lists.place_of(&kept.name) else {
            unreachable!()
        };
        self.lists.publish(at, job, kept);
    }

    /// Ends the job's reservation of the name. It takes no memory.
    pub fn abandon(&mut self, job: u32, name: &Name)
        requires { IsReservedBy self.old.now job name.now }
        ensures { self.new ≡ abandoned_by self.old job name.now }
    {
        self.lists.abandon(job, *name);
    }

    /// A copy of the record that is published under the name.
    pub fn find(&mut self, alloc: Global, job: u32, name: &Name) -> Result<Record, FindFault>
        ensures { Finds job name.now self.old self.new result }
    {
        if self.lists.owed() + 1 > LOG_BOUND {
            return Err(FindFault::LogFull);
        }
        let Ok(at) = self.lists.place_of(name) else {
            self.lists.enter(IndexEntry::Find {
                job,
                name: *name,
                found: false,
            });
            return Err(FindFault::Absent);
        };
        let found = self.lists.copy(alloc, at)?;
        self.lists.enter(IndexEntry::Find {
            job,
            name: *name,
            found: true,
        });
        Ok(found)
    }

    /// The published names in order, each with the length of its file.
    pub fn names(&mut self, alloc: Global, job: u32) -> Result<Vec<Listed>, ListFault>
        ensures { ListsNames job self.old self.new result }
    {
        if self.lists.owed() + 1 > LOG_BOUND {
            return Err(ListFault::LogFull);
        }
        let names = self.lists.listed(alloc)?;
        self.lists.enter(IndexEntry::Listed { job });
        Ok(names)
    }

    /// Gives the record that is published under the name a new current split. The old one stays, as
    /// the last of the older ones.
    pub fn renew(&mut self, job: u32, name: &Name, split: Split) -> Result<(), RenewFault>
        requires { (r : Record) × IsRecordOf self.old.now name.now r
            × FitsSplit self.old.rack (pieces_of r.length) split }
        ensures { Renews job name.now split self.old self.new result }
    {
        if self.lists.owed() + 1 > LOG_BOUND {
            return Err(RenewFault::LogFull);
        }
        let Ok(at) = self.lists.place_of(name) else {
            unreachable!()
        };
        if self.lists.older(at) == MOST_OLDER {
            self.lists.enter(IndexEntry::Often { job, name: *name });
            return Err(RenewFault::TooOften);
        }
        self.lists.renew(at, job, split)?;
        Ok(())
    }

    /// The number of entries in the log.
    pub fn logged(&self) -> u64
        ensures value { result ≡ length self.now.log }
        ensures rules { IsIndex self.now }
    {
        self.lists.logged()
    }

    /// None where the job holds its reservation of the name, else the place in the log of the entry
    /// that ended it: the first Publish or Abandon of the name with this job's number after the
    /// job's last Reserve of it.
    pub fn ended_at(&self, job: u32, name: &Name) -> Option<u32>
        requires { Any (IsReserving job name.now) (entries self.now.log) }
        ensures held { MatchOption result (IsReservedBy self.now.now job name.now)
            (λ _. ¬ IsReservedBy self.now.now job name.now) }
        ensures place { IfSome result (EndsAt job name.now (entries self.now.log)) }
    {
        self.lists.ended_at(job, name)
    }

    /// Hands out the published records by name and the log. It takes no memory.
    pub fn end(self) -> IndexEnded
        ensures records { result.records.items ≡ self.now.published }
        ensures log { result.log.items ≡ entries self.log }
        ensures rules { IsIndex self }
    {
        self.lists.end()
    }
}
