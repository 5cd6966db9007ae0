//! The lists of an index, with the room for all that is to come: no call but `begin`, `reserve` and
//! `renew` takes memory.
ghost use Rattle.std.specs.Prelude.{◌≡◌, ◌<◌, ◌≤◌, ◌+◌, ◌↔◌, false, IsTrue, IfOk, OnOk, OnErr, Any};
ghost use Rattle.std.specs.Prelude.{MatchBool, MatchOption, MatchResult, HoldsAt, Contains, length};
ghost use Rattle.std.specs.Prelude.{map};
ghost use Rattle.pot_bytes.specs.Rack.{log_bound};
ghost use Rattle.pot_index.specs.Entries.{IsReserving, ChangesNoName, plain, bringing, brings};
ghost use Rattle.pot_index.specs.Entries.{entries};
ghost use Rattle.pot_index.specs.Records.{renewed, mark_of};
ghost use Rattle.pot_index.specs.Index.{IsReserved, IsReservedBy, IsNameTaken, IsFree, NamesAscend};
ghost use Rattle.pot_index.specs.Index.{started, logged, owed};
ghost use Rattle.pot_index.specs.Searches.{RecordStandsAt, BelongsAt};
ghost use Rattle.pot_index.specs.Calls.{listed_of};
ghost use Rattle.pot_index.specs.Ending.{IsNameHeld, EndsAt};

use crate::ended::IndexEnded;
use crate::ending::end_of;
use crate::entry::IndexEntry;
use crate::listed::Listed;
use crate::marks::mark_of;
use crate::record::{Record, Split};
use crate::reservation::Reservation;
use crate::search::{is_reserved, place_of, release};
use pot_bytes::{LOG_BOUND, Name, NoMemory, Rack};
use std::alloc::Global;
use std::marker::Model;
use std::snapshot::Snapshot;

/// The records by name, the reserved names, the log, and what clauses alone see: the records that
/// the index began with, and those that entries brought.
#[derive(Drop)]
pub(crate) struct Lists {
    rack: Rack,
    read: Snapshot<Vec<Record>>,
    records: Vec<Record>,
    reserved: Vec<Reservation>,
    log: Vec<IndexEntry>,
    brought: Vec<Snapshot<Record>>,
}

impl Model for Lists {
    ghost use Rattle.pot_index.specs.Index.{IndexView};

    ghost Value = { IndexView };

    ghost use Rattle.pot_index.specs.Entries.{with_brought};
    ghost use Rattle.pot_index.specs.Room.{HasAllRoom, values};

    ghost view = { λ l. record { rack = l.rack; read = l.read.value.items; now = record { published = l.records.items; reserved = l.reserved.items }; log = with_brought l.log.items (values l.brought.items) } };

    ghost invariant = { λ l. HasAllRoom l.records l.reserved l.log l.brought };
}

impl Lists {
    /// The lists of an index that has published these records. On refusal they come back.
    pub(crate) fn begin(
        alloc: Global,
        rack: Rack,
        records: Vec<Record>,
    ) -> Result<Lists, Vec<Record>>
        ensures { MatchResult result (λ l. l ≡ started rack records.items)
            (λ rs. rs.items ≡ records.items) }
    {
        let Ok(log) = Vec::with_capacity(alloc, LOG_BOUND) else {
            return Err(records);
        };
        let Ok(brought) = Vec::with_capacity(alloc, LOG_BOUND) else {
            return Err(records);
        };
        let read = Snapshot::of(&records);
        Ok(Lists {
            rack,
            read,
            records,
            reserved: Vec::new(alloc),
            log,
            brought,
        })
    }

    /// Where the record of this name stands, or else where it belongs.
    pub(crate) fn place_of(&self, name: &Name) -> Result<usize, usize>
        requires { NamesAscend self.now.now.published }
        ensures { MatchResult result (RecordStandsAt self.now.now.published name.now)
            (BelongsAt self.now.now.published name.now) }
    {
        place_of(&self.records, name)
    }

    /// Whether the name is published or reserved.
    pub(crate) fn is_taken(&self, name: &Name) -> bool
        requires { NamesAscend self.now.now.published }
        ensures { MatchBool result (IsNameTaken self.now.now name.now)
            (IsFree self.now.now name.now) }
    {
        self.is_reserved(name) || self.place_of(name).is_ok()
    }

    /// Whether the name is reserved.
    fn is_reserved(&self, name: &Name) -> bool
        ensures { IsTrue result ↔ IsReserved self.now.now name.now }
    {
        is_reserved(&self.reserved, name)
    }

    /// The number of entries, and of reserved names.
    pub(crate) fn owed(&self) -> usize
        requires { owed self.now ≤ log_bound }
        ensures { result ≡ owed self.now }
    {
        self.log.len() + self.reserved.len()
    }

    /// The number of entries.
    pub(crate) fn logged(&self) -> u64
        ensures { result ≡ length self.now.log }
    {
        self.log.len() as u64
    }

    /// How many older splits a record has.
    pub(crate) fn older(&self, at: usize) -> usize
        requires { at < length self.now.now.published }
        ensures value { HoldsAt (λ r. length r.older ≡ result) self.now.now.published at }
        ensures few { result ≤ 15 }
    {
        let record = &self.records[at];
        record.older.as_slice().len()
    }

    /// A copy of a record.
    pub(crate) fn copy(&self, alloc: Global, at: usize) -> Result<Record, NoMemory>
        requires { at < length self.now.now.published }
        ensures { IfOk result (λ r. HoldsAt (λ o. o ≡ r) self.now.now.published at) }
    {
        let record = &self.records[at];
        record.copy(alloc)
    }

    /// The published names with the lengths of their files.
    pub(crate) fn listed(&self, alloc: Global) -> Result<Vec<Listed>, NoMemory>
        ensures { IfOk result (λ v. v.items ≡ map listed_of self.now.now.published) }
    {
        let records = &self.records;
        let names = records
            .iter()
            .map(|record| Listed {
                name: record.name,
                length: record.length,
            })
            .collect(alloc)?;
        Ok(names)
    }

    /// Where the job's last reservation of the name ended, if it did.
    pub(crate) fn ended_at(&self, job: u32, name: &Name) -> Option<u32>
        requires few { length self.now.log ≤ log_bound }
        requires made { Any (IsReserving job name.now) (entries self.now.log) }
        ensures { MatchOption result (IsNameHeld job name.now (entries self.now.log))
            (EndsAt job name.now (entries self.now.log)) }
    {
        end_of(&self.log, job, name)
    }

    /// Hands out the records and the log.
    pub(crate) fn end(self) -> IndexEnded
        ensures records { result.records.items ≡ self.now.published }
        ensures log { result.log.items ≡ entries self.log }
    {
        IndexEnded {
            records: self.records,
            log: self.log,
        }
    }

    /// Logs an entry that brings no record, and reserves nothing and ends no reservation.
    pub(crate) fn enter(&mut self, entry: IndexEntry)
        requires quiet { ChangesNoName entry }
        requires room { length self.old.log < log_bound }
        ensures { self.new ≡ logged self.old (plain entry) }
    {
        self.log.push_reserved(entry);
    }

    /// Reserves the name, and keeps room for its record.
    pub(crate) fn reserve(&mut self, job: u32, name: Name) -> Result<(), NoMemory>
        requires { length self.old.log < log_bound }
        ensures ok { OnOk result
            (self.new ≡ logged self.old (plain (IndexEntry.Reserve job name))) }
        ensures err { OnErr result (self.new ≡ self.old) }
    {
        self.records.reserve(self.reserved.len() + 1)?;
        self.reserved.reserve(1)?;
        self.reserved.push_reserved(Reservation { name, job });
        self.log.push_reserved(IndexEntry::Reserve { job, name });
        Ok(())
    }

    /// Ends the reservation of the name.
    pub(crate) fn abandon(&mut self, job: u32, name: Name)
        requires { length self.old.log < log_bound }
        ensures { self.new ≡ logged self.old (plain (IndexEntry.Abandon job name)) }
    {
        release(&mut self.reserved, &name);
        self.log.push_reserved(IndexEntry::Abandon { job, name });
    }

    /// Publishes the record, whose name ends its reservation. `at` is where it belongs.
    pub(crate) fn publish(&mut self, at: usize, job: u32, kept: Record)
        requires place { BelongsAt self.old.now.published kept.name at }
        requires reserved { IsReservedBy self.old.now job kept.name }
        requires room { length self.old.log < log_bound }
        ensures { self.new
            ≡ logged self.old (bringing (IndexEntry.Publish job kept.name (mark_of kept)) kept) }
    {
        let name = kept.name;
        let mark = mark_of(&kept);
        release(&mut self.reserved, &name);
        self.brought.push_reserved(Snapshot::of(&kept));
        let Ok(()) = self.records.insert(at, kept) else {
            unreachable!()
        };
        self.log
            .push_reserved(IndexEntry::Publish { job, name, mark });
    }

    /// Gives the record at `at` a new current split. On refusal nothing changed.
    pub(crate) fn renew(&mut self, at: usize, job: u32, split: Split) -> Result<(), NoMemory>
        requires ascends { NamesAscend self.old.now.published }
        requires within { at < length self.old.now.published }
        requires few { HoldsAt (λ r. length r.older < 15) self.old.now.published at }
        requires room { length self.old.log < log_bound }
        ensures ok { OnOk result
            (HoldsAt (λ r. self.new
            ≡ logged self.old (bringing (IndexEntry.Renew job r.name (mark_of (renewed r split)))
            (renewed r split))) self.old.now.published at) }
        ensures err { OnErr result (self.new ≡ self.old) }
    {
        let record = &mut self.records[at];
        record.renew(split)?;
        let name = record.name;
        let mark = mark_of(record);
        self.brought.push_reserved(Snapshot::of(record));
        self.log
            .push_reserved(IndexEntry::Renew { job, name, mark });
        Ok(())
    }
}
