//! The names of a world and its log, which has no bound.
ghost use Rattle.std.specs.Prelude.{◌≡◌, ◌<◌, Some, None, [], IfOk, MatchResult};
ghost use Rattle.std.specs.List.{position};
ghost use Rattle.pot_index.specs.declared.entry.IndexEntry.TheVariants as entry;
ghost use Rattle.pot_index.specs.Entries.{ChangesNoName, bringing, plain};
ghost use Rattle.pot_index.specs.Index.{NamesAscend, IsPublished, same_name, started, without};
ghost use Rattle.pot_index.specs.Records.{mark_of};
ghost use Rattle.pot_index.specs.Searches.{BelongsAt, RecordStandsAt};
ghost use Rattle.pot_world.specs.World.{is_reserved, is_taken, record_of};
ghost use Rattle.pot_actors.specs.Ledgers.{LogsName, index_of, names_of};

use pot_bytes::{Digest, Name, NoMemory, Rack};
use pot_index::{IndexEntry, Record, Reservation};
use std::alloc::Global;
use std::snapshot::Snapshot;

/// An entry of the log, and what clauses alone see: the record that it brought.
#[derive(Drop)]
pub(crate) struct Entered {
    pub(crate) entry: IndexEntry,
    pub(crate) brought: Option<Snapshot<Record>>,
}

/// The published records by name, the reserved names, and the log.
#[derive(Drop)]
pub(crate) struct Ledger {
    pub(crate) rack: Rack,
    pub(crate) records: Vec<Record>,
    pub(crate) reserved: Vec<Reservation>,
    pub(crate) log: Vec<Entered>,
}

/// Where the record of this name stands, or else where it belongs.
fn place_of(records: &[Record], name: &Name) -> Result<usize, usize>
    requires { NamesAscend records.now }
    ensures { MatchResult result (RecordStandsAt records.now name.now)
        (BelongsAt records.now name.now) }
{
    records.binary_search_by_key(name, |record| record.name)
}

/// Where the first reservation of this name stands.
fn reservation_of(reserved: &[Reservation], name: &Name) -> Option<usize>
    ensures { result ≡ position (λ x. same_name x.name name.now) reserved.now }
{
    reserved
        .iter()
        .position(|reservation| reservation.name == *name)
}

/// Takes the reservation of this name away, if there is one.
fn release(reserved: &mut Vec<Reservation>, name: &Name)
    ensures { reserved.new.items ≡ without name.now reserved.old.items }
{
    if let Some(at) = reservation_of(reserved, name) {
        let _ = reserved.remove(at);
    }
}

impl Ledger {
    /// No names, and no entry.
    pub(crate) fn new(alloc: Global, rack: &Rack) -> Ledger
        ensures { index_of result ≡ started rack.now [] }
    {
        Ledger {
            rack: *rack,
            records: Vec::new(alloc),
            reserved: Vec::new(alloc),
            log: Vec::new(alloc),
        }
    }

    /// Where the first record of this name stands.
    pub(crate) fn record_at(&self, name: &Name) -> Option<usize>
        ensures { result ≡ position (λ r. same_name r.name name.now) self.now.records.items }
    {
        self.records.iter().position(|record| record.name == *name)
    }

    /// A copy of the record that is published under the name.
    pub(crate) fn find(&self, alloc: Global, name: &Name) -> Result<Option<Record>, NoMemory>
        ensures { IfOk result (λ found. found ≡ record_of (names_of self.now) name.now) }
    {
        match self.record_at(name) {
            Some(at) => {
                let record = &self.records[at];
                Ok(Some(record.copy(alloc)?))
            }
            None => Ok(None),
        }
    }

    /// Whether the name is reserved.
    fn is_reserved(&self, name: &Name) -> bool
        ensures { result ≡ is_reserved (names_of self.now) name.now }
    {
        self.reserved
            .iter()
            .any(|reservation| reservation.name == *name)
    }

    /// Whether the name is published or reserved.
    pub(crate) fn is_taken(&self, name: &Name) -> bool
        ensures { result ≡ is_taken (names_of self.now) name.now }
    {
        self.record_at(name).is_some() || self.is_reserved(name)
    }

    /// Logs an entry that changes no name.
    pub(crate) fn enter(&mut self, entry: IndexEntry) -> Result<(), NoMemory>
        requires { ChangesNoName entry }
        ensures { LogsName (plain entry) self.old self.new result }
    {
        self.log.reserve(1)?;
        self.log.push_reserved(Entered {
            entry,
            brought: None,
        });
        Ok(())
    }

    /// Reserves the name.
    pub(crate) fn reserve(&mut self, job: u32, name: &Name) -> Result<(), NoMemory>
        ensures { LogsName (plain (entry.Reserve job name.now)) self.old self.new result }
    {
        self.log.reserve(1)?;
        self.reserved.reserve(1)?;
        self.reserved
            .push_reserved(Reservation { name: *name, job });
        self.log.push_reserved(Entered {
            entry: IndexEntry::Reserve { job, name: *name },
            brought: None,
        });
        Ok(())
    }

    /// Ends the reservation of the name.
    pub(crate) fn abandon(&mut self, job: u32, name: &Name) -> Result<(), NoMemory>
        ensures { LogsName (plain (entry.Abandon job name.now)) self.old self.new result }
    {
        self.log.reserve(1)?;
        release(&mut self.reserved, name);
        self.log.push_reserved(Entered {
            entry: IndexEntry::Abandon { job, name: *name },
            brought: None,
        });
        Ok(())
    }

    /// Publishes a record under a name that is not published.
    pub(crate) fn publish(&mut self, job: u32, kept: Record, mark: Digest) -> Result<(), NoMemory>
        requires ascends { NamesAscend self.old.records.items }
        requires free { ¬ IsPublished (names_of self.old) kept.name }
        requires marked { mark ≡ mark_of kept }
        ensures { LogsName (bringing (entry.Publish job kept.name (mark_of kept)) kept) self.old
            self.new result }
    {
        let Err(at) = place_of(&self.records, &kept.name) else {
            unreachable!()
        };
        self.log.reserve(1)?;
        self.records.reserve(1)?;
        let name = kept.name;
        let brought = Some(Snapshot::of(&kept));
        let Ok(()) = self.records.insert(at, kept) else {
            unreachable!()
        };
        release(&mut self.reserved, &name);
        self.log.push_reserved(Entered {
            entry: IndexEntry::Publish { job, name, mark },
            brought,
        });
        Ok(())
    }

    /// The record stands in place of that of its name.
    pub(crate) fn renew(
        &mut self,
        job: u32,
        at: usize,
        kept: Record,
        mark: Digest,
    ) -> Result<(), NoMemory>
        requires ascends { NamesAscend self.old.records.items }
        requires stands { RecordStandsAt self.old.records.items kept.name at }
        requires marked { mark ≡ mark_of kept }
        ensures { LogsName (bringing (entry.Renew job kept.name
            (mark_of kept)) kept) self.old self.new
            result }
    {
        self.log.reserve(1)?;
        let name = kept.name;
        let brought = Some(Snapshot::of(&kept));
        self.records[at] = kept;
        self.log.push_reserved(Entered {
            entry: IndexEntry::Renew { job, name, mark },
            brought,
        });
        Ok(())
    }
}
