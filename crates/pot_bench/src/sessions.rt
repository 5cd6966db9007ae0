//! Sessions over archives in memory: each begins with what a desk keeps, stores and fetches files,
//! and leaves a desk again.
ghost use Rattle.std.specs.Prelude.{◌≡◌, ◌<◌, ◌≤◌, [], ℕ, IsTrue, IfOk, Some, length, slice_get};
ghost use Rattle.std.proofs.Props.{props};
ghost use Rattle.pot_bytes.specs.Rack.{IsRack};
ghost use Rattle.pot_bench.specs.Plain.{meaning_in};
ghost use Rattle.pot_group.specs.Group.{view_of};
ghost use Rattle.pot_rows.specs.Ends.{HasAllParts};
ghost use Rattle.pot_shared.specs.Catalogs.{IsIndexReady};
ghost use Rattle.pot_shared.specs.Ready.{AreReady, IsTableOf};
ghost use Rattle.pot_shared.specs.Sharing.{HasAllButKept, IsRackGroup};

use crate::plain::{PlainArchive, shelf};
use crate::rows::SEED;
use pot_bytes::{Geometry, Name, Rack};
use pot_execution::TrackedGroup;
use pot_group::{Ended, StartRefused, are_homes};
use pot_image::{Image, read_image, write_image};
use pot_index::{Index, IndexEnded};
use pot_machine::GroupTable;
use pot_outside::Shelf;
use pot_pads::PadStream;
use pot_shared::{Caller, Closed, Member, Passes, Spaces, Vault};
use pot_store::{FetchFault, StoreFault, Stored, fetch_file, store_file};
use std::alloc::{AllocError, Global};
use std::sync::Wait;

/// The rack of the sessions. It has room for ten files of 800 KB, whose blocks fill nine tenths of
/// it.
const RACK: Rack = Rack {
    groups: 5,
    columns: 3,
    parity: 1,
    stripes: 4096,
    geometry: Geometry {
        fragments: 2,
        need: 2,
        shards: 3,
        blur: 16,
    },
};

/// What a session leaves to the next one.
#[derive(Drop)]
pub struct Desk {
    image: Vec<u8>,
    /// The archives of each group, column by column.
    archives: Vec<Vec<Shelf<PlainArchive>>>,
}

impl Desk {
    /// The desk of a new archive, on which nothing is stored.
    pub fn new(alloc: Global) -> Result<Desk, AllocError> {
        let mut left = Left::new(alloc, 0, RACK);
        for group in 0..RACK.groups {
            let Ok(table) = GroupTable::empty(alloc, &RACK, group) else {
                return Err(AllocError);
            };
            left.archives.push(homes(alloc, &table)?)?;
            left.image.tables.push(table)?;
            left.image.group_logs.push(Vec::new(alloc))?;
        }
        left.keep(alloc)
    }

    /// Its image.
    pub fn image(&self) -> &[u8] {
        &self.image
    }

    /// The same desk, with an archive without blocks in the place of the first of all.
    pub fn with_one_gone(self, alloc: Global) -> Result<Desk, AllocError> {
        let mut desk = self;
        for group in desk.archives.iter_mut().take(1) {
            for place in group.iter_mut().take(1) {
                *place = shelf(alloc, place.number)?;
            }
        }
        Ok(desk)
    }

    /// What a session does before its first command: it reads the image, starts each group over its
    /// archives, which reads every block that the image names, and puts the groups and the index
    /// under turns.
    pub fn open(self, alloc: Global) -> Result<Session, AllocError> {
        let Desk { image, archives } = self;
        let Ok(
            Image {
                session,
                rack,
                tables,
                records,
                group_logs: _,
                index_log: _,
            },
        ) = read_image(alloc, &image)
        else {
            return Err(AllocError);
        };
        if rack.parity != 1 {
            return Err(AllocError);
        }
        let members = start_groups(alloc, &rack, tables, archives)?;
        let Ok(index) = Index::start(alloc, &rack, records) else {
            return Err(AllocError);
        };
        match Vault::start(alloc, &rack, members, index) {
            Ok((vault, passes, spaces)) => Ok(Session {
                number: session.wrapping_add(1),
                vault,
                passes,
                spaces,
            }),
            Err(_) => Err(AllocError),
        }
    }
}

/// Archives without blocks for the columns of a table.
fn homes(alloc: Global, table: &GroupTable) -> Result<Vec<Shelf<PlainArchive>>, AllocError> {
    let mut shelves = Vec::new(alloc);
    for column in table.columns() {
        shelves.push(shelf(alloc, column.home)?)?;
    }
    Ok(shelves)
}

/// Whether the table is of a group of the rack, has one parity column, and has no relay.
fn is_of_rack(table: &GroupTable, rack: &Rack) -> bool
    ensures table { IsTrue result → IsTableOf rack.now table.now }
    ensures relays { IsTrue result → table.now.relays ≡ [] }
{
    table.data_columns() == rack.columns
        && table.parity() == rack.parity
        && table.stripes() == rack.stripes
        && table.relays().is_empty()
}

/// The group of this number, started over a table and its archives.
fn start_group(
    alloc: Global,
    rack: &Rack,
    number: u8,
    table: GroupTable,
    shelves: Vec<Shelf<PlainArchive>>,
) -> Result<Member<PlainArchive>, AllocError>
    requires parity { rack.now.parity ≡ 1 }
    ensures { IfOk result (λ m. IsRackGroup rack.now number (view_of meaning_in m.group)) }
{
    if !is_of_rack(&table, rack) || !are_homes(table.columns(), &shelves) {
        return Err(AllocError);
    }
    match TrackedGroup::start(alloc, number, table, shelves) {
        Ok(group) => Ok(Member { group }),
        Err(
            StartRefused {
                table: _,
                shelves: _,
            },
        ) => Err(AllocError),
    }
}

/// The groups of a rack, each started over its table and its archives.
fn start_groups(
    alloc: Global,
    rack: &Rack,
    tables: Vec<GroupTable>,
    archives: Vec<Vec<Shelf<PlainArchive>>>,
) -> Result<Vec<Member<PlainArchive>>, AllocError>
    requires parity { rack.now.parity ≡ 1 }
    ensures count { IfOk result (λ v. length v.items ≡ rack.now.groups) }
    ensures groups { IfOk result (λ v. (n : ℕ) (m : _) → slice_get v.items n ≡ Some m
        → IsRackGroup rack.now n (view_of meaning_in m.group)) }
{
    let mut tables = tables.into_iter();
    let mut archives = archives.into_iter();
    let mut members = Vec::new(alloc);
    for number in 0..rack.groups {
        let Some(table) = tables.next() else {
            return Err(AllocError);
        };
        let Some(shelves) = archives.next() else {
            return Err(AllocError);
        };
        members.push(start_group(alloc, rack, number, table, shelves)?)?;
    }
    Ok(members)
}

/// A session that was opened.
#[derive(Drop)]
pub struct Session {
    number: u32,
    vault: Vault<PlainArchive>,
    passes: Passes<PlainArchive>,
    spaces: Spaces<PlainArchive>,
    ghost rack: { IsRack vault.rack },
    ghost parity: { vault.rack.parity ≡ 1 },
    ghost count: { length vault.groups ≡ vault.rack.groups },
    ghost ready: { AreReady vault.rack vault.groups passes.groups } by { Prim.hlevel props },
    ghost index: { IsIndexReady vault.rack vault.groups vault.index passes.index } by { Prim.hlevel props },
    ghost parts: { HasAllButKept passes.groups × HasAllParts passes.index },
    ghost room: { length vault.groups ≤ spaces },
}

impl Session {
    ghost use Rattle.std.specs.Prelude.{true};
    ghost use Rattle.pot_pads.specs.Pads.{pads_of};
    ghost use Rattle.pot_replies.specs.Settings.{Setting};
    ghost use Rattle.pot_shared.specs.Works.{section_of, JobOnlyWriter, JobWroteOnly, IsSettingOf};
    ghost use Rattle.pot_store.specs.Stores.{DrawsFrom, StoreRow};
    ghost use Rattle.pot_store.specs.Fetches.{AreFilled, FetchRow};
    ghost use Rattle.pot_bench.specs.declared.rows.TheConstants.{SEED};
    ghost use Rattle.pot_bench.specs.Sessions.{knows};

    /// Stores a file as this job.
    ///
    /// # Errors
    /// As `store_file`.
    pub fn store<R: Wait>(
        &mut self,
        rt: &R,
        alloc: Global,
        job: u32,
        name: &Name,
        file: &[u8],
    ) -> Result<Stored, StoreFault>
        requires { 0 < job }
        ensures worked { JobWroteOnly job (knows self.old) (knows self.new) }
        ensures says { JobOnlyWriter job (knows self.old) (knows self.new) → (s : Setting)
            → IsSettingOf s self.old.vault.rack (knows self.old)
            → DrawsFrom s (pads_of SEED self.old.number job) job file.now
            → StoreRow s job name.now file.now result
            (section_of (knows self.old) (knows self.new)) }
    {
        let caller = Caller {
            rt,
            alloc,
            vault: &self.vault,
            job,
        };
        let pads = PadStream::new(&SEED, self.number, job);
        let mut connection = caller.connection(&mut self.passes);
        let stored = store_file(&mut connection, name, file, pads);
        self.passes = connection.end();
        stored
    }

    /// Fetches a file as this job.
    ///
    /// # Errors
    /// As `fetch_file`.
    pub fn fetch<R: Wait>(
        &mut self,
        rt: &R,
        alloc: Global,
        job: u32,
        name: &Name,
    ) -> Result<Vec<u8>, FetchFault>
        requires { 0 < job }
        ensures worked { JobWroteOnly job (knows self.old) (knows self.new) }
        ensures says { JobOnlyWriter job (knows self.old) (knows self.new) → (s : Setting)
            → IsSettingOf s self.old.vault.rack (knows self.old)
            → s.mends ≡ true → AreFilled s
            → FetchRow s job name.now result (section_of (knows self.old) (knows self.new)) }
    {
        let caller = Caller {
            rt,
            alloc,
            vault: &self.vault,
            job,
        };
        let mut pads = PadStream::new(&SEED, self.number, job);
        let mut connection = caller.connection(&mut self.passes);
        let fetched = fetch_file(&mut connection, name, &mut pads);
        self.passes = connection.end();
        fetched
    }

    /// Ends the session. Its image is that of its close.
    pub fn end(self, alloc: Global) -> Result<Desk, AllocError> {
        let Session {
            number,
            vault,
            passes,
            spaces,
        } = self;
        let mut left = Left::new(alloc, number, *vault.rack());
        let Closed { members, index } = vault.close(passes, spaces);
        let IndexEnded { records, log } = index.end();
        left.image.records = records;
        left.image.index_log = log;
        for Member { group } in members {
            left.end_group(group)?;
        }
        left.keep(alloc)
    }
}

/// What remains of a session, group by group.
#[derive(Drop)]
struct Left {
    image: Image,
    archives: Vec<Vec<Shelf<PlainArchive>>>,
}

impl Left {
    /// Nothing yet.
    fn new(alloc: Global, session: u32, rack: Rack) -> Left {
        Left {
            image: Image {
                session,
                rack,
                tables: Vec::new(alloc),
                records: Vec::new(alloc),
                group_logs: Vec::new(alloc),
                index_log: Vec::new(alloc),
            },
            archives: Vec::new(alloc),
        }
    }

    /// Ends a group.
    fn end_group(&mut self, group: TrackedGroup<PlainArchive>) -> Result<(), AllocError> {
        let Ended {
            table,
            log,
            shelves,
        } = group.end();
        self.image.tables.push(table)?;
        self.image.group_logs.push(log)?;
        self.archives.push(shelves)?;
        Ok(())
    }

    /// The desk on which it is kept.
    fn keep(self, alloc: Global) -> Result<Desk, AllocError> {
        let Left { image, archives } = self;
        if !image.is_countable() {
            return Err(AllocError);
        }
        match write_image(alloc, &image) {
            Ok(image) => Ok(Desk { image, archives }),
            Err(_) => Err(AllocError),
        }
    }
}
