//! How a group begins.
ghost use Rattle.std.specs.Prelude.{◌≡◌, ◌↔◌, ◌≤◌, [], IsTrue, IfOk, IfErr, map, vec_capacity};
ghost use Rattle.std.specs.List.{flat_map};
ghost use Rattle.pot_bytes.specs.Rack.{log_bound};
ghost use Rattle.pot_machine.specs.Column.{homes_of};

use crate::group::Group;
use crate::known::Known;
use crate::tried::Tried;
use pot_bytes::{Block, LOG_BOUND};
use pot_machine::{Column, Entry, GroupTable};
use pot_outside::{Archive, Shelf};
use pot_shelves::{Archives, open_all};
use pot_steps::Flight;
use std::alloc::Global;
use std::snapshot::Snapshot;

/// What a group that could not begin hands back, as it was handed in. It is want of memory alone.
pub struct StartRefused<A> {
    pub table: GroupTable,
    pub shelves: Vec<Shelf<A>>,
}

/// The memory that a group takes at its start, for its log, its flights, and the blocks whose
/// digests it knows. These are 3 KB, and stand by themselves, so that a group that is handed from
/// one to the next is small.
#[derive(Drop)]
struct Memory {
    log: Vec<Entry>,
    flights: Vec<Flight>,
    blinds: Vec<Snapshot<Block>>,
    tried: Tried,
    known: Box<Known>,
}

/// Whether these are the archives of the columns, as `Group::start` asks for them: the home of
/// each, and then the target of its move.
pub fn are_homes<A>(columns: &[Column], shelves: &[Shelf<A>]) -> bool
    ensures { IsTrue result ↔ (map (λ s. s.number) shelves.now ≡ flat_map homes_of columns.now) }
{
    let [column, columns @ ..] = columns else {
        return shelves.is_empty();
    };
    match (column.moving, shelves) {
        (None, [home, shelves @ ..]) => column.home == home.number && are_homes(columns, shelves),
        (Some(moving), [home, target, shelves @ ..]) => {
            column.home == home.number && moving.to == target.number && are_homes(columns, shelves)
        }
        _ => false,
    }
}

impl<A: Archive> Group<A> {
    ghost use Rattle.pot_machine.specs.Making.{table_of};
    ghost use Rattle.pot_shelves.specs.Shelves.{plain, IsTaken};
    ghost use Rattle.pot_shelves.specs.Opening.{HasArchives};
    ghost use Rattle.pot_machine.specs.Table.{archives_in};
    ghost use Rattle.pot_group.specs.Beginning.{Begins};

    /// The group of this number over a table and its archives, opened: the block of every Live slot
    /// is read, and what is missing or does not fit its stripe is logged by job 0. The archives
    /// are, column by column, the home and then the target of the move.
    ///
    /// # Errors
    /// `StartRefused` for want of memory alone, before any read.
    pub fn start(
        alloc: Global,
        number: u8,
        table: GroupTable,
        shelves: Vec<Shelf<A>>,
    ) -> Result<Group<A>, StartRefused<A>>
        requires relays { table.relays ≡ [] }
        requires shelves { map (λ s. s.number) shelves.items ≡ archives_in table }
        ensures begins { IfOk result
            (Begins (IsTrue A.account.tells) A.account.meaning number table shelves.items) }
        ensures refused { IfErr result (λ r. (r.table ≡ table) × (r.shelves ≡ shelves)) }
    {
        let Ok(log) = Vec::with_capacity(alloc, LOG_BOUND) else {
            return Err(StartRefused { table, shelves });
        };
        let Ok(flights) = Vec::with_capacity(alloc, 16) else {
            return Err(StartRefused { table, shelves });
        };
        let Ok(blinds) = Vec::with_capacity(alloc, LOG_BOUND) else {
            return Err(StartRefused { table, shelves });
        };
        let Ok(tried) = Tried::none(alloc) else {
            return Err(StartRefused { table, shelves });
        };
        let Ok(first) = table.copy(alloc) else {
            return Err(StartRefused { table, shelves });
        };
        let Ok(known) = Box::new(alloc, Known::nothing()) else {
            return Err(StartRefused { table, shelves });
        };
        let memory = Memory {
            log,
            flights,
            blinds,
            tried,
            known,
        };
        match Archives::take(alloc, shelves) {
            Ok(archives) => Ok(Group::open(number, first, table, memory, archives)),
            Err(shelves) => Err(StartRefused { table, shelves }),
        }
    }

    /// Opens a table over archives that were just taken.
    fn open(
        number: u8,
        first: GroupTable,
        table: GroupTable,
        memory: Memory,
        archives: Archives<A>,
    ) -> Group<A>
        requires first { first ≡ table }
        requires relays { table.relays ≡ [] }
        requires log { memory.log.items ≡ [] }
        requires room { log_bound ≤ vec_capacity memory.log }
        requires none { memory.flights.items ≡ [] }
        requires places { 16 ≤ vec_capacity memory.flights }
        requires blank { memory.blinds.items ≡ [] }
        requires blinds { log_bound ≤ vec_capacity memory.blinds }
        requires tried { memory.tried ≡ [] }
        requires taken { IsTaken (IsTrue A.account.tells) (plain A.account.meaning archives) }
        requires archives { map (λ s. s.number) archives.shelves ≡ archives_in table }
        ensures { Begins (IsTrue A.account.tells) A.account.meaning number table archives.shelves
            result }
    {
        let mut table = table;
        let Memory {
            mut log,
            flights,
            blinds,
            tried,
            known,
        } = memory;
        let mut archives = archives;
        let _rules = table.cursor();
        open_all(&mut table, &mut log, &mut archives);
        archives.mark_opened();
        Group {
            number,
            first,
            table,
            log,
            flights,
            blinds,
            tried,
            archives,
            known,
        }
    }
}
