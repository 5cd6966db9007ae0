//! Archives that come to a group: the target of a move, and one that replaces a home.
ghost use Rattle.std.specs.Prelude.{◌≡◌, ◌<◌, ◌↔◌, IsTrue, IfOk, IfErr, Contains, length};
ghost use Rattle.pot_bytes.specs.Rack.{log_bound};
ghost use Rattle.pot_machine.specs.Table.{width};
ghost use Rattle.pot_group.specs.Moving.{live_in};

use crate::group::Group;
use pot_bytes::LOG_BOUND;
use pot_machine::{Entry, GroupTable};
use pot_outside::{Archive, Shelf};
use pot_shelves::note;
use pot_steps::move_begin;

/// Why an archive was not taken.
#[derive(Clone, Copy, PartialEq, Eq, Debug)]
pub enum ShelfCause {
    /// The log has no room.
    LogFull,
    /// For a move, the column moves and has this home. Else an archive of the group has the shelf's
    /// number, which is this one.
    InUse { number: u32 },
    /// Memory is short.
    NoMemory,
}

/// An archive that was not taken.
#[derive(Drop)]
pub struct ShelfRefused<A: Archive> {
    pub shelf: Shelf<A>,
    pub cause: ShelfCause,
}

impl<A: Archive> Group<A> {
    ghost use Rattle.std.specs.Prelude.{[]};
    ghost use Rattle.pot_machine.specs.declared.entry.Entry.TheVariants.{MoveBegin, Swapped};
    ghost use Rattle.pot_machine.specs.Machine.{Legal};
    ghost use Rattle.pot_shelves.specs.Shelves.{plain, Brings, OnShelves};
    ghost use Rattle.pot_group.specs.Group.{with_archives, view_of};
    ghost use Rattle.pot_group.specs.Moving.{MoveUse};
    ghost use Rattle.pot_group.specs.Calls.{MakesCall, MoveBeginCall, SwapCall};
    ghost use Rattle.pot_group.specs.Relaying.{acted};

    /// A column begins to move to an archive that comes.
    ///
    /// # Errors
    /// In this order: `LogFull`, `InUse`, `NoMemory`. The archive is handed back, and nothing
    /// changes.
    pub fn move_begin(
        &mut self,
        job: u32,
        column: u8,
        shelf: Shelf<A>,
    ) -> Result<(), ShelfRefused<A>>
        requires job { 0 < job }
        requires column { column < width self.old.table }
        ensures moves { MakesCall A.account
            (λ told. MoveBeginCall told A.account.meaning job column shelf result) self.old
            self.new }
    {
        if self.log.len() >= LOG_BOUND {
            return Err(ShelfRefused {
                shelf,
                cause: ShelfCause::LogFull,
            });
        }
        let _settled = self.logged();
        let to = shelf.number;
        if let Some(number) = self.in_use(column, to) {
            return Err(ShelfRefused {
                shelf,
                cause: ShelfCause::InUse { number },
            });
        }
        if let Err(shelf) = self.go_to(job, column, shelf) {
            return Err(ShelfRefused {
                shelf,
                cause: ShelfCause::NoMemory,
            });
        }
        Ok(())
    }

    /// An archive that comes takes the place of a column's home, and of its target where it moves,
    /// which ends its move. The slots of the column that were Live are Lost, and the answer is how
    /// many. The archives that it had stay in the group, and serve no slot.
    ///
    /// # Errors
    /// In this order: `LogFull`, `InUse`, `NoMemory`. The archive is handed back, and nothing
    /// changes.
    pub fn swap(&mut self, job: u32, column: u8, shelf: Shelf<A>) -> Result<u32, ShelfRefused<A>>
        requires job { 0 < job }
        requires column { column < width self.old.table }
        ensures swaps { MakesCall A.account
            (λ told. SwapCall told A.account.meaning job column shelf result) self.old self.new }
    {
        if self.log.len() >= LOG_BOUND {
            return Err(ShelfRefused {
                shelf,
                cause: ShelfCause::LogFull,
            });
        }
        let _settled = self.logged();
        let to = shelf.number;
        if self.archives.has(to) {
            return Err(ShelfRefused {
                shelf,
                cause: ShelfCause::InUse { number: to },
            });
        }
        let live = live_in(&self.table, column);
        if let Err(shelf) = self.swap_to(job, column, shelf) {
            return Err(ShelfRefused {
                shelf,
                cause: ShelfCause::NoMemory,
            });
        }
        Ok(live)
    }

    /// The home of a column that moves, or else this number where an archive has it.
    fn in_use(&self, column: u8, number: u32) -> Option<u32>
        requires column { column < width self.now.table }
        ensures { MoveUse (view_of A.account.meaning self.now) column number result }
    {
        let served = &self.table.columns()[usize::from(column)];
        if served.moving.is_some() {
            return Some(served.home);
        }
        if self.archives.has(number) {
            return Some(number);
        }
        None
    }

    /// An archive comes, and a column begins to move to it. Where memory is short the archive comes
    /// back.
    pub(crate) fn go_to(&mut self, job: u32, column: u8, shelf: Shelf<A>) -> Result<(), Shelf<A>>
        requires fresh { Contains (plain A.account.meaning self.old.shelves).numbers shelf.number
            → ⊥ }
        requires legal { Legal self.old.table (MoveBegin job column shelf.number) }
        requires room { length self.old.log < log_bound }
        ensures came { IfOk result (λ u.
            (self.new
            ≡ acted (with_archives self.old self.new.shelves)
            (MoveBegin job column shelf.number) [])
            × OnShelves A.account
            (λ told. Brings told shelf.number (A.account.meaning shelf.archive))
            self.old.shelves self.new.shelves) }
        ensures refused { IfErr result (λ s. (s ≡ shelf) × (self.new ≡ self.old)) }
    {
        let to = shelf.number;
        match self.archives.bring(shelf) {
            Ok(()) => {
                let entry = move_begin(&mut self.table, job, column, to);
                self.log.push_reserved(entry);
                Ok(())
            }
            Err(shelf) => Err(shelf),
        }
    }

    /// An archive comes, and is the home of a column. Where memory is short the archive comes back.
    fn swap_to(&mut self, job: u32, column: u8, shelf: Shelf<A>) -> Result<(), Shelf<A>>
        requires fresh { Contains (plain A.account.meaning self.old.shelves).numbers shelf.number
            → ⊥ }
        requires legal { Legal self.old.table (Swapped job column shelf.number) }
        requires room { length self.old.log < log_bound }
        ensures came { IfOk result (λ u.
            (self.new
            ≡ acted (with_archives self.old self.new.shelves) (Swapped job column shelf.number)
            [])
            × OnShelves A.account
            (λ told. Brings told shelf.number (A.account.meaning shelf.archive))
            self.old.shelves self.new.shelves) }
        ensures refused { IfErr result (λ s. (s ≡ shelf) × (self.new ≡ self.old)) }
    {
        let to = shelf.number;
        match self.archives.bring(shelf) {
            Ok(()) => {
                note(
                    &mut self.table,
                    &mut self.log,
                    Entry::Swapped { job, column, to },
                );
                Ok(())
            }
            Err(shelf) => Err(shelf),
        }
    }
}

/// How many slots of a column are Live.
fn live_in(table: &GroupTable, column: u8) -> u32
    requires { column < width table.now }
    ensures { result ≡ live_in table.now column }
{
    let mut live = 0;
    for stripe in 0..table.stripes() {
        if table.slot(stripe, column).is_live() {
            live += 1;
        }
    }
    live
}
