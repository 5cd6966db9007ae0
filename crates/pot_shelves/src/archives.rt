//! Archives by their numbers.
ghost use Rattle.std.specs.Prelude.{◌≡◌, ◌<◌, ◌≤◌, ◌==◌, ◌↔◌, [], IsTrue, IfOk, IfErr, Contains};
ghost use Rattle.std.specs.Prelude.{length, map, vec_capacity};
ghost use Rattle.std.specs.List.{position};
ghost use Rattle.pot_bytes.specs.Digests.{digest_of};
ghost use Rattle.pot_outside.specs.Archives.{IsCoherent, Reads, Writes, Folds};
ghost use Rattle.pot_shelves.specs.Shelves.{plain, numbers_of, OnShelves, OnShelf};
ghost use Rattle.pot_shelves.specs.Shelves.{IsTaken, IsOpenedNow, ReadsAt, WritesAt, FoldsAt};
ghost use Rattle.pot_shelves.specs.Shelves.{Brings};

use pot_bytes::{Block, Digest, digest_of};
use pot_outside::{Archive, Failed, Held, Marks, Shelf};
use std::alloc::{AllocError, Global};
use std::marker::Model;
use std::snapshot::Snapshot;

/// Archives with their numbers, their marks at the time when they were taken and when their table
/// had been opened, and as they were when they were taken, which takes no memory. Contracts see
/// them as `plain` data by number.
#[derive(Drop)]
pub struct Archives<A: Archive> {
    shelves: Vec<Shelf<A>>,
    /// Of each shelf, in the same order.
    marks: Vec<Marks>,
    /// Of each shelf, in the same order.
    opened: Vec<Marks>,
    /// Each shelf as it was when it was taken, in the same order.
    taken: Vec<Snapshot<Shelf<A>>>,
}

impl<A: Archive> Model for Archives<A> {
    ghost use Rattle.pot_shelves.specs.Shelves.{Shelved, numbers_of};
    ghost use Rattle.std.specs.Prelude.{◌≡◌, length, map};

    ghost Value = { Shelved A };

    ghost view = { λ a. record {
      shelves = a.shelves.items;
      marks = a.marks.items;
      opened = a.opened.items;
      taken = map (λ s. s.value) a.taken.items;
    } };

    ghost invariant = { λ a. (length a.shelves.items ≡ length a.marks.items)
        × (length a.shelves.items ≡ length a.opened.items)
        × (numbers_of (map (λ s. s.value) a.taken.items) ≡ numbers_of a.shelves.items) };
}

impl<A: Archive> Archives<A> {
    /// Takes archives, with their marks now. Where two have one number, each call reaches the
    /// first.
    ///
    /// # Errors
    /// The archives come back as they were, for want of memory alone.
    pub fn take(alloc: Global, shelves: Vec<Shelf<A>>) -> Result<Archives<A>, Vec<Shelf<A>>>
        ensures shown { IfOk result (λ s. s.shelves ≡ shelves.items) }
        ensures taken { IfOk result
            (λ s. IsTaken (IsTrue A.account.tells) (plain A.account.meaning s)) }
        ensures refused { IfErr result (λ s. s ≡ shelves) }
    {
        let Ok(marks) = marks_of(alloc, &shelves) else {
            return Err(shelves);
        };
        let Ok(opened) = marks_of(alloc, &shelves) else {
            return Err(shelves);
        };
        let Ok(taken) = snapshots_of(alloc, &shelves) else {
            return Err(shelves);
        };
        Ok(Archives {
            shelves,
            marks,
            opened,
            taken,
        })
    }

    /// Notes that their table has been opened: the marks of the opening are the counts now.
    pub fn mark_opened(&mut self)
        ensures same { self.new ≡ record self.old { opened = self.new.opened } }
        ensures opened { IsOpenedNow (IsTrue A.account.tells) (plain A.account.meaning self.new) }
    {
        self.opened.clear();
        mark_all(&self.shelves, &mut self.opened);
    }

    /// The archives, in the order in which they were taken and brought.
    pub fn hand_out(self) -> Vec<Shelf<A>>
        ensures { result.items ≡ self.shelves }
    {
        let Archives {
            shelves,
            marks: _,
            opened: _,
            taken: _,
        } = self;
        shelves
    }

    /// Reads the block of a slot of the archive of this number into `into`, where the slot has one.
    ///
    /// # Errors
    /// `Failed` only where the archive's count of faults rose.
    pub fn read(&mut self, number: u32, slot: u32, into: &mut Block) -> Result<Held, Failed>
        requires { Contains (plain A.account.meaning self.old).numbers number }
        ensures { OnShelves A.account (λ told. ReadsAt told number slot into.new result) self.old
            self.new }
    {
        read(&mut self.shelves, number, slot, into)
    }

    /// Whether an archive has this number.
    pub fn has(&self, number: u32) -> bool
        ensures { IsTrue result ↔ Contains (numbers_of self.now.shelves) number }
    {
        place_of(&self.shelves, number).is_some()
    }

    /// Adds an archive of a number that none has, with its marks now.
    ///
    /// # Errors
    /// The archive comes back, and nothing changed, for want of memory alone.
    pub fn bring(&mut self, shelf: Shelf<A>) -> Result<(), Shelf<A>>
        requires fresh { Contains (numbers_of self.old.shelves) shelf.number → ⊥ }
        ensures brought { IfOk result (λ u. OnShelves A.account
            (λ told. Brings told shelf.number (A.account.meaning shelf.archive)) self.old
            self.new) }
        ensures refused { IfErr result (λ s. (s ≡ shelf) × (self.new ≡ self.old)) }
    {
        if self.shelves.reserve(1).is_err() {
            return Err(shelf);
        }
        if self.marks.reserve(1).is_err() {
            return Err(shelf);
        }
        if self.opened.reserve(1).is_err() {
            return Err(shelf);
        }
        if self.taken.reserve(1).is_err() {
            return Err(shelf);
        }
        self.taken.push_reserved(Snapshot::of(&shelf));
        let marks = shelf.archive.marks();
        self.marks.push_reserved(marks);
        self.opened.push_reserved(marks);
        self.shelves.push_reserved(shelf);
        Ok(())
    }

    /// Folds the block of a slot of the archive of this number, times a weight, into a sum, which
    /// that archive hears as it was before.
    ///
    /// # Errors
    /// `Failed` only where the archive's count of faults rose; the sum is then as it was.
    pub fn fold(
        &mut self,
        number: u32,
        slot: u32,
        weight: u8,
        sum: &mut Block,
    ) -> Result<Held, Failed>
        requires weight { 0 < weight }
        requires number { Contains (plain A.account.meaning self.old).numbers number }
        ensures { OnShelves A.account
            (λ told. FoldsAt told number slot weight sum.old sum.new result) self.old self.new }
    {
        fold(&mut self.shelves, number, slot, weight, sum)
    }

    /// Writes a block into a slot of the archive of this number.
    ///
    /// # Errors
    /// `Failed` only where the archive's count of faults rose; the slot then has the old block, the
    /// new one or none.
    pub fn write(&mut self, number: u32, slot: u32, block: &Block) -> Result<(), Failed>
        requires { Contains (plain A.account.meaning self.old).numbers number }
        ensures { OnShelves A.account (λ told. WritesAt told number slot block.now result) self.old
            self.new }
    {
        write(&mut self.shelves, number, slot, block)
    }
}

/// The marks of archives now, in the same order.
fn marks_of<A: Archive>(alloc: Global, shelves: &[Shelf<A>]) -> Result<Vec<Marks>, AllocError>
    ensures faults { IfOk result (λ v. map (λ m. m.faults) v.items
        ≡ map (λ s. (A.account.meaning s.archive).faults) shelves.now) }
    ensures losses { IfOk result (λ v. IsTrue A.account.tells → map (λ m. m.losses) v.items
        ≡ map (λ s. (A.account.meaning s.archive).losses) shelves.now) }
    ensures coherent { IfOk result (λ v. IsTrue A.account.tells → (s : Shelf A)
        → Contains shelves.now s → IsCoherent (A.account.meaning s.archive)) }
{
    let mut marks = Vec::with_capacity(alloc, shelves.len())?;
    mark_all(shelves, &mut marks);
    Ok(marks)
}

/// Archives as they are, in the same order.
fn snapshots_of<A: Archive>(
    alloc: Global,
    shelves: &[Shelf<A>],
) -> Result<Vec<Snapshot<Shelf<A>>>, AllocError>
    ensures { IfOk result (λ v. map (λ s. s.value) v.items ≡ shelves.now) }
{
    let mut taken = Vec::with_capacity(alloc, shelves.len())?;
    for shelf in shelves {
        taken.push_reserved(Snapshot::of(shelf));
    }
    Ok(taken)
}

/// Fills an empty vector, which has room for them, with the marks of archives now, in the same
/// order.
fn mark_all<A: Archive>(shelves: &[Shelf<A>], marks: &mut Vec<Marks>)
    requires empty { marks.old.items ≡ [] }
    requires room { length shelves.now ≤ vec_capacity marks.old }
    ensures faults { map (λ m. m.faults) marks.new.items
        ≡ map (λ s. (A.account.meaning s.archive).faults) shelves.now }
    ensures losses { IsTrue A.account.tells → map (λ m. m.losses) marks.new.items
        ≡ map (λ s. (A.account.meaning s.archive).losses) shelves.now }
    ensures coherent { IsTrue A.account.tells → (s : Shelf A) → Contains shelves.now s
        → IsCoherent (A.account.meaning s.archive) }
{
    for shelf in shelves {
        marks.push_reserved(shelf.archive.marks());
    }
}

/// Reads a slot of the archive of this number.
fn read<A: Archive>(
    shelves: &mut Vec<Shelf<A>>,
    number: u32,
    slot: u32,
    into: &mut Block,
) -> Result<Held, Failed>
    requires { Contains (numbers_of shelves.old.items) number }
    ensures { OnShelf A.account number (λ told. Reads told slot into.new result) shelves.old.items
        shelves.new.items }
{
    let place = place_of(shelves, number).unwrap();
    shelves[place].archive.read(slot, into)
}

/// Folds a slot of the archive of this number.
fn fold<A: Archive>(
    shelves: &mut Vec<Shelf<A>>,
    number: u32,
    slot: u32,
    weight: u8,
    sum: &mut Block,
) -> Result<Held, Failed>
    requires weight { 0 < weight }
    requires number { Contains (numbers_of shelves.old.items) number }
    ensures { OnShelf A.account number (λ told. Folds told slot weight sum.old sum.new result)
        shelves.old.items shelves.new.items }
{
    let place = place_of(shelves, number).unwrap();
    shelves[place].archive.fold(slot, weight, sum)
}

/// Writes a slot of the archive of this number.
fn write<A: Archive>(
    shelves: &mut Vec<Shelf<A>>,
    number: u32,
    slot: u32,
    block: &Block,
) -> Result<(), Failed>
    requires { Contains (numbers_of shelves.old.items) number }
    ensures { OnShelf A.account number (λ told. Writes told slot block.now result)
        shelves.old.items shelves.new.items }
{
    let place = place_of(shelves, number).unwrap();
    shelves[place].archive.write(slot, block)
}

/// The place of the first archive of this number.
fn place_of<A>(shelves: &[Shelf<A>], number: u32) -> Option<usize>
    ensures { result ≡ position (λ s. s.number == number) shelves.now }
{
    shelves.iter().position(|shelf| shelf.number == number)
}

/// Whether a block has this digest.
pub(crate) fn has_digest(block: &Block, digest: Digest) -> bool
    ensures { IsTrue result ↔ digest_of block.now ≡ digest }
{
    digest_of(block.bytes()) == digest
}
