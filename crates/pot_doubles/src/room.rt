ghost use Rattle.std.specs.Prelude.{◌≡◌, ◌≢◌, ◌||◌, ℕ, OnOk, OnErr, IfOk, IfErr, MatchOption};
ghost use Rattle.std.specs.Prelude.{is_some, true, false};
ghost use Rattle.std.specs.Option.{option_copied};
ghost use Rattle.pot_doubles.specs.Calls.{IsFresh};
ghost use Rattle.pot_doubles.specs.Rooms.{archive_of, meaning_of, means_in, is_out, room_calls};
ghost use Rattle.pot_doubles.specs.Rooms.{room_fused, failures_of};
ghost use Rattle.pot_doubles.specs.Rooms.{shelves_of, any_starved, IsFirst, SameNumber};

use crate::LossyArchive;
use crate::calls::Calls;
use crate::fuse::{Fuse, begin_fused};
use pot_bytes::NoMemory;
use pot_outside::{Archive, Failed, Room, RoomFault, Shelf};
use std::alloc::{AllocError, Global};
use std::collections::BTreeMap;
use std::mem;

/// Archives in memory by number. Where two shelves have one number, the first is meant.
#[derive(Drop)]
pub struct MemRoom {
    alloc: Global,
    shelves: Vec<Shelf<LossyArchive>>,
    lent: BTreeMap<u32, u64>,
    calls: Calls,
    failures: u64,
    fuse: Option<Fuse>,
}

impl MemRoom {
    /// A room of these archives, with none out. The calls of the numbers `fails` are to fail.
    pub fn new(alloc: Global, archives: Vec<Shelf<LossyArchive>>, fails: Vec<u32>) -> MemRoom
        ensures means { (n : ℕ) → means_in result n ≡ meaning_of (archive_of archives.items n) }
        ensures lent { (n : ℕ) → is_out result n ≡ false }
        ensures calls { IsFresh (room_calls result) fails.items }
        ensures failures { failures_of result ≡ 0 }
        ensures unfused { room_fused result ≡ false }
    {
        MemRoom {
            alloc,
            shelves: archives,
            lent: BTreeMap::new(alloc),
            calls: Calls::new(fails),
            failures: 0,
            fuse: None,
        }
    }

    /// Lets this many further calls pass, of the room and of the archives that it hands out from
    /// now on, and fails all later ones. An archive that is out comes under the fuse when it is
    /// taken next.
    pub fn fuse(&mut self, calls: u64) -> Result<(), NoMemory>
        ensures fused { OnOk result (room_fused self.new ≡ true) }
        ensures refused { OnErr result (room_fused self.new ≡ room_fused self.old) }
        ensures same { (n : ℕ) → SameNumber self.old self.new n }
        ensures calls { room_calls self.new ≡ room_calls self.old }
        ensures failures { failures_of self.new ≡ failures_of self.old }
    {
        self.fuse = Some(Fuse::new(self.alloc, calls)?);
        Ok(())
    }

    /// The fuse for one archive more, where the room is under one.
    fn share_fuse(&self) -> Result<Option<Fuse>, AllocError>
        ensures { IfOk result (λ f. is_some f ≡ room_fused self.now) }
    {
        match &self.fuse {
            None => Ok(None),
            Some(fuse) => Ok(Some(fuse.share()?)),
        }
    }

    /// The archive of a number, for a look from outside. None for a number that means an empty one.
    pub fn archive(&self, number: u32) -> Option<&LossyArchive>
        ensures { option_copied result ≡ archive_of (shelves_of self.now) number }
    {
        let place = place_of(&self.shelves, number)?;
        Some(&self.shelves[place].archive)
    }

    /// Whether a call of the room, or of an archive that it holds, found no memory and had no
    /// answer for that.
    pub fn starved(&self) -> bool
        ensures { result ≡ ((room_calls self.now).starved || any_starved (shelves_of self.now)) }
    {
        self.calls.starved() || is_one_starved(&self.shelves)
    }
}

/// Puts an archive in the place of the first of this number, and hands out the one that stood
/// there. Where there is none, the archive comes back.
fn exchange(
    shelves: &mut Vec<Shelf<LossyArchive>>,
    number: u32,
    archive: LossyArchive,
) -> Result<LossyArchive, LossyArchive>
    ensures found { IfOk result (λ old. archive_of shelves.old.items number ≡ Some old) }
    ensures puts { OnOk result (archive_of shelves.new.items number ≡ Some archive) }
    ensures others { (n : ℕ) → n ≢ number →
        archive_of shelves.new.items n ≡ archive_of shelves.old.items n }
    ensures absent { OnErr result (archive_of shelves.old.items number ≡ None) }
    ensures back { IfErr result (λ back. back ≡ archive) }
    ensures same { OnErr result (shelves.new.items ≡ shelves.old.items) }
{
    match place_of(shelves, number) {
        None => Err(archive),
        Some(place) => {
            let shelf = &mut shelves[place];
            Ok(mem::replace(&mut shelf.archive, archive))
        }
    }
}

/// Puts an archive in the place of the first of this number, or at the end where there is none.
fn put_back(
    shelves: &mut Vec<Shelf<LossyArchive>>,
    number: u32,
    archive: LossyArchive,
) -> Result<(), AllocError>
    ensures puts { OnOk result (archive_of shelves.new.items number ≡ Some archive) }
    ensures others { (n : ℕ) → n ≢ number →
        archive_of shelves.new.items n ≡ archive_of shelves.old.items n }
    ensures same { OnErr result (shelves.new.items ≡ shelves.old.items) }
{
    match exchange(shelves, number, archive) {
        Ok(_taken) => Ok(()),
        Err(archive) => {
            shelves.push(Shelf { number, archive })?;
            Ok(())
        }
    }
}

/// Whether an archive of these shelves found no memory.
fn is_one_starved(shelves: &[Shelf<LossyArchive>]) -> bool
    ensures { result ≡ any_starved shelves.now }
{
    shelves.iter().any(|shelf| shelf.archive.starved())
}

/// The place of the first shelf of this number.
fn place_of(shelves: &[Shelf<LossyArchive>], number: u32) -> Option<usize>
    ensures { MatchOption result (archive_of shelves.now number ≡ None)
        (λ place. IsFirst shelves.now number place) }
{
    for (place, shelf) in shelves.iter().enumerate() {
        if shelf.number == number {
            return Some(place);
        }
    }
    None
}

impl Room for MemRoom {
    ghost use Rattle.std.specs.Prelude.{◌≡◌, ◌≢◌, ◌||◌, ℕ, true, false, IsErr, IsErrOf, IfOk, OnOk};
    ghost use Rattle.std.specs.Prelude.{OnErr};
    ghost use Rattle.pot_outside.specs.Counts.{Caused, Rose};
    ghost use Rattle.pot_outside.specs.Archives.{IsMeant, IsVacant};
    ghost use Rattle.pot_outside.specs.Rooms.{MayLose};
    ghost use Rattle.pot_doubles.specs.Archives.{archive_calls, archive_fused, meaning_in};
    ghost use Rattle.pot_doubles.specs.Calls.{covering, raised, AnsweredFused, FailsFused};
    ghost use Rattle.pot_doubles.specs.Rooms.{means_in, is_out, lent_of, room_calls, room_fused};
    ghost use Rattle.pot_doubles.specs.Rooms.{fused_at, failures_of, SameNumber};

    type A = LossyArchive;

    ghost meaning = { λ r. record {
      out = is_out r;
      means = means_in r;
      lent = lent_of r;
      faults = (room_calls r).faults;
      failures = failures_of r;
    } };

    fn take(&mut self, number: u32) -> Result<LossyArchive, RoomFault>
        requires { is_out self.old number ≡ false }
        ensures told { IfOk result (λ a. IsMeant (means_in self.old number) (meaning_in a)) }
        ensures lends { IfOk result (λ a. lent_of self.new number ≡ (archive_calls a).faults) }
        ensures taken { OnOk result (is_out self.new number ≡ true) }
        ensures vacates { OnOk result (IsVacant (means_in self.new number)) }
        ensures refused { OnErr result (is_out self.new number ≡ false) }
        ensures unchanged { OnErr result (means_in self.new number ≡ means_in self.old number) }
        ensures others { (n : ℕ) → n ≢ number → SameNumber self.old self.new n }
        ensures cause { Caused (room_calls self.old).faults (room_calls self.new).faults
            (IsErrOf result RoomFault.Failed) }
        ensures own { Caused (failures_of self.old) (failures_of self.new)
            (IsErrOf result RoomFault.Failed) }
        ensures sound { OnOk result (failures_of self.new ≡ failures_of self.old) }
        ensures starved { IsErrOf result RoomFault.NoMemory →
            failures_of self.new ≡ failures_of self.old }
        ensures raised { IsErrOf result RoomFault.Failed →
            failures_of self.new ≡ raised (failures_of self.old) }
        ensures counted { FailsFused (room_fused self.old) (room_calls self.old)
            (room_calls self.new) (IsErrOf result RoomFault.Failed) }
        ensures fused { IfOk result (λ a.
            archive_fused a ≡ (room_fused self.old || fused_at self.old number)) }
        ensures fuse { room_fused self.new ≡ room_fused self.old }
    {
        if begin_fused(&mut self.calls, &self.fuse) {
            self.failures = self.failures.saturating_add(1);
            return Err(RoomFault::Failed);
        }
        let Ok(fuse) = self.share_fuse() else {
            return Err(RoomFault::NoMemory);
        };
        let faults = match self.archive(number) {
            Some(archive) => archive.marks().faults,
            None => 0,
        };
        if self.lent.insert(number, faults).is_err() {
            return Err(RoomFault::NoMemory);
        }
        let empty = LossyArchive::new(self.alloc, Vec::new(self.alloc), Vec::new(self.alloc));
        match exchange(&mut self.shelves, number, empty) {
            Ok(archive) | Err(archive) => Ok(archive.under(fuse)),
        }
    }

    fn give(&mut self, number: u32, archive: LossyArchive) -> Result<(), Failed>
        requires { is_out self.old number ≡ true }
        ensures told { OnOk result (IsMeant (means_in self.new number) (meaning_in archive)) }
        ensures lost { OnErr result (MayLose (means_in self.old number) (meaning_in archive)
            (means_in self.new number)) }
        ensures back { is_out self.new number ≡ false }
        ensures others { (n : ℕ) → n ≢ number → SameNumber self.old self.new n }
        ensures covers { Rose (lent_of self.old number) (archive_calls archive).faults →
            Rose (room_calls self.old).faults (room_calls self.new).faults }
        ensures cause { Caused (room_calls self.old).faults (room_calls self.new).faults
            (IsErr result) }
        ensures own { Caused (failures_of self.old) (failures_of self.new) (IsErr result) }
        ensures sound { OnOk result (failures_of self.new ≡ failures_of self.old) }
        ensures raised { OnErr result (failures_of self.new ≡ raised (failures_of self.old)) }
        ensures counted { AnsweredFused (room_fused self.old)
            (covering (lent_of self.old number) (archive_calls archive).faults)
            (room_calls self.old) (room_calls self.new) result }
        ensures fuse { room_fused self.new ≡ room_fused self.old }
    {
        let fails = begin_fused(&mut self.calls, &self.fuse);
        let before = self.lent.remove(&number).unwrap_or(0);
        self.calls.cover(before, archive.marks().faults);
        if fails {
            self.failures = self.failures.saturating_add(1);
            return Err(Failed);
        }
        match put_back(&mut self.shelves, number, archive) {
            Ok(()) => Ok(()),
            Err(AllocError) => {
                self.calls.starve();
                self.failures = self.failures.saturating_add(1);
                Err(Failed)
            }
        }
    }
}

#[cfg(test)]
mod tests {
    use super::*;
    use pot_bytes::Block;
    use pot_outside::Held;
    use std::test::Fail;

    /// An archive whose slot 0 is filled with this byte, and of which the second call fails.
    fn filled(alloc: Global, byte: u8) -> Result<LossyArchive, Fail> {
        let mut archive = LossyArchive::new(alloc, [1].to_vec(alloc)?, Vec::new(alloc));
        archive
            .write(0, &Block::from_bytes([byte; 1024]))
            .map_err(|_| "no memory")?;
        Ok(archive)
    }

    fn first_byte(room: &MemRoom, number: u32) -> Option<u8> {
        Some(room.archive(number)?.block(0)?.bytes()[0])
    }

    #[test]
    fn lends_and_takes_back(rt: HostRuntime) -> Result<(), Fail> {
        let alloc = rt.alloc();
        let mut shelves = Vec::new(alloc);
        for (number, byte) in [(5, 50), (6, 60), (5, 55)] {
            shelves.push(Shelf {
                number,
                archive: filled(alloc, byte)?,
            })?;
        }
        let mut room = MemRoom::new(alloc, shelves, [2, 5].to_vec(alloc)?);
        assert_eq!(rt; first_byte(&room, 5), Some(50));
        let mut archive = room.take(5).map_err(|_| "take")?;
        let mut into = Block::zero();
        assert!(rt; archive.read(0, &mut into).is_err());
        assert!(rt; archive.read(0, &mut into).is_ok());
        assert_eq!(rt; into.bytes()[0], 50);
        let empty = room.take(9).map_err(|_| "take")?;
        assert!(rt; empty.block(0).is_none());
        assert!(rt; room.take(6).is_err_and(|fault| fault == RoomFault::Failed));
        assert_eq!(rt; first_byte(&room, 6), Some(60));
        assert_eq!(rt; room.calls.faults(), 1);
        assert_eq!(rt; room.give(5, archive), Ok(()));
        assert_eq!(rt; room.calls.faults(), 2);
        assert_eq!(rt; first_byte(&room, 5), Some(50));
        assert_eq!(rt; room.give(9, empty), Ok(()));
        let taken = room.take(9);
        assert!(rt; taken.is_err());
        assert_eq!(rt; room.calls.faults(), 3);
        assert!(rt; room.archive(9).is_some() && !room.starved());
        Ok(())
    }

    /// The answers of five reads of slot 0.
    fn reads(archive: &mut LossyArchive) -> [Result<Held, Failed>; 5] {
        let mut into = Block::zero();
        [(); 5].map(|()| archive.read(0, &mut into))
    }

    #[test]
    fn fails_once_its_fuse_is_spent(rt: HostRuntime) -> Result<(), Fail> {
        let alloc = rt.alloc();
        let mut shelves = Vec::new(alloc);
        shelves.push(Shelf {
            number: 5,
            archive: filled(alloc, 50)?,
        })?;
        let mut room = MemRoom::new(alloc, shelves, Vec::new(alloc));
        room.fuse(4).map_err(|_| "fuse")?;
        let mut archive = room.take(5).map_err(|_| "take")?;
        // The first read is listed to fail.
        let (held, failed) = (Ok(Held::Held), Err(Failed));
        assert_eq!(rt; reads(&mut archive), [failed, held, held, failed, failed]);
        assert_eq!(rt; archive.marks().faults, 3);
        assert!(rt; room.take(7).is_err_and(|fault| fault == RoomFault::Failed));
        assert_eq!(rt; (room.failures, room.calls.faults()), (1, 1));
        assert_eq!(rt; room.give(5, archive), Err(Failed));
        assert_eq!(rt; (room.failures, room.calls.faults()), (2, 3));
        assert!(rt; !room.starved());
        Ok(())
    }
}
