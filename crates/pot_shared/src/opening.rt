//! How a vault is opened over tables, records and archives.
ghost use Rattle.std.specs.Prelude.{◌≡◌, ◌<◌, ◌≤◌, ◌+◌, ◌++◌, ℕ, IsTrue, IfOk, OnOk, OnErr};
ghost use Rattle.std.specs.Prelude.{All, length, map, flat_map};
ghost use Rattle.std.specs.Vec.{vec_capacity};
ghost use Rattle.pot_bytes.specs.Rack.{IsRack};
ghost use Rattle.pot_outside.specs.Archives.{Meaning};
ghost use Rattle.pot_machine.specs.Table.{archives_in};
ghost use Rattle.pot_index.specs.Index.{AreFirstRecords};
ghost use Rattle.pot_group.specs.Group.{view_of};
ghost use Rattle.pot_shelves.specs.Shelves.{numbers_of};
ghost use Rattle.pot_shared.specs.Groups.{AreOfRack, AreTakenAt, AreTakenFrom, IsFirstTable};
ghost use Rattle.pot_shared.specs.Groups.{had_by};
ghost use Rattle.pot_shared.specs.Hands.{AreApart, AreMeant, AreMeantButLost, AreSame};
ghost use Rattle.pot_shared.specs.Opening.{IsOpenedFrom};
ghost use Rattle.pot_shared.specs.Remains.{AreRemainsFresh, HasSpace, IsBare, KeepsSpace};

use crate::group_start::{Openers, start_groups};
use crate::leaving::end_groups;
use crate::member::Member;
use crate::remains::Remains;
use crate::starting::VaultRefused;
use crate::vault::{Passes, Spaces, Vault};
use pot_bytes::{NoMemory, Rack};
use pot_index::{Index, IndexRefused, Record};
use pot_machine::GroupTable;
use pot_outside::Archive;
use std::alloc::Global;
use std::thread::Threads;

/// Puts groups that were started and the index of these records under turns.
///
/// # Errors
/// Want of memory alone. The groups were ended, and their archives are in the hand.
fn share<A: Archive>(
    alloc: Global,
    rack: &Rack,
    members: Vec<Member<A>>,
    records: Vec<Record>,
    remains: &mut Remains<A>,
) -> Result<(Vault<A>, Passes<A>, Spaces<A>), NoMemory>
    requires rack { IsRack rack.now }
    requires records { AreFirstRecords rack.now records.items }
    requires groups { AreOfRack (λ m. view_of A.account.meaning m.group) rack.now members.items }
    requires tables { length remains.old.tables.items + length members.items
        ≤ vec_capacity remains.old.tables }
    requires logs { length remains.old.logs.items + length members.items
        ≤ vec_capacity remains.old.logs }
    requires hand { length remains.old.hand.items
        + length (flat_map (λ m. had_by (view_of A.account.meaning m.group)) members.items)
        ≤ vec_capacity remains.old.hand }
    ensures opened { IfOk result
        (λ p.
        IsOpenedFrom rack.now (map (λ m. (view_of A.account.meaning m.group).first) members.items)
        records.items p.0 p.1) }
    ensures taken { (meant : ℕ → Meaning)
        → AreTakenFrom meant (λ m. view_of A.account.meaning m.group) members.items
        → IfOk result (λ p. AreTakenAt meant p.1.groups) }
    ensures places { IfOk result (λ p. length p.0.groups ≤ p.2) }
    ensures same { OnOk result (remains.new ≡ remains.old) }
    ensures refused { OnErr result
        (numbers_of remains.new.hand.items
        ≡ numbers_of remains.old.hand.items
        ++ (flat_map (λ m. had_by (view_of A.account.meaning m.group)) members.items)) }
    ensures back { OnErr result
        (remains.new.hand.items
        ≡ remains.old.hand.items ++ flat_map (λ m. m.group.shelves.shelves) members.items) }
{
    let index = match Index::start(alloc, rack, records) {
        Ok(index) => index,
        Err(IndexRefused { records: _ }) => {
            end_groups(members, remains);
            return Err(NoMemory);
        }
    };
    match Vault::start(alloc, rack, members, index) {
        Ok(opened) => Ok(opened),
        Err(refused) => {
            let VaultRefused { members, index: _ } = refused;
            end_groups(members, remains);
            Err(NoMemory)
        }
    }
}

impl<A: Archive + Send> Vault<A> {
    /// Opens a vault over tables and records that were read, with the archives in the hand, which
    /// are those of the tables. Each group is started with the number of its place, and reads the
    /// block of each of its Live slots. Groups are started at once, on so many threads at most, and
    /// stand in the order of their tables. What each logs depends on its own archives alone: in
    /// which order those of several groups are read is not told, nor that a fault which they share
    /// meets one group rather than another.
    ///
    /// # Errors
    /// Want of memory alone. The archives are in the hand again, in another order, and hold what
    /// they held but for losses that they counted. What else remains is of no use.
    pub fn open<X: Threads + Sync>(
        openers: &Openers<'_, X>,
        rack: &Rack,
        tables: Vec<GroupTable>,
        records: Vec<Record>,
        remains: &mut Remains<A>,
    ) -> Result<(Vault<A>, Passes<A>, Spaces<A>), NoMemory>
        requires workers { 0 < openers.now.workers }
        requires rack { IsRack rack.now }
        requires tables { All (IsFirstTable rack.now) tables.items }
        requires count { length tables.items ≡ rack.now.groups }
        requires records { AreFirstRecords rack.now records.items }
        requires hand { numbers_of remains.old.hand.items ≡ flat_map archives_in tables.items }
        requires fresh { AreRemainsFresh remains.old }
        requires space { HasSpace (length tables.items)
            (length remains.old.hand.items) remains.old }
        ensures opened { IfOk result
            (λ p.
            IsOpenedFrom rack.now tables.items records.items p.0 p.1) }
        ensures taken { (meant : ℕ → Meaning) → IsTrue A.account.tells
            → AreMeant A.account.meaning meant remains.old.hand.items
            → IfOk result (λ p. AreTakenAt meant p.1.groups) }
        ensures places { IfOk result (λ p. length p.0.groups ≤ p.2) }
        ensures bare { OnOk result (IsBare remains.new) }
        ensures space { OnOk result (KeepsSpace remains.old remains.new) }
        ensures refused { OnErr result
            (AreSame (numbers_of remains.new.hand.items) (flat_map archives_in tables.items)) }
        ensures lost { (meant : ℕ → Meaning) → IsTrue A.account.tells
            → AreApart (flat_map archives_in tables.items)
            → AreMeant A.account.meaning meant remains.old.hand.items
            → OnErr result (AreMeantButLost A.account.meaning meant remains.new.hand.items) }
    {
        let Ok(mut members) = Vec::with_capacity(openers.alloc, tables.len()) else {
            return Err(NoMemory);
        };
        match start_groups(openers, rack, tables, &mut remains.hand, &mut members) {
            Ok(()) => share(openers.alloc, rack, members, records, remains),
            Err(NoMemory) => {
                end_groups(members, remains);
                Err(NoMemory)
            }
        }
    }
}
