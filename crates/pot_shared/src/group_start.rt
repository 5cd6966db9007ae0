//! How the groups of a vault are started at once, each over the archives of its table.
//!
//! 1. The hand is given out: each table has its archives, in order (`give_out`).
//! 2. Each start is worked once, on a thread of its own where one can be made (`start_all`). What
//!    it leaves depends on nothing but its table, its number and its archives (`StartLeft`).
//! 3. Groups and archives are taken in again in the order of the tables (`take_in`), whichever was
//!    started first.
//!
//! No start takes memory from another's archives or waits for another. In which order the archives
//! of several groups are read is not told.
ghost use Rattle.std.specs.Prelude.{◌≡◌, ◌<◌, ◌≤◌, ◌+◌, ◌++◌, ℕ, List, [], IsTrue, IfOk, OnOk};
ghost use Rattle.std.specs.Prelude.{OnErr, All, length, flat_map, take, drop};
ghost use Rattle.std.specs.Vec.{vec_capacity};
ghost use Rattle.pot_outside.specs.Archives.{Meaning};
ghost use Rattle.pot_machine.specs.Table.{Table, archives_in};
ghost use Rattle.pot_group.specs.Group.{view_of};
ghost use Rattle.pot_shelves.specs.Shelves.{numbers_of};
ghost use Rattle.pot_shared.specs.Groups.{AreMarked, AreStarted, AreTakenFrom, IsFirstTable};
ghost use Rattle.pot_shared.specs.Groups.{IsOpened, IsStarted, RoseBy, RoseOftenBy, had_by};
ghost use Rattle.pot_shared.specs.Hands.{AreAmong, AreApart, AreMeant, AreMeantButLost, AreSame};
ghost use Rattle.pot_shared.specs.Members.{opened_at};
ghost use Rattle.pot_shared.specs.Starts.{AreGivenOut, CanAllStart, CanStart, StartLeft};
ghost use Rattle.pot_shared.specs.Starts.{StartsLeft};

use crate::hand::{put_back, take_shelves};
use crate::member::Member;
use pot_bytes::{NoMemory, Rack};
use pot_execution::TrackedGroup;
use pot_group::StartRefused;
use pot_machine::GroupTable;
use pot_outside::{Archive, Shelf};
use std::alloc::Global;
use std::thread;
use std::thread::Threads;

/// What a vault is opened with: the handle by which threads start, where its memory is from, and
/// how many threads at most start its groups.
#[derive(Drop)]
pub struct Openers<'a, X> {
    pub rt: &'a X,
    pub alloc: Global,
    pub workers: u8,
}

/// The start of a group: the number of the group, its table until it is worked, the archives that
/// no group has, and the group once it is started.
pub(crate) struct GroupStart<A: Archive> {
    number: u8,
    table: Option<GroupTable>,
    hand: Vec<Shelf<A>>,
    started: Vec<Member<A>>,
}

/// Starts the group of this number over its table and the first shelves of the hand, which are its
/// archives.
///
/// # Errors
/// Want of memory alone. The very shelves are in the hand again, in another order.
fn start_group<A: Archive>(
    alloc: Global,
    number: u8,
    table: GroupTable,
    hand: &mut Vec<Shelf<A>>,
) -> Result<Member<A>, NoMemory>
    requires relays { table.relays ≡ [] }
    requires count { length (archives_in table) ≤ length hand.old.items }
    requires hand { take (length (archives_in table)) (numbers_of hand.old.items)
        ≡ archives_in table }
    requires space { length hand.old.items ≤ vec_capacity hand.old }
    ensures started { IfOk result
        (λ m. IsStarted number table (view_of A.account.meaning m.group)) }
    ensures marked { (meant : ℕ → Meaning) → IsTrue A.account.tells
        → AreMeant A.account.meaning meant hand.old.items
        → IfOk result (λ m. AreMarked meant table (view_of A.account.meaning m.group).shelves) }
    ensures opened { (meant : ℕ → Meaning) → IsTrue A.account.tells
        → AreMeant A.account.meaning meant hand.old.items
        → IfOk result (λ m. let g = view_of A.account.meaning m.group in
        IsOpened meant (RoseBy meant table (opened_at g.shelves))
        (RoseOftenBy meant table (opened_at g.shelves)) table g.log) }
    ensures lost { (meant : ℕ → Meaning) → IsTrue A.account.tells
        → AreApart (numbers_of hand.old.items) → AreMeant A.account.meaning meant hand.old.items
        → IfOk result (λ m. AreMeantButLost A.account.meaning meant m.group.shelves.shelves) }
    ensures rest { OnOk result (hand.new.items ≡ drop (length (archives_in table)) hand.old.items) }
    ensures refused { OnErr result
        (AreSame (numbers_of hand.new.items) (numbers_of hand.old.items)) }
    ensures back { OnErr result (AreAmong hand.old.items hand.new.items) }
    ensures count { OnErr result (length hand.new.items ≡ length hand.old.items) }
    ensures space { vec_capacity hand.new ≡ vec_capacity hand.old }
{
    let shelves = take_shelves(alloc, &table, hand)?;
    match TrackedGroup::start(alloc, number, table, shelves) {
        Ok(group) => {
            let _rules = group.logged();
            Ok(Member { group })
        }
        Err(refused) => {
            let StartRefused { table: _, shelves } = refused;
            put_back(hand, shelves);
            Err(NoMemory)
        }
    }
}

impl<A: Archive> GroupStart<A> {
    ghost use Rattle.std.specs.Prelude.{IsTrue};
    ghost use Rattle.pot_machine.specs.Table.{Table};
    ghost use Rattle.pot_shared.specs.Starts.{CanStart, StartLeft};

    /// Starts the group. Where memory is short its archives stay in the hand, in another order.
    fn work(&mut self, alloc: Global)
        requires { (t : Table) × CanStart t self.old }
        ensures { (t : Table) → CanStart t self.old
            → StartLeft (IsTrue A.account.tells) A.account.meaning t self.old self.new }
    {
        let Some(table) = self.table.take() else {
            unreachable!()
        };
        match start_group(alloc, self.number, table, &mut self.hand) {
            Ok(member) => self.started.push_reserved(member),
            Err(NoMemory) => {}
        }
    }
}

/// The start of a group over its table and the first shelves of the hand, which are its archives.
///
/// # Errors
/// Want of memory alone.
fn ready_start<A: Archive>(
    alloc: Global,
    number: u8,
    table: GroupTable,
    hand: &mut Vec<Shelf<A>>,
) -> Result<GroupStart<A>, NoMemory>
    requires relays { table.relays ≡ [] }
    requires count { length (archives_in table) ≤ length hand.old.items }
    requires hand { take (length (archives_in table)) (numbers_of hand.old.items)
        ≡ archives_in table }
    ensures can { IfOk result (λ s. CanStart table s) }
    ensures number { IfOk result (λ s. s.number ≡ number) }
    ensures front { IfOk result
        (λ s. s.hand.items ≡ take (length (archives_in table)) hand.old.items) }
    ensures rest { OnOk result (hand.new.items ≡ drop (length (archives_in table)) hand.old.items) }
    ensures refused { OnErr result (hand.new.items ≡ hand.old.items) }
    ensures space { vec_capacity hand.new ≡ vec_capacity hand.old }
{
    let Ok(started) = Vec::with_capacity(alloc, 1) else {
        return Err(NoMemory);
    };
    match take_shelves(alloc, &table, hand) {
        Ok(own) => Ok(GroupStart {
            number,
            table: Some(table),
            hand: own,
            started,
        }),
        Err(NoMemory) => {
            started.destroy_empty();
            Err(NoMemory)
        }
    }
}

/// Gives each of these tables its archives, which are those in the hand, in order.
///
/// # Errors
/// Want of memory alone: the first tables have theirs, and all others are in the hand.
fn give_out<A: Archive>(
    alloc: Global,
    rack: &Rack,
    tables: Vec<GroupTable>,
    hand: &mut Vec<Shelf<A>>,
    starts: &mut Vec<GroupStart<A>>,
) -> Result<(), NoMemory>
    requires tables { All (IsFirstTable rack.now) tables.items }
    requires few { length tables.items ≤ 16 }
    requires hand { numbers_of hand.old.items ≡ flat_map archives_in tables.items }
    requires none { starts.old.items ≡ [] }
    requires places { length tables.items ≤ vec_capacity starts.old }
    ensures given { (others : List Table)
        × AreGivenOut tables.items others hand.old.items starts.new.items hand.new.items }
    ensures all { OnOk result (length starts.new.items ≡ length tables.items) }
    ensures space { vec_capacity hand.new ≡ vec_capacity hand.old }
{
    let mut tables = tables;
    let mut number = 0;
    while !tables.is_empty() {
        let table = tables.remove(0);
        match ready_start(alloc, number, table, hand) {
            Ok(start) => starts.push_reserved(start),
            Err(NoMemory) => return Err(NoMemory),
        }
        number += 1;
    }
    Ok(())
}

/// Works each start, on so many threads at most.
fn start_all<A: Archive + Send, X: Threads + Sync>(
    openers: &Openers<'_, X>,
    starts: &mut [GroupStart<A>],
)
    requires workers { 0 < openers.now.workers }
    requires can { (tables : List Table) × CanAllStart tables starts.old }
    ensures left { (tables : List Table) → CanAllStart tables starts.old
        → StartsLeft (IsTrue A.account.tells) A.account.meaning tables starts.old starts.new }
{
    let alloc = openers.alloc;
    thread::for_each_mut(
        openers.rt,
        starts,
        openers.workers as usize,
        &|_: usize, start: &mut GroupStart<A>|
            requires { (t : Table) × CanStart t start.old }
            ensures { (t : Table) → CanStart t start.old
                → StartLeft (IsTrue A.account.tells) A.account.meaning t start.old start.new }
        { start.work(alloc) },
    );
}

/// Takes in what one start left.
fn take_one<A: Archive>(
    start: GroupStart<A>,
    hand: &mut Vec<Shelf<A>>,
    members: &mut Vec<Member<A>>,
)
    requires room { length hand.old.items + length start.hand.items ≤ vec_capacity hand.old }
    requires places { length members.old.items + length start.started.items
        ≤ vec_capacity members.old }
    ensures hand { hand.new.items ≡ hand.old.items ++ start.hand.items }
    ensures members { members.new.items ≡ members.old.items ++ start.started.items }
    ensures space { vec_capacity hand.new ≡ vec_capacity hand.old }
    ensures places { vec_capacity members.new ≡ vec_capacity members.old }
{
    let GroupStart {
        number: _,
        table: _,
        hand: own,
        started,
    } = start;
    put_back(hand, own);
    put_back(members, started);
}

/// Takes in what the starts left: archives behind those in the hand, and groups behind those among
/// the members, both in the order of the starts.
fn take_in<A: Archive>(
    starts: Vec<GroupStart<A>>,
    hand: &mut Vec<Shelf<A>>,
    members: &mut Vec<Member<A>>,
)
    requires room { length hand.old.items + length (flat_map (λ s. s.hand.items) starts.items)
        ≤ vec_capacity hand.old }
    requires places { length members.old.items
        + length (flat_map (λ s. s.started.items) starts.items)
        ≤ vec_capacity members.old }
    ensures hand { hand.new.items ≡ hand.old.items ++ flat_map (λ s. s.hand.items) starts.items }
    ensures members { members.new.items
        ≡ members.old.items ++ flat_map (λ s. s.started.items) starts.items }
    ensures space { vec_capacity hand.new ≡ vec_capacity hand.old }
{
    let mut starts = starts;
    while !starts.is_empty() {
        let start = starts.remove(0);
        take_one(start, hand, members);
    }
    starts.destroy_empty();
}

/// Starts the groups of these tables at once over the archives in the hand, which are those of the
/// tables.
///
/// # Errors
/// Want of memory alone. Those that were started are among the members, in order, and the archives
/// of all others are in the hand.
pub(crate) fn start_groups<A: Archive + Send, X: Threads + Sync>(
    openers: &Openers<'_, X>,
    rack: &Rack,
    tables: Vec<GroupTable>,
    hand: &mut Vec<Shelf<A>>,
    members: &mut Vec<Member<A>>,
) -> Result<(), NoMemory>
    requires workers { 0 < openers.now.workers }
    requires tables { All (IsFirstTable rack.now) tables.items }
    requires few { length tables.items ≤ 16 }
    requires hand { numbers_of hand.old.items ≡ flat_map archives_in tables.items }
    requires space { length hand.old.items ≤ vec_capacity hand.old }
    requires none { members.old.items ≡ [] }
    requires places { length tables.items ≤ vec_capacity members.old }
    ensures started { OnOk result
        (AreStarted (λ m. view_of A.account.meaning m.group) tables.items members.new.items) }
    ensures marked { (meant : ℕ → Meaning) → IsTrue A.account.tells
        → AreMeant A.account.meaning meant hand.old.items
        → OnOk result
        (AreTakenFrom meant (λ m. view_of A.account.meaning m.group) members.new.items) }
    ensures lost { (meant : ℕ → Meaning) → IsTrue A.account.tells
        → AreApart (numbers_of hand.old.items) → AreMeant A.account.meaning meant hand.old.items
        → AreMeantButLost A.account.meaning meant
        (hand.new.items ++ flat_map (λ m. m.group.shelves.shelves) members.new.items) }
    ensures empty { OnOk result (hand.new.items ≡ []) }
    ensures refused { OnErr result
        (AreSame
        (numbers_of hand.new.items
        ++ flat_map (λ m. had_by (view_of A.account.meaning m.group)) members.new.items)
        (flat_map archives_in tables.items)) }
    ensures few { OnErr result (length members.new.items ≤ length tables.items) }
    ensures within { OnErr result
        (length hand.new.items
        + length (flat_map (λ m. had_by (view_of A.account.meaning m.group)) members.new.items)
        ≤ vec_capacity hand.old) }
    ensures space { vec_capacity hand.new ≡ vec_capacity hand.old }
{
    let count = tables.len();
    let Ok(mut starts) = Vec::with_capacity(openers.alloc, count) else {
        return Err(NoMemory);
    };
    match give_out(openers.alloc, rack, tables, hand, &mut starts) {
        Ok(()) => {
            start_all(openers, starts.as_mut_slice());
            take_in(starts, hand, members);
            if members.len() == count {
                Ok(())
            } else {
                Err(NoMemory)
            }
        }
        Err(NoMemory) => {
            take_in(starts, hand, members);
            Err(NoMemory)
        }
    }
}
