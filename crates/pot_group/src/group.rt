//! A group of archives under parity.
ghost use Rattle.std.specs.Prelude.{◌≡◌, ◌<◌, ◌≤◌, ◌++◌, [], ◌∷◌, List, IsTrue, length};
ghost use Rattle.pot_bytes.specs.Rack.{log_bound};
ghost use Rattle.pot_machine.specs.Table.{width};

use crate::known::Known;
use crate::reads::{Found, read_sound};
use crate::tried::Tried;
use pot_bytes::{Block, Digest};
use pot_machine::{Entry, GroupTable};
use pot_outside::{Archive, Shelf};
use pot_sealed::Sealed;
use pot_shelves::{Archives, note};
use pot_steps::Flight;
use std::marker::Model;
use std::snapshot::Snapshot;

/// What a group was, handed out at its end.
pub struct Ended<A> {
    /// The table now. Relays that did not end stand in it.
    pub table: GroupTable,
    /// The entries of this session.
    pub log: Vec<Entry>,
    /// The archives, in the order in which they came.
    pub shelves: Vec<Shelf<A>>,
}

/// A group of archives. Contracts see its number, the table that it began with, its table and its
/// log now, the blinds of its relays, the blocks of puts whose write failed, and its archives.
#[derive(Drop)]
pub struct Group<A: Archive> {
    pub(crate) number: u8,
    pub(crate) first: GroupTable,
    pub(crate) table: GroupTable,
    pub(crate) log: Vec<Entry>,
    pub(crate) flights: Vec<Flight>,
    /// The blind of each relay that the log begins, in order. They take no memory, and only
    /// contracts see them.
    pub(crate) blinds: Vec<Snapshot<Block>>,
    pub(crate) tried: Tried,
    pub(crate) archives: Archives<A>,
    pub(crate) known: Box<Known>,
}

impl<A: Archive> Model for Group<A> {
    ghost use Rattle.std.specs.Prelude.{◌≤◌, IsTrue, map};
    ghost use Rattle.std.specs.Vec.{vec_capacity};
    ghost use Rattle.pot_bytes.specs.Rack.{log_bound};
    ghost use Rattle.pot_group.specs.Group.{GroupParts, view_of, IsSettled};
    ghost use Rattle.pot_shelves.specs.Shelves.{numbers_of};
    ghost use Rattle.pot_group.specs.Arrivals.{HasArrived};

    ghost Value = { GroupParts A };

    ghost view = { λ g. record {
      number = g.number;
      first = g.first;
      table = g.table;
      log = g.log.items;
      flights = g.flights.items;
      blinds = map (λ s. s.value) g.blinds.items;
      tried = g.tried;
      shelves = g.archives;
    } };

    ghost invariant = { λ g. IsSettled (IsTrue A.account.tells) (view_of A.account.meaning
        (record {
          number = g.number;
          first = g.first;
          table = g.table;
          log = g.log.items;
          flights = g.flights.items;
          blinds = map (λ s. s.value) g.blinds.items;
          tried = g.tried;
          shelves = g.archives;
        }))
        × (log_bound ≤ vec_capacity g.log) × (16 ≤ vec_capacity g.flights)
        × HasArrived g.first g.log.items (numbers_of g.archives.shelves)
        × (log_bound ≤ vec_capacity g.blinds) };
}

impl<A: Archive> Group<A> {
    ghost use Rattle.pot_machine.specs.Table.{serving_at};
    ghost use Rattle.pot_machine.specs.Machine.{Legal, Replays};
    ghost use Rattle.pot_machine.specs.Rules.{IsTable};
    ghost use Rattle.pot_shelves.specs.Shelves.{OnShelves};
    ghost use Rattle.pot_group.specs.Reads.{ReadsByDigest};
    ghost use Rattle.pot_group.specs.Group.{view_of, noted, with_archives, IsQuiet, IsSettled};
    ghost use Rattle.pot_group.specs.Group.{CoversIfNotRead};
    ghost use Rattle.pot_shelves.specs.Shelves.{numbers_of};
    ghost use Rattle.pot_group.specs.Arrivals.{HasArrived};

    /// Reads the block of a slot that is to have this digest.
    pub(crate) fn read_slot(
        &mut self,
        stripe: u32,
        column: u8,
        digest: Digest,
        into: &mut Block,
    ) -> Found
        requires { column < width self.old.table }
        ensures same { self.new ≡ with_archives self.old self.new.shelves }
        ensures finds { OnShelves A.account
            (λ told.
            ReadsByDigest told (serving_at self.old.table stripe column) stripe digest into.new
            result)
            self.old.shelves self.new.shelves }
        ensures covers { CoversIfNotRead result (view_of A.account.meaning self.new) column }
    {
        let number = self.table.archive_of(stripe, column);
        read_sound(
            &mut self.archives,
            number,
            stripe,
            digest,
            self.known.as_ref(),
            into,
        )
    }

    /// Logs an entry that says nothing untrue and puts no block.
    pub(crate) fn note(&mut self, entry: Entry)
        requires legal { Legal self.old.table entry }
        requires room { length self.old.log < log_bound }
        requires quiet { IsQuiet (IsTrue A.account.tells) (view_of A.account.meaning self.old)
            entry }
        ensures { self.new ≡ noted self.old entry }
    {
        note(&mut self.table, &mut self.log, entry);
    }

    /// A block that is put next, and the parity block that it will make, if no other put comes
    /// between. Each spares a digest where it is that block, and nothing else changes.
    pub fn expect(&mut self, block: &Sealed, parity: &Sealed)
        ensures { self.new ≡ self.old }
    {
        self.known.expect(block, parity);
    }

    /// The number of entries in its log.
    pub fn logged(&self) -> u64
        ensures value { result ≡ length self.now.log }
        ensures bound { result ≤ log_bound }
        ensures settled { IsSettled (IsTrue A.account.tells) (view_of A.account.meaning self.now) }
        ensures first { IsTable self.now.first }
        ensures arrived { HasArrived self.now.first self.now.log
            (numbers_of self.now.shelves.shelves) }
    {
        let _rules = self.first.cursor();
        self.log.len() as u64
    }

    /// Hands out the table, the log and the archives. It takes no memory.
    pub fn end(self) -> Ended<A>
        ensures table { result.table ≡ self.table }
        ensures log { result.log.items ≡ self.log }
        ensures shelves { result.shelves.items ≡ self.shelves.shelves }
        ensures settled { IsSettled (IsTrue A.account.tells) (view_of A.account.meaning self) }
        ensures arrived { HasArrived self.first self.log (numbers_of self.shelves.shelves) }
    {
        let Group {
            number: _,
            first: _,
            table,
            log,
            flights: _,
            blinds: _,
            tried: _,
            archives,
            known: _,
        } = self;
        Ended {
            table,
            log,
            shelves: archives.hand_out(),
        }
    }
}
