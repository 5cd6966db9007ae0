//! The actors.
ghost use Rattle.std.specs.Prelude.{◌≡◌, ◌==◌, ◌++◌, Some, None, IfOk, IfSome, OnOk, is_some};
ghost use Rattle.std.specs.Prelude.{option_copied, []};
ghost use Rattle.std.specs.List.{list_any, position};
ghost use Rattle.pot_world.specs.World.{is_wanted, same_place};
ghost use Rattle.pot_actors.specs.Gathers.{GathersTo, IsFetchedOf, gathered_from};
ghost use Rattle.pot_actors.specs.Joins.{IsReadable};
ghost use Rattle.pot_actors.specs.Seats.{IsTold, SitsAt, actor_at};

use crate::joining::{join_file, same_place};
use crate::split::{OpenSplit, Reading};
use pot_bytes::{Block, Bytes, Name, NoMemory, Place};
use pot_index::Record;
use std::alloc::Global;
use std::marker::Model;
use std::mem;

/// An actor: what it has under way, the record that it found last, the blocks of it that it
/// gathered since, and the file that these give, if they are enough.
#[derive(Drop)]
pub(crate) struct Seat {
    number: u32,
    split: Option<OpenSplit>,
    found: Option<Record>,
    gathered: Vec<Reading>,
    file: Option<Bytes>,
}

impl Model for Seat {
    ghost use Rattle.pot_actors.specs.Seats.{IsTold, SeatData};

    ghost Value = { SeatData };

    ghost view = { λ s. record { number = s.number; split = s.split; found = s.found; gathered = s.gathered.items; file = s.file } };

    ghost invariant = { λ s. IsTold s.found s.gathered.items s.file };
}

impl Seat {
    /// An actor that did nothing yet.
    fn new(alloc: Global, number: u32) -> Seat
        ensures { result
            ≡ record { number = number; split = None; found = None; gathered = []; file = None } }
    {
        Seat {
            number,
            split: None,
            found: None,
            gathered: Vec::new(alloc),
            file: None,
        }
    }

    /// Whether it has this number.
    fn is_of(&self, number: u32) -> bool
        ensures { result ≡ (number == self.now.number) }
    {
        number == self.number
    }

    /// Whether it has a split under way.
    pub(crate) fn is_busy(&self) -> bool
        ensures { result ≡ is_some self.now.split }
    {
        self.split.is_some()
    }

    /// Takes the split that is under way.
    pub(crate) fn take(&mut self) -> Option<OpenSplit>
        ensures split { result ≡ self.old.split }
        ensures rest { self.new ≡ record self.old { split = None } }
    {
        mem::replace(&mut self.split, None)
    }

    /// A split is under way from now on.
    pub(crate) fn begin(&mut self, split: OpenSplit)
        ensures { self.new ≡ record self.old { split = Some split } }
    {
        self.split = Some(split);
    }

    /// A record was found, or none, and nothing of it was gathered.
    pub(crate) fn find(&mut self, alloc: Global, found: Option<Record>)
        requires { IfSome found IsReadable }
        ensures { self.new ≡ record self.old { found = found; gathered = []; file = None } }
    {
        self.found = found;
        self.gathered = Vec::new(alloc);
        self.file = None;
    }

    /// Whether the place is one of the record that was found.
    fn wants(&self, place: &Place) -> bool
        ensures { result ≡ is_wanted self.now.found place.now }
    {
        match &self.found {
            Some(kept) => is_one_of(kept.places.as_slice(), place),
            None => false,
        }
    }

    /// What is gathered with the block of a place, if there is one and it is wanted, and the file
    /// that this gives.
    pub(crate) fn gathering(
        &self,
        alloc: Global,
        place: &Place,
        block: &Option<Block>,
    ) -> Result<Gathering, NoMemory>
        requires { IfSome self.now.found IsReadable }
        ensures { IfOk result (λ g. GathersTo self.now place.now block.now g) }
    {
        let mut gathered = Vec::from_slice(alloc, &self.gathered)?;
        if self.wants(place) {
            keep(&mut gathered, place, block)?;
        }
        let file = match &self.found {
            Some(kept) => join_file(alloc, kept, &gathered)?,
            None => None,
        };
        Ok(Gathering { gathered, file })
    }

    /// From now on this is gathered.
    pub(crate) fn gather(&mut self, next: Gathering)
        requires { IsTold self.old.found next.gathered.items next.file }
        ensures { self.new ≡ record self.old { gathered = next.gathered.items; file = next.file } }
    {
        let Gathering { gathered, file } = next;
        self.gathered = gathered;
        self.file = file;
    }

    /// The file that was gathered, if it is of this name.
    pub(crate) fn fetched_of(&self, name: &Name) -> Option<&Bytes>
        ensures { IsFetchedOf name.now self.now (option_copied result) }
    {
        match &self.found {
            Some(kept) => {
                if kept.name != *name {
                    return None;
                }
                self.file.as_ref()
            }
            None => None,
        }
    }

    /// The file that was gathered.
    pub(crate) fn file(&self) -> Option<&Bytes>
        ensures file { option_copied result ≡ self.now.file }
        ensures told { IsTold self.now.found self.now.gathered self.now.file }
    {
        self.file.as_ref()
    }
}

/// What an actor is to have gathered, and the file that this gives.
#[derive(Drop)]
pub(crate) struct Gathering {
    gathered: Vec<Reading>,
    file: Option<Bytes>,
}

/// Whether the place is one of these.
fn is_one_of(places: &[Place], place: &Place) -> bool
    ensures { result ≡ list_any (same_place place.now) places.now }
{
    places.iter().any(|other| same_place(place, other))
}

/// A block is gathered, if there is one.
fn keep(gathered: &mut Vec<Reading>, place: &Place, block: &Option<Block>) -> Result<(), NoMemory>
    ensures { OnOk result
        (gathered.new.items ≡ gathered.old.items ++ gathered_from place.now block.now) }
{
    if let Some(block) = block {
        gathered.reserve(1)?;
        gathered.push_reserved(Reading {
            place: *place,
            block: *block,
        });
    }
    Ok(())
}

/// Where the actor of this number stands.
pub(crate) fn seat_of(seats: &[Seat], number: u32) -> Option<usize>
    ensures { result ≡ position (λ s. number == s.number) seats.now }
{
    seats.iter().position(|seat| seat.is_of(number))
}

/// Where the actor of this number stands, with a place for it at the end where there is none.
pub(crate) fn take_seat(
    alloc: Global,
    seats: &mut Vec<Seat>,
    number: u32,
) -> Result<usize, NoMemory>
    ensures sits { IfOk result (λ at. SitsAt seats.new.items number at) }
    ensures same { actor_at seats.new.items ≡ actor_at seats.old.items }
{
    if let Some(at) = seat_of(seats, number) {
        return Ok(at);
    }
    if seats.reserve(1).is_err() {
        return Err(NoMemory);
    }
    let at = seats.len();
    seats.push_reserved(Seat::new(alloc, number));
    Ok(at)
}
