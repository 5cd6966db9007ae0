//! Stores: their start, the next block, and their end without a record.
ghost use Rattle.std.specs.Prelude.{◌≡◌, length};
ghost use Rattle.pot_bytes.specs.Rack.{IsRack};
ghost use Rattle.pot_shard.specs.FileLaws.{IsStore};
ghost use Rattle.pot_world.specs.declared.step.Step.TheVariants as step;
ghost use Rattle.pot_actors.specs.Seats.{SitsAt};
ghost use Rattle.pot_actors.specs.Splits.{PutsNext, under_way_of};
ghost use Rattle.pot_actors.specs.Steps.{BeginsStore, ActorSteps};
ghost use Rattle.pot_actors.specs.Worlds.{IsWorldReached, world_of};

use crate::blocks::{block_at, count_blocks, is_store};
use crate::parts::Parts;
use crate::seat::take_seat;
use crate::split::OpenSplit;
use pot_bytes::{Bytes, Name, NoMemory, Place, Rack};
use pot_index::{IndexEntry, group_of};
use pot_world::{ActFault, Groups};
use std::alloc::Global;
use std::snapshot::Snapshot;

/// The next block of a split is put, if there is one, and its place is kept, if it came to one.
fn put_next(
    alloc: Global,
    groups: &mut Groups,
    rack: &Rack,
    actor: u32,
    split: &mut OpenSplit,
) -> Result<(), ActFault>
    requires store { IsStore split.old.geometry split.old.file split.old.random }
    requires rack { IsRack rack.now }
    requires all { length groups.old.groups ≡ rack.now.groups }
    ensures { PutsNext rack.now actor groups.old (under_way_of split.old) groups.new
        (under_way_of split.new) result }
{
    let at = split.places.len();
    if at >= count_blocks(split) {
        return Err(ActFault::NotAllowed);
    }
    if split.places.reserve(1).is_err() {
        return Err(ActFault::NoMemory);
    }
    let Ok(block) = block_at(alloc, split, at) else {
        return Err(ActFault::NoMemory);
    };
    let group = group_of(rack, &split.geometry, at as u32);
    match groups.put(alloc, group, actor, &block) {
        Ok(Some(cursor)) => {
            split.places.push_reserved(Place {
                group,
                column: cursor.column,
                stripe: cursor.stripe,
            });
            Ok(())
        }
        Ok(None) => Ok(()),
        Err(NoMemory) => Err(ActFault::NoMemory),
    }
}

impl Parts {
    /// The actor begins to store a file: its name is reserved, or was taken.
    pub(crate) fn store(
        &mut self,
        alloc: Global,
        actor: u32,
        name: &Name,
        file: &Bytes,
        random: &Bytes,
    ) -> Result<(), ActFault>
        requires { IsWorldReached (world_of self.old) }
        ensures { ActorSteps (step.Store actor name.now file.now random.now) self.old self.new
            result }
    {
        let Ok(at) = take_seat(alloc, &mut self.seats, actor) else {
            return Err(ActFault::NoMemory);
        };
        if self.seats[at].is_busy() {
            return Err(ActFault::NotAllowed);
        }
        if !is_store(&self.names.rack.geometry, file, random) {
            return Err(ActFault::NotAllowed);
        }
        if self.names.is_taken(name) {
            let entry = IndexEntry::Taken {
                job: actor,
                name: *name,
            };
            return match self.names.enter(entry) {
                Ok(()) => Ok(()),
                Err(NoMemory) => Err(ActFault::NoMemory),
            };
        }
        match self.begin_store(alloc, at, actor, name, file, random) {
            Ok(()) => Ok(()),
            Err(NoMemory) => Err(ActFault::NoMemory),
        }
    }

    /// The name is reserved, and the store is under way.
    fn begin_store(
        &mut self,
        alloc: Global,
        at: usize,
        actor: u32,
        name: &Name,
        file: &Bytes,
        random: &Bytes,
    ) -> Result<(), NoMemory>
        requires { SitsAt self.old.seats.items actor at }
        ensures { BeginsStore actor name.now file.now random.now self.old self.new result }
    {
        let split = OpenSplit::store(alloc, name, file, self.names.rack.geometry, random)?;
        self.begun.reserve(1)?;
        self.names.reserve(actor, name)?;
        self.begun.push_reserved(Snapshot::of(&split));
        self.seats[at].begin(split);
        Ok(())
    }

    /// The next block of the actor's split is put.
    pub(crate) fn put_next(&mut self, alloc: Global, actor: u32) -> Result<(), ActFault>
        requires { IsWorldReached (world_of self.old) }
        ensures { ActorSteps (step.PutNext actor) self.old self.new result }
    {
        let Ok(at) = take_seat(alloc, &mut self.seats, actor) else {
            return Err(ActFault::NoMemory);
        };
        let Some(mut split) = self.seats[at].take() else {
            return Err(ActFault::NotAllowed);
        };
        let result = put_next(alloc, &mut self.groups, &self.names.rack, actor, &mut split);
        self.seats[at].begin(split);
        result
    }

    /// The actor's split is given up.
    pub(crate) fn abandon(&mut self, alloc: Global, actor: u32) -> Result<(), ActFault>
        ensures { ActorSteps (step.Abandon actor) self.old self.new result }
    {
        let Ok(at) = take_seat(alloc, &mut self.seats, actor) else {
            return Err(ActFault::NoMemory);
        };
        let Some(split) = self.seats[at].take() else {
            return Err(ActFault::NotAllowed);
        };
        if split.renews {
            return Ok(());
        }
        match self.names.abandon(actor, &split.name) {
            Ok(()) => Ok(()),
            Err(NoMemory) => {
                self.seats[at].begin(split);
                Err(ActFault::NoMemory)
            }
        }
    }
}
