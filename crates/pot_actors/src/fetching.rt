//! Fetches: a record found, blocks of it gathered, and a renewal of what they give.
ghost use Rattle.std.specs.Prelude.{◌≡◌};
ghost use Rattle.pot_world.specs.declared.step.Step.TheVariants as step;
ghost use Rattle.pot_actors.specs.Steps.{ActorSteps};
ghost use Rattle.pot_actors.specs.Worlds.{IsWorldReached, world_of};

use crate::blocks::is_store;
use crate::parts::Parts;
use crate::seat::take_seat;
use crate::split::OpenSplit;
use pot_bytes::{Bytes, Geometry, Name, NoMemory, Place};
use pot_index::IndexEntry;
use pot_world::{ActFault, GroupAct};
use std::alloc::Global;
use std::snapshot::Snapshot;

impl Parts {
    /// The actor looks a name up, and forgets what it had gathered.
    pub(crate) fn fetch(&mut self, alloc: Global, actor: u32, name: &Name) -> Result<(), ActFault>
        requires { IsWorldReached (world_of self.old) }
        ensures { ActorSteps (step.Fetch actor name.now) self.old self.new result }
    {
        let Ok(at) = take_seat(alloc, &mut self.seats, actor) else {
            return Err(ActFault::NoMemory);
        };
        let Ok(found) = self.names.find(alloc, name) else {
            return Err(ActFault::NoMemory);
        };
        let entry = IndexEntry::Find {
            job: actor,
            name: *name,
            found: found.is_some(),
        };
        match self.names.enter(entry) {
            Ok(()) => {
                self.seats[at].find(alloc, found);
                Ok(())
            }
            Err(NoMemory) => Err(ActFault::NoMemory),
        }
    }

    /// The actor reads a place. A sound block of the record that it found is gathered.
    pub(crate) fn look_at(
        &mut self,
        alloc: Global,
        actor: u32,
        place: &Place,
    ) -> Result<(), ActFault>
        requires { IsWorldReached (world_of self.old) }
        ensures { ActorSteps (step.LookAt actor place.now) self.old self.new result }
    {
        let Ok(at) = take_seat(alloc, &mut self.seats, actor) else {
            return Err(ActFault::NoMemory);
        };
        let block = self.groups.sound(place);
        let Ok(next) = self.seats[at].gathering(alloc, place, &block) else {
            return Err(ActFault::NoMemory);
        };
        let act = GroupAct::Look {
            job: actor,
            stripe: place.stripe,
            column: place.column,
        };
        match self.groups.make(place.group, &act) {
            Ok(()) => {
                self.seats[at].gather(next);
                Ok(())
            }
            Err(fault) => Err(fault),
        }
    }

    /// The actor begins to split the file that it fetched anew.
    pub(crate) fn renew(
        &mut self,
        alloc: Global,
        actor: u32,
        name: &Name,
        geometry: &Geometry,
        random: &Bytes,
    ) -> Result<(), ActFault>
        requires { IsWorldReached (world_of self.old) }
        ensures { ActorSteps (step.Renew actor name.now geometry.now random.now) self.old self.new
            result }
    {
        let Ok(at) = take_seat(alloc, &mut self.seats, actor) else {
            return Err(ActFault::NoMemory);
        };
        let Some(file) = self.seats[at].fetched_of(name) else {
            return Err(ActFault::NotAllowed);
        };
        if self.seats[at].is_busy() {
            return Err(ActFault::NotAllowed);
        }
        if !geometry.fits(self.names.rack.groups) {
            return Err(ActFault::NotAllowed);
        }
        if !is_store(geometry, file, random) {
            return Err(ActFault::NotAllowed);
        }
        let Ok(split) = OpenSplit::renewal(alloc, name, file, *geometry, random) else {
            return Err(ActFault::NoMemory);
        };
        if self.begun.reserve(1).is_err() {
            return Err(ActFault::NoMemory);
        }
        self.begun.push_reserved(Snapshot::of(&split));
        self.seats[at].begin(split);
        Ok(())
    }
}
