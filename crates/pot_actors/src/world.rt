//! A world that a program runs.
ghost use Rattle.std.specs.Prelude.{◌≡◌, IfOk, option_copied};
ghost use Rattle.pot_bytes.specs.Rack.{IsRack};
ghost use Rattle.pot_world.specs.World.{first_world};
ghost use Rattle.pot_actors.specs.Runs.{ActorFetched, RunsTo};
ghost use Rattle.pot_actors.specs.Steps.{ActorSteps};
ghost use Rattle.pot_actors.specs.Worlds.{IsWorldReached, world_of};

use crate::ledger::Ledger;
use crate::parts::Parts;
use crate::seat::seat_of;
use pot_bytes::{Bytes, NoMemory, Rack};
use pot_world::{ActFault, Groups, Step};
use std::alloc::Global;
use std::marker::Model;

/// Why a run stopped. The world is as after the steps before.
#[derive(Clone, Copy, PartialEq, Eq, Debug)]
pub enum WorldFault {
    /// The step at this position is not allowed.
    NotLegal { at: usize },
    /// Memory was not found for the step at this position.
    NoMemory { at: usize },
}

/// Groups, names and actors, after some steps.
#[derive(Drop)]
pub struct World {
    parts: Parts,
}

impl Model for World {
    ghost use Rattle.pot_actors.specs.declared.parts.Parts.{Parts};
    ghost use Rattle.pot_actors.specs.Worlds.{IsWorldReached, world_of};

    ghost Value = { Parts };

    ghost view = { λ w. w.parts };

    ghost invariant = { λ w. IsWorldReached (world_of w.parts) };
}

impl Parts {
    /// One step, if it is allowed.
    fn step(&mut self, alloc: Global, step: &Step) -> Result<(), ActFault>
        requires { IsWorldReached (world_of self.old) }
        ensures { ActorSteps step.now self.old self.new result }
    {
        match step {
            Step::Store {
                actor,
                name,
                file,
                random,
            } => self.store(alloc, *actor, name, file, random),
            Step::PutNext { actor } => self.put_next(alloc, *actor),
            Step::Publish { actor } => self.publish(alloc, *actor),
            Step::Abandon { actor } => self.abandon(alloc, *actor),
            Step::Fetch { actor, name } => self.fetch(alloc, *actor, name),
            Step::LookAt { actor, place } => self.look_at(alloc, *actor, place),
            Step::Mend {
                actor,
                place,
                blind,
            } => self.mend(*actor, place, blind),
            Step::MoveBegin {
                actor,
                group,
                column,
                to,
            } => self.move_begin(*actor, *group, *column, *to),
            Step::MoveOne {
                actor,
                group,
                column,
            } => self.move_one(*actor, *group, *column),
            Step::Swap {
                actor,
                group,
                column,
                to,
            } => self.swap(*actor, *group, *column, *to),
            Step::Renew {
                actor,
                name,
                geometry,
                random,
            } => self.renew(alloc, *actor, name, geometry, random),
            Step::Lose { archive, slot } => {
                self.lose(*archive, *slot);
                Ok(())
            }
        }
    }
}

impl World {
    /// The world that a rack begins with.
    pub fn new(alloc: Global, rack: &Rack) -> Result<World, NoMemory>
        requires { IsRack rack.now }
        ensures { IfOk result (λ w. world_of w ≡ first_world rack.now) }
    {
        let groups = Groups::new(alloc, rack)?;
        Ok(World {
            parts: Parts {
                groups,
                names: Ledger::new(alloc, rack),
                seats: Vec::new(alloc),
                begun: Vec::new(alloc),
                ended: Vec::new(alloc),
            },
        })
    }

    /// Steps, one after another, up to the first that is not allowed.
    ///
    /// # Errors
    /// `NotLegal` exactly at the first step that the rules of the world do not allow.
    pub fn run(&mut self, alloc: Global, steps: &[Step]) -> Result<(), WorldFault>
        ensures { RunsTo steps.now (world_of self.old) (world_of self.new) result }
    {
        for (at, step) in steps.iter().enumerate() {
            match self.parts.step(alloc, step) {
                Ok(()) => {}
                Err(ActFault::NotAllowed) => return Err(WorldFault::NotLegal { at }),
                Err(ActFault::NoMemory) => return Err(WorldFault::NoMemory { at }),
            }
        }
        Ok(())
    }

    /// The file that the actor's last fetch gave. None where it has not gathered m blocks of each
    /// fragment of the record that it found.
    pub fn fetched(&self, actor: u32) -> Option<&Bytes>
        ensures { ActorFetched (world_of self.now) actor (option_copied result) }
    {
        let at = seat_of(&self.parts.seats, actor)?;
        self.parts.seats[at].file()
    }
}
