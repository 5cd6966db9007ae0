//! Steps of one group, and losses.
ghost use Rattle.std.specs.Prelude.{◌≡◌, ◌↔◌, Ok};
ghost use Rattle.pot_world.specs.declared.step.Step.TheVariants as step;
ghost use Rattle.pot_world.specs.World.{made};
ghost use Rattle.pot_actors.specs.Steps.{ActorSteps};
ghost use Rattle.pot_actors.specs.Worlds.{world_of};

use crate::parts::Parts;
use pot_bytes::{Block, Place};
use pot_world::{ActFault, GroupAct};

impl Parts {
    /// One step of mending a place.
    pub(crate) fn mend(&mut self, actor: u32, place: &Place, blind: &Block) -> Result<(), ActFault>
        ensures { ActorSteps (step.Mend actor place.now blind.now) self.old self.new result }
    {
        let act = GroupAct::Mend {
            job: actor,
            stripe: place.stripe,
            column: place.column,
            blind: *blind,
        };
        self.groups.make(place.group, &act)
    }

    /// A column of a group begins to move to an archive without a use.
    pub(crate) fn move_begin(
        &mut self,
        actor: u32,
        group: u8,
        column: u8,
        to: u32,
    ) -> Result<(), ActFault>
        ensures { ActorSteps (step.MoveBegin actor group column to) self.old self.new result }
    {
        let act = GroupAct::MoveBegin {
            job: actor,
            column,
            to,
        };
        self.groups.make(group, &act)
    }

    /// A move goes on by one stripe, or ends.
    pub(crate) fn move_one(&mut self, actor: u32, group: u8, column: u8) -> Result<(), ActFault>
        ensures { ActorSteps (step.MoveOne actor group column) self.old self.new result }
    {
        let act = GroupAct::MoveOne { job: actor, column };
        self.groups.make(group, &act)
    }

    /// An archive without a use takes the place of a column's archive.
    pub(crate) fn swap(
        &mut self,
        actor: u32,
        group: u8,
        column: u8,
        to: u32,
    ) -> Result<(), ActFault>
        ensures { ActorSteps (step.Swap actor group column to) self.old self.new result }
    {
        let act = GroupAct::Swap {
            job: actor,
            column,
            to,
        };
        self.groups.make(group, &act)
    }

    /// An archive loses a block.
    pub(crate) fn lose(&mut self, archive: u32, slot: u32)
        ensures { world_of self.new ≡ made (step.Lose archive slot) (world_of self.old) }
    {
        self.groups.lose(archive, slot);
    }
}
