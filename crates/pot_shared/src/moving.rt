//! The locked calls that move a column, and that bring an archive to one.
ghost use Rattle.std.specs.Prelude.{◌<◌, ◌+◌, ◌≡◌, length};

use crate::vault::{Passes, Vault};
use pot_group::{MoveFault, MoveStep, ShelfRefused};
use pot_outside::{Archive, Shelf};
use std::sync::Wait;

/// A column of a group.
#[derive(Clone, Copy, PartialEq, Eq, Debug)]
pub struct ColumnAt {
    pub group: u8,
    pub column: u8,
}

impl<A: Archive> Vault<A> {
    ghost use Rattle.pot_shared.specs.Ready.{AreReady};
    ghost use Rattle.pot_shared.specs.Calls.{MakesAt};
    ghost use Rattle.pot_group.specs.Calls.{MoveBeginCall, MoveStepCall, SwapCall};

    /// A column begins to move to an archive that comes, in one turn of its group, as
    /// `Group::move_begin`.
    ///
    /// # Errors
    /// Those of `Group::move_begin`. The archive is handed back, and the group is as it was.
    pub fn move_begin<R: Wait>(
        &self,
        rt: &R,
        passes: &mut Passes<A>,
        job: u32,
        at: ColumnAt,
        shelf: Shelf<A>,
    ) -> Result<(), ShelfRefused<A>>
        requires ready { AreReady self.now.rack self.now.groups passes.old.groups }
        requires group { at.group < length self.now.groups }
        requires column { at.column < self.now.rack.columns + self.now.rack.parity }
        requires job { 0 < job }
        ensures ready { AreReady self.now.rack self.now.groups passes.new.groups }
        ensures index { passes.new.index ≡ passes.old.index }
        ensures call { MakesAt A.account
            (λ told. MoveBeginCall told A.account.meaning job at.column shelf result)
            at.group passes.old.groups passes.new.groups }
    {
        let mut member = self.groups.enter(rt, &mut passes.groups, at.group as usize);
        let _before = member.group.logged();
        let answer = member.group.move_begin(job, at.column, shelf);
        let _after = member.group.logged();
        self.groups
            .leave(&mut passes.groups, at.group as usize, member);
        answer
    }

    /// Moves a column by one stripe, or ends its move, in one turn of its group, as
    /// `Group::move_step`.
    ///
    /// # Errors
    /// Those of `Group::move_step`.
    pub fn move_step<R: Wait>(
        &self,
        rt: &R,
        passes: &mut Passes<A>,
        job: u32,
        at: ColumnAt,
    ) -> Result<MoveStep, MoveFault>
        requires ready { AreReady self.now.rack self.now.groups passes.old.groups }
        requires group { at.group < length self.now.groups }
        requires column { at.column < self.now.rack.columns + self.now.rack.parity }
        requires job { 0 < job }
        ensures ready { AreReady self.now.rack self.now.groups passes.new.groups }
        ensures index { passes.new.index ≡ passes.old.index }
        ensures call { MakesAt A.account (λ told. MoveStepCall told job at.column result)
            at.group passes.old.groups passes.new.groups }
    {
        let mut member = self.groups.enter(rt, &mut passes.groups, at.group as usize);
        let _before = member.group.logged();
        let answer = member.group.move_step(job, at.column);
        let _after = member.group.logged();
        self.groups
            .leave(&mut passes.groups, at.group as usize, member);
        answer
    }

    /// An archive that comes takes the place of a column's home, in one turn of its group, as
    /// `Group::swap`.
    ///
    /// # Errors
    /// Those of `Group::swap`. The archive is handed back, and the group is as it was.
    pub fn swap<R: Wait>(
        &self,
        rt: &R,
        passes: &mut Passes<A>,
        job: u32,
        at: ColumnAt,
        shelf: Shelf<A>,
    ) -> Result<u32, ShelfRefused<A>>
        requires ready { AreReady self.now.rack self.now.groups passes.old.groups }
        requires group { at.group < length self.now.groups }
        requires column { at.column < self.now.rack.columns + self.now.rack.parity }
        requires job { 0 < job }
        ensures ready { AreReady self.now.rack self.now.groups passes.new.groups }
        ensures index { passes.new.index ≡ passes.old.index }
        ensures call { MakesAt A.account
            (λ told. SwapCall told A.account.meaning job at.column shelf result)
            at.group passes.old.groups passes.new.groups }
    {
        let mut member = self.groups.enter(rt, &mut passes.groups, at.group as usize);
        let _before = member.group.logged();
        let answer = member.group.swap(job, at.column, shelf);
        let _after = member.group.logged();
        self.groups
            .leave(&mut passes.groups, at.group as usize, member);
        answer
    }
}
