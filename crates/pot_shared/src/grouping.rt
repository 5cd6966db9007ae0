//! The locked calls of a group.
ghost use Rattle.std.specs.Prelude.{◌<◌, ◌≡◌, length};

use crate::connection::Connection;
use crate::sealed_put::SealedPut;
use crate::vault::{Passes, Vault};
use pot_bytes::{Block, Place};
use pot_group::{Counts, Kind, LogFull, Looked, PutFault, Standing, Swept};
use pot_outside::Archive;
use std::sync::Wait;

impl<A: Archive> Vault<A> {
    ghost use Rattle.pot_shared.specs.Ready.{AreReady, HasSlot};
    ghost use Rattle.pot_group.specs.Calls.{PutCall, LookCall, CountCall};
    ghost use Rattle.pot_group.specs.Sweeping.{SweepCall};
    ghost use Rattle.pot_shared.specs.Calls.{MakesAt, NextCall, StandingCall};

    /// Puts a block into a group, in one turn of it, as `Group::put`. The group takes over the
    /// block's digest, and that of the parity block that is expected where this is the one that it
    /// writes: another one changes no answer.
    ///
    /// # Errors
    /// Those of `Group::put`.
    pub fn put<R: Wait>(
        &self,
        rt: &R,
        passes: &mut Passes<A>,
        group: u8,
        job: u32,
        next: &SealedPut,
    ) -> Result<Place, PutFault>
        requires ready { AreReady self.now.rack self.now.groups passes.old.groups }
        requires group { group < length self.now.groups }
        requires job { 0 < job }
        ensures ready { AreReady self.now.rack self.now.groups passes.new.groups }
        ensures index { passes.new.index ≡ passes.old.index }
        ensures call { MakesAt A.account (λ told. PutCall told job next.now.block.block result)
            group passes.old.groups passes.new.groups }
    {
        let mut member = self.groups.enter(rt, &mut passes.groups, group as usize);
        let _before = member.group.logged();
        member.group.expect(&next.block, &next.parity);
        let answer = member.group.put(job, next.block.block());
        let _after = member.group.logged();
        self.groups
            .leave(&mut passes.groups, group as usize, member);
        answer
    }

    /// Looks at a slot, in one turn of its group, as `Group::look`.
    pub fn look<R: Wait>(
        &self,
        rt: &R,
        passes: &mut Passes<A>,
        job: u32,
        place: Place,
        into: &mut Block,
    ) -> Looked
        requires ready { AreReady self.now.rack self.now.groups passes.old.groups }
        requires place { HasSlot self.now.rack self.now.groups place }
        requires job { 0 < job }
        ensures ready { AreReady self.now.rack self.now.groups passes.new.groups }
        ensures index { passes.new.index ≡ passes.old.index }
        ensures call { MakesAt A.account (λ told. LookCall told job place into.new result)
            place.group passes.old.groups passes.new.groups }
    {
        let mut member = self
            .groups
            .enter(rt, &mut passes.groups, place.group as usize);
        let _before = member.group.logged();
        let answer = member.group.look(job, place, into);
        let _after = member.group.logged();
        self.groups
            .leave(&mut passes.groups, place.group as usize, member);
        answer
    }

    /// Looks at the next Live slots of its group from this place on, a few of them in one turn of
    /// it, as `Group::sweep`. The stripe and the column may be beyond the last ones.
    pub fn sweep<R: Wait>(&self, rt: &R, passes: &mut Passes<A>, job: u32, from: Place) -> Swept
        requires ready { AreReady self.now.rack self.now.groups passes.old.groups }
        requires group { from.group < length self.now.groups }
        requires job { 0 < job }
        ensures ready { AreReady self.now.rack self.now.groups passes.new.groups }
        ensures index { passes.new.index ≡ passes.old.index }
        ensures call { MakesAt A.account
            (λ told. SweepCall told job from.stripe from.column result)
            from.group passes.old.groups passes.new.groups }
    {
        let mut member = self
            .groups
            .enter(rt, &mut passes.groups, from.group as usize);
        let _before = member.group.logged();
        let swept = member.group.sweep(job, from.stripe, from.column);
        let _after = member.group.logged();
        self.groups
            .leave(&mut passes.groups, from.group as usize, member);
        swept
    }

    /// Counts the slots of a group by state, in one turn of it, as `Group::count`.
    ///
    /// # Errors
    /// `LogFull` exactly where the log of the group has 262,144 entries.
    pub fn count<R: Wait>(
        &self,
        rt: &R,
        passes: &mut Passes<A>,
        group: u8,
        job: u32,
    ) -> Result<Counts, LogFull>
        requires ready { AreReady self.now.rack self.now.groups passes.old.groups }
        requires group { group < length self.now.groups }
        requires job { 0 < job }
        ensures ready { AreReady self.now.rack self.now.groups passes.new.groups }
        ensures index { passes.new.index ≡ passes.old.index }
        ensures call { MakesAt A.account (λ told. CountCall told job result)
            group passes.old.groups passes.new.groups }
    {
        let mut member = self.groups.enter(rt, &mut passes.groups, group as usize);
        let _before = member.group.logged();
        let answer = member.group.count(job);
        let _after = member.group.logged();
        self.groups
            .leave(&mut passes.groups, group as usize, member);
        answer
    }

    /// The first place of its group at or after this one whose slot is of the kind, in one turn of
    /// it, as `Group::next`. The stripe and the column may be beyond the last ones.
    pub fn next<R: Wait>(
        &self,
        rt: &R,
        passes: &mut Passes<A>,
        from: Place,
        kind: Kind,
    ) -> Option<Place>
        requires ready { AreReady self.now.rack self.now.groups passes.old.groups }
        requires group { from.group < length self.now.groups }
        ensures ready { AreReady self.now.rack self.now.groups passes.new.groups }
        ensures index { passes.new.index ≡ passes.old.index }
        ensures call { MakesAt A.account (λ _. NextCall from.stripe from.column kind result)
            from.group passes.old.groups passes.new.groups }
    {
        let member = self
            .groups
            .enter(rt, &mut passes.groups, from.group as usize);
        let _before = member.group.logged();
        let found = member.group.next(from.stripe, from.column, kind);
        self.groups
            .leave(&mut passes.groups, from.group as usize, member);
        found
    }

    /// Where a group stands, in one turn of it, as `Group::standing`. Others may put into it as
    /// soon as the turn ends.
    pub fn standing<R: Wait>(&self, rt: &R, passes: &mut Passes<A>, group: u8) -> Standing
        requires ready { AreReady self.now.rack self.now.groups passes.old.groups }
        requires group { group < length self.now.groups }
        ensures ready { AreReady self.now.rack self.now.groups passes.new.groups }
        ensures index { passes.new.index ≡ passes.old.index }
        ensures call { MakesAt A.account (λ _. StandingCall result)
            group passes.old.groups passes.new.groups }
    {
        let member = self.groups.enter(rt, &mut passes.groups, group as usize);
        let _before = member.group.logged();
        let standing = member.group.standing();
        self.groups
            .leave(&mut passes.groups, group as usize, member);
        standing
    }
}

impl<'v, A: Archive, R: Wait> Connection<'v, A, R> {
    ghost use Rattle.pot_group.specs.Calls.{PutCall, LookCall};
    ghost use Rattle.pot_shared.specs.Calls.{MakesAt, StandingCall};
    ghost use Rattle.pot_shared.specs.Ready.{HasSlot};
    ghost use Rattle.pot_shared.specs.Connections.{InGroups, names_of, rack_of};

    /// Puts a block into a group, as `Vault::put`.
    ///
    /// # Errors
    /// Those of `Group::put`.
    pub fn put(&mut self, group: u8, next: &SealedPut) -> Result<Place, PutFault>
        requires { group < length (names_of self.old) }
        ensures { InGroups (λ b. MakesAt A.account
            (λ told. PutCall told b.job next.now.block.block result) group) self.old self.new }
    {
        let (rt, vault, job) = (self.rt, self.vault, self.job);
        vault.put(rt, &mut self.passes, group, job, next)
    }

    /// Looks at a slot, as `Vault::look`.
    pub fn look(&mut self, place: Place, into: &mut Block) -> Looked
        requires { HasSlot (rack_of self.old) (names_of self.old) place }
        ensures { InGroups (λ b. MakesAt A.account
            (λ told. LookCall told b.job place into.new result) place.group) self.old self.new }
    {
        let (rt, vault, job) = (self.rt, self.vault, self.job);
        vault.look(rt, &mut self.passes, job, place, into)
    }

    /// Where a group stands, as `Vault::standing`.
    pub fn standing(&mut self, group: u8) -> Standing
        requires { group < length (names_of self.old) }
        ensures { InGroups (λ b. MakesAt A.account (λ told. StandingCall result) group)
            self.old self.new }
    {
        let (rt, vault) = (self.rt, self.vault);
        vault.standing(rt, &mut self.passes, group)
    }
}
