//! The locked calls that ask the groups, one after another, which archives they use.
ghost use Rattle.std.specs.Prelude.{◌<◌, ◌≡◌, IsTrue, length};

use crate::vault::{Passes, Vault};
use pot_group::{Trace, Use};
use pot_outside::Archive;
use std::sync::Wait;

impl<A: Archive> Vault<A> {
    ghost use Rattle.pot_shared.specs.Ready.{AreReady};
    ghost use Rattle.pot_shared.specs.Calls.{MakesAt};
    ghost use Rattle.pot_shared.specs.UseCalls.{FindsUse, TraceCall, TracesAll, UseCall};

    /// What the first group that uses the archive of this number uses it as. The groups are asked
    /// in order, each in one turn.
    pub fn use_of<R: Wait>(&self, rt: &R, passes: &mut Passes<A>, number: u32) -> Option<Use>
        requires ready { AreReady self.now.rack self.now.groups passes.old.groups }
        ensures ready { AreReady self.now.rack self.now.groups passes.new.groups }
        ensures index { passes.new.index ≡ passes.old.index }
        ensures finds { FindsUse (IsTrue A.account.tells) (length self.now.groups) number result
            passes.old.groups passes.new.groups }
    {
        'asked: for at in 0..self.groups.len() {
            if let Some(found) = self.use_at(rt, passes, at, number) {
                return Some(found);
            }
        }
        None
    }

    /// The first column of all groups whose home is the archive `from`, and whether a group has a
    /// use of the archive `to`. Every group is asked, in order, each in one turn.
    pub fn trace<R: Wait>(&self, rt: &R, passes: &mut Passes<A>, from: u32, to: u32) -> Trace
        requires ready { AreReady self.now.rack self.now.groups passes.old.groups }
        ensures ready { AreReady self.now.rack self.now.groups passes.new.groups }
        ensures index { passes.new.index ≡ passes.old.index }
        ensures traces { TracesAll (IsTrue A.account.tells) (length self.now.groups) from to result
            passes.old.groups passes.new.groups }
    {
        let mut home = None;
        let mut taken = false;
        'traced: for at in 0..self.groups.len() {
            let answer = self.trace_at(rt, passes, at, from, to);
            home = home.or(answer.home);
            taken = taken || answer.taken;
        }
        Trace { home, taken }
    }

    /// Asks one group what it uses an archive as, in one turn of it, as `Group::use_of`.
    fn use_at<R: Wait>(&self, rt: &R, passes: &mut Passes<A>, at: usize, number: u32) -> Option<Use>
        requires ready { AreReady self.now.rack self.now.groups passes.old.groups }
        requires group { at < length self.now.groups }
        ensures ready { AreReady self.now.rack self.now.groups passes.new.groups }
        ensures index { passes.new.index ≡ passes.old.index }
        ensures call { MakesAt A.account (λ _. UseCall number result)
            at passes.old.groups passes.new.groups }
    {
        let member = self.groups.enter(rt, &mut passes.groups, at);
        let _before = member.group.logged();
        let answer = member.group.use_of(number);
        self.groups.leave(&mut passes.groups, at, member);
        answer
    }

    /// Asks one group for two archives, in one turn of it, as `Group::trace`.
    fn trace_at<R: Wait>(
        &self,
        rt: &R,
        passes: &mut Passes<A>,
        at: usize,
        from: u32,
        to: u32,
    ) -> Trace
        requires ready { AreReady self.now.rack self.now.groups passes.old.groups }
        requires group { at < length self.now.groups }
        ensures ready { AreReady self.now.rack self.now.groups passes.new.groups }
        ensures index { passes.new.index ≡ passes.old.index }
        ensures call { MakesAt A.account (λ _. TraceCall from to result)
            at passes.old.groups passes.new.groups }
    {
        let member = self.groups.enter(rt, &mut passes.groups, at);
        let _before = member.group.logged();
        let answer = member.group.trace(from, to);
        self.groups.leave(&mut passes.groups, at, member);
        answer
    }
}
