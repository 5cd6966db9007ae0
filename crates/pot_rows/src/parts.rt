//! A row of passes that is split into two, and two rows that become one.
ghost use Rattle.std.specs.Prelude.{◌≡◌, ◌<◌, false, Some, slice_get, length};
ghost use Rattle.pot_turn.specs.Passes.{view, turn_of};
ghost use Rattle.pot_turn.specs.Views.{cut_view, new_view};

use crate::{Passes, Turns};
use pot_turn::{Kept, NoMemory, Pass};
use std::alloc::Global;

impl<T: Kept> Turns<T> {
    ghost use Rattle.std.specs.Prelude.{ℕ, ◌≤◌, IfOk, IfErr};
    ghost use Rattle.pot_rows.specs.Rows.{AreOf, view_at, with_view, IsIdle, HasMoreParts};
    ghost use Rattle.pot_rows.specs.Parts.{RowCut, RowNew, JoinedAt, RowJoined};

    /// A new pass of the turn at a place, which takes these parts of the old one.
    fn split_at(&self, passes: &mut Passes<T>, at: usize, parts: u64) -> Pass<T>
        requires own { AreOf self.now.names passes.old }
        requires within { at < length self.now.names }
        requires idle { (view_at passes.old at).holds ≡ false }
        requires some { (0 < parts) × (parts < (view_at passes.old at).parts) }
        ensures left { passes.new
            ≡ with_view passes.old at (cut_view parts (view_at passes.old at)) }
        ensures own { Some (turn_of result) ≡ slice_get self.now.names at }
        ensures given { view result ≡ new_view parts (view_at passes.old at) }
    {
        let turn = &self.turns[at];
        let pass = &mut passes.passes[at];
        let Ok(part) = turn.split(pass, parts) else {
            unreachable!()
        };
        part
    }

    /// A new row of passes, each of which has seen what the old one of its turn has, and takes
    /// these parts of it. Only memory can be wanting, and then nothing changes.
    pub fn split(
        &self,
        alloc: Global,
        passes: &mut Passes<T>,
        parts: u64,
    ) -> Result<Passes<T>, NoMemory>
        requires own { AreOf self.now.names passes.old }
        requires idle { IsIdle passes.old }
        requires some { (0 < parts) × HasMoreParts parts passes.old }
        ensures own { AreOf self.now.names passes.new }
        ensures left { IfOk result (λ _. RowCut parts passes.old passes.new) }
        ensures given { IfOk result (λ p. AreOf self.now.names p × RowNew parts passes.old p) }
        ensures refused { IfErr result (λ _. passes.new ≡ passes.old) }
    {
        let Ok(mut given) = Vec::with_capacity(alloc, self.len()) else {
            return Err(NoMemory);
        };
        for at in 0..self.len() {
            let part = self.split_at(passes, at, parts);
            given.push_reserved(part);
        }
        Ok(Passes { passes: given })
    }

    /// The pass of the turn at a place takes in another.
    fn join_at(&self, passes: &mut Passes<T>, at: usize, part: Pass<T>)
        requires own { AreOf self.now.names passes.old }
        requires within { at < length self.now.names }
        requires idle { (view_at passes.old at).holds ≡ false }
        requires its_own { Some (turn_of part) ≡ slice_get self.now.names at }
        requires its_idle { (view part).holds ≡ false }
        ensures { JoinedAt passes.old at (view part) passes.new }
    {
        let turn = &self.turns[at];
        let pass = &mut passes.passes[at];
        turn.join(pass, part);
    }

    /// The passes take in those of another row, turn by turn, as `Turn::join`: each has then seen
    /// what either had, and has the parts of both.
    pub fn join(&self, passes: &mut Passes<T>, other: Passes<T>)
        requires own { AreOf self.now.names passes.old }
        requires idle { IsIdle passes.old }
        requires its_own { AreOf self.now.names other }
        requires its_idle { IsIdle other }
        ensures own { AreOf self.now.names passes.new }
        ensures joined { RowJoined passes.old other passes.new }
    {
        let Passes { passes: others } = other;
        let mut others = others.into_iter();
        for at in 0..self.len() {
            let Some(part) = others.next() else {
                unreachable!()
            };
            self.join_at(passes, at, part);
        }
        others.destroy_empty();
    }
}
