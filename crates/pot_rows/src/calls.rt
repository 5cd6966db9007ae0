//! Locked calls of one turn of a row.
use crate::{Passes, Turns};
use pot_turn::Kept;
use std::sync::Wait;

impl<T: Kept> Turns<T> {
    ghost use Rattle.std.specs.Prelude.{◌≡◌, ◌<◌, List, false, true, Some, length};
    ghost use Rattle.pot_turn.specs.Logs.{StartsWith};
    ghost use Rattle.pot_turn.specs.Views.{took_view, left_view};
    ghost use Rattle.pot_rows.specs.Rows.{AreOf, view_at, with_view};

    /// How many turns there are.
    pub fn len(&self) -> usize
        ensures { result ≡ length self.now.names }
    {
        self.turns.len()
    }

    /// Waits for the value of the turn at a place and takes it, as `Turn::enter`. The passes of the
    /// other turns stay as they are.
    pub fn enter<R: Wait>(&self, rt: &R, passes: &mut Passes<T>, at: usize) -> T
        requires own { AreOf self.now.names passes.old }
        requires within { at < length self.now.names }
        requires idle { (view_at passes.old at).holds ≡ false }
        ensures took { passes.new
            ≡ with_view passes.old at (took_view (T.log result) (view_at passes.old at)) }
        ensures begins { StartsWith (T.log result) (view_at passes.old at).seen }
        ensures origin { Some (T.origin result) ≡ (view_at passes.old at).origin }
    {
        let turn = &self.turns[at];
        let pass = &mut passes.passes[at];
        turn.enter(rt, pass)
    }

    /// Gives the value of the turn at a place back, as `Turn::leave`. The passes of the other turns
    /// stay as they are.
    pub fn leave(&self, passes: &mut Passes<T>, at: usize, value: T)
        requires own { AreOf self.now.names passes.old }
        requires within { at < length self.now.names }
        requires had { (view_at passes.old at).holds ≡ true }
        requires grown { StartsWith (T.log value) (view_at passes.old at).seen }
        requires origin { Some (T.origin value) ≡ (view_at passes.old at).origin }
        ensures left { passes.new
            ≡ with_view passes.old at (left_view (T.log value) (view_at passes.old at)) }
    {
        let turn = &self.turns[at];
        let pass = &mut passes.passes[at];
        turn.leave(pass, value)
    }
}

impl<T: Kept> Passes<T> {
    ghost use Rattle.std.specs.Prelude.{◌≡◌, ◌<◌, ℕ, length};
    ghost use Rattle.pot_turn.specs.Views.{IsPass};
    ghost use Rattle.pot_rows.specs.Rows.{view_at};

    /// How many passes there are. Each of them is as every pass is.
    pub fn len(&self) -> usize
        ensures count { result ≡ length self.now.names }
        ensures long { length self.now.views ≡ length self.now.names }
        ensures known { (at : ℕ) → at < length self.now.names → IsPass (view_at self.now at) }
    {
        self.passes.len()
    }
}
