//! Two rows of passes that tell one another what they have seen.
ghost use Rattle.std.specs.Prelude.{◌≡◌, ◌<◌, false};
ghost use Rattle.pot_turn.specs.Passes.{view, turn_of, IsPassOf};
ghost use Rattle.pot_rows.specs.Ties.{Tied};

use crate::{Passes, Turns};
use pot_turn::{Kept, Pass, Turn};

/// Two passes of one turn tell one another what they have seen. Nothing else changes.
fn tie_one<T: Kept>(turn: &Turn<T>, mine: &mut Pass<T>, other: &mut Pass<T>)
    requires own { IsPassOf turn.now mine.old × IsPassOf turn.now other.old }
    requires idle { ((view mine.old).holds ≡ false) × ((view other.old).holds ≡ false) }
    requires parts { (1 < (view mine.old).parts) × (1 < (view other.old).parts) }
    ensures same { (turn_of mine.new ≡ turn_of mine.old) × (turn_of other.new ≡ turn_of other.old) }
    ensures tied { Tied (view mine.old) (view other.old) (view mine.new) (view other.new) }
{
    let Ok(part) = turn.split(mine, 1) else {
        unreachable!()
    };
    turn.join(other, part);
    let Ok(back) = turn.split(other, 1) else {
        unreachable!()
    };
    turn.join(mine, back);
}

impl<T: Kept> Turns<T> {
    ghost use Rattle.std.specs.Prelude.{ℕ, length};
    ghost use Rattle.pot_rows.specs.Rows.{AreOf, view_at, IsIdle, HasMoreParts};
    ghost use Rattle.pot_rows.specs.Ties.{TiedAt, RowTied};

    /// The passes of the turn at a place tell one another what they have seen.
    fn tie_at(&self, mine: &mut Passes<T>, others: &mut Passes<T>, at: usize)
        requires own { AreOf self.now.names mine.old × AreOf self.now.names others.old }
        requires within { at < length self.now.names }
        requires idle { ((view_at mine.old at).holds ≡ false)
            × ((view_at others.old at).holds ≡ false) }
        requires parts { (1 < (view_at mine.old at).parts) × (1 < (view_at others.old at).parts) }
        ensures { TiedAt mine.old others.old at mine.new others.new }
    {
        let turn = &self.turns[at];
        let one = &mut mine.passes[at];
        let other = &mut others.passes[at];
        tie_one(turn, one, other);
    }

    /// The passes of two rows tell one another what they have seen, turn by turn: each has then
    /// seen what either had, and nothing else of them changes.
    pub fn tie(&self, mine: &mut Passes<T>, others: &mut Passes<T>)
        requires own { AreOf self.now.names mine.old × AreOf self.now.names others.old }
        requires idle { IsIdle mine.old × IsIdle others.old }
        requires parts { HasMoreParts 1 mine.old × HasMoreParts 1 others.old }
        ensures own { AreOf self.now.names mine.new × AreOf self.now.names others.new }
        ensures tied { RowTied mine.old others.old mine.new others.new }
    {
        for at in 0..self.len() {
            self.tie_at(mine, others, at);
        }
    }
}
