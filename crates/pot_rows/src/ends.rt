//! How a row of turns begins, and how it ends.
ghost use Rattle.std.specs.Prelude.{◌≡◌, ◌+◌, ◌≤◌, [], ◌++◌, IsTrue, length, map, reverse};
ghost use Rattle.std.specs.Vec.{vec_capacity};
ghost use Rattle.pot_turn.specs.Passes.{made_with};
ghost use Rattle.pot_rows.specs.Ends.{AreFirstOfTurns};

use crate::{Passes, Turns};
use pot_turn::{Kept, NoMemory, Pass, Turn, TurnRefused};
use std::alloc::Global;

/// Makes a turn and its first pass of each value, from the last one to the first, until there is no
/// memory for a turn. It says whether there was.
fn make_turns<T: Kept>(
    alloc: Global,
    values: &mut Vec<T>,
    turns: &mut Vec<Turn<T>>,
    passes: &mut Vec<Pass<T>>,
) -> bool
    requires empty { (turns.old.items ≡ []) × (passes.old.items ≡ []) }
    requires room { (length values.old.items ≤ vec_capacity turns.old)
        × (length values.old.items ≤ vec_capacity passes.old) }
    ensures first { AreFirstOfTurns T.log T.origin turns.new.items passes.new.items }
    ensures order { reverse values.old.items
        ≡ map made_with turns.new.items ++ reverse values.new.items }
    ensures all { IsTrue result → values.new.items ≡ [] }
    ensures capacity { vec_capacity values.new ≡ vec_capacity values.old }
{
    while let Some(value) = values.pop() {
        match Turn::new(alloc, value) {
            Ok((turn, pass)) => {
                turns.push_reserved(turn);
                passes.push_reserved(pass);
            }
            Err(refused) => {
                let TurnRefused { value } = refused;
                values.push_reserved(value);
                return false;
            }
        }
    }
    true
}

/// Hands out the values of turns that no pass ever entered, from the last one to the first.
fn unmake_turns<T: Kept>(values: &mut Vec<T>, mut turns: Vec<Turn<T>>, mut passes: Vec<Pass<T>>)
    requires first { AreFirstOfTurns T.log T.origin turns.items passes.items }
    requires room { length values.old.items + length turns.items ≤ vec_capacity values.old }
    ensures back { values.new.items ≡ values.old.items ++ reverse (map made_with turns.items) }
    ensures capacity { vec_capacity values.new ≡ vec_capacity values.old }
{
    while let Some(turn) = turns.pop() {
        let Some(pass) = passes.pop() else {
            unreachable!()
        };
        values.push_reserved(turn.close(pass));
    }
    turns.destroy_empty();
    passes.destroy_empty();
}

impl<T: Kept> Turns<T> {
    ghost use Rattle.std.specs.Prelude.{IfOk, IfErr};
    ghost use Rattle.pot_turn.specs.Views.{first_view};
    ghost use Rattle.pot_rows.specs.Rows.{AreOf, IsIdle};
    ghost use Rattle.pot_rows.specs.Ends.{HasAllParts, IsUntouched, RowClosed};

    /// A row of turns over the values, and the first pass of each, which has all parts and has seen
    /// its value's log. The vector is empty then and keeps its room, which `close` can have. Only
    /// memory can be wanting, and then the vector has its values as before.
    pub fn start(alloc: Global, values: &mut Vec<T>) -> Result<(Turns<T>, Passes<T>), NoMemory>
        ensures own { IfOk result (λ p. AreOf p.0.names p.1) }
        ensures first { IfOk result (λ p. p.1.views
            ≡ map (λ x. first_view (T.log x) (T.origin x)) values.old.items) }
        ensures made { IfOk result (λ p. p.0.made ≡ values.old.items) }
        ensures taken { IfOk result (λ _. values.new.items ≡ []) }
        ensures back { IfErr result (λ _. values.new.items ≡ values.old.items) }
        ensures capacity { vec_capacity values.new ≡ vec_capacity values.old }
    {
        let Ok(mut turns) = Vec::with_capacity(alloc, values.len()) else {
            return Err(NoMemory);
        };
        let Ok(mut passes) = Vec::with_capacity(alloc, values.len()) else {
            turns.destroy_empty();
            return Err(NoMemory);
        };
        values.reverse();
        if make_turns(alloc, values, &mut turns, &mut passes) {
            Ok((Turns { turns }, Passes { passes }))
        } else {
            unmake_turns(values, turns, passes);
            values.reverse();
            Err(NoMemory)
        }
    }

    /// Ends the turns with the row of passes that has all parts, and hands out the values, in
    /// order, into a vector with room for them. What each place says is what `Turn::close` says.
    /// Where no pass ever took a value, they are the very ones that the turns were made with.
    pub fn close(self, passes: Passes<T>, values: &mut Vec<T>)
        requires own { AreOf self.names passes }
        requires idle { IsIdle passes }
        requires all { HasAllParts passes }
        requires empty { values.old.items ≡ [] }
        requires room { length self.names ≤ vec_capacity values.old }
        ensures closed { RowClosed T.log T.origin passes values.new.items }
        ensures untouched { IsUntouched passes → values.new.items ≡ self.made }
        ensures capacity { vec_capacity values.new ≡ vec_capacity values.old }
    {
        let Turns { turns } = self;
        let Passes { passes } = passes;
        let mut turns = turns.into_iter();
        let mut passes = passes.into_iter();
        while let Some(turn) = turns.next() {
            let Some(pass) = passes.next() else {
                unreachable!()
            };
            values.push_reserved(turn.close(pass));
        }
        turns.destroy_empty();
        passes.destroy_empty();
    }
}
