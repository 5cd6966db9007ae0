//! Turns in a row, and passes of all of them, as plain lists.
//!
//! Values that are used side by side each stand under a turn of their own, as the groups of a vault
//! do. Whoever works with them has a row of passes, one of each turn. A contract sees lists: the
//! names of the turns with the values that they were made with (`TurnRow` of specs/Rows.antt), and
//! what each pass knows of its turn (`PassRow`). So what is said of a place is one equation, and no
//! caller meets a turn or a pass of its own.
//!
//! | call | what it does at a place |
//! |---|---|
//! | `start`, `close` | makes a turn and its first pass of each value, and hands the values out again |
//! | `enter`, `leave` | takes the value of one turn, and gives it back |
//! | `split`, `join` | makes a second row of passes, and takes one in |
//! | `tie` | lets two rows tell one another what they have seen |
//!
//! What a job did with a row is said at each place, in the words of `pot_worked` (`row_laws`).
//!
//! It knows nothing of what the values are. It promises no progress, as `pot_turn`, and no order
//! among the turns.
#![tactic(auto)]

mod calls;
mod ends;
mod parts;
mod ties;
mod works;

use pot_turn::{Kept, Pass, Turn};
use std::alloc::Global;
use std::marker::Model;
pub use works::row_laws;

/// Turns in a row. Contracts see their names, and the value that each was made with.
#[derive(Drop)]
pub struct Turns<T: Kept> {
    turns: Vec<Turn<T>>,
}

impl<T: Kept> Model for Turns<T> {
    ghost use Rattle.std.specs.Prelude.{map};
    ghost use Rattle.pot_turn.specs.Passes.{name_of, made_with};
    ghost use Rattle.pot_rows.specs.Rows.{TurnRow};

    ghost Value = { TurnRow T };

    ghost view = { λ t. record { names = map name_of t.turns.items; made = map made_with t.turns.items } };
}

/// A pass of each turn of a row. Contracts see the names of the turns, and what each pass knows.
#[derive(Drop)]
pub struct Passes<T: Kept> {
    passes: Vec<Pass<T>>,
}

impl<T: Kept> Model for Passes<T> {
    ghost use Rattle.std.specs.Prelude.{map};
    ghost use Rattle.pot_turn.specs.Passes.{view as knows, turn_of};
    ghost use Rattle.pot_rows.specs.Rows.{PassRow};

    ghost Value = { PassRow T.Entry T.Origin };

    ghost view = { λ p. record { names = map turn_of p.passes.items; views = map knows p.passes.items } };
}

impl<T: Kept> Passes<T> {
    /// No passes, of no turns.
    pub fn none(alloc: Global) -> Passes<T> {
        Passes {
            passes: Vec::new(alloc),
        }
    }
}
