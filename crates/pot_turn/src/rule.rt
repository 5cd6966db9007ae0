//! The rule of a turn and its steps, each of which keeps the rule.
use crate::Kept;
use crate::view::Sight;
use atomic_table::{Join, Play, Split, TableRule};
use std::marker::{Brand, PhantomData};
use std::snapshot::Snapshot;

/// The rule. Its key is the value that the turn was made with.
pub struct TurnRule<T> {
    of: PhantomData<T>,
}

impl<T: Kept> TableRule<Option<T>, Sight<T::Entry, T::Origin>, Snapshot<T>> for TurnRule<T> {
    ghost use Rattle.pot_turn.specs.Rules.{Ruled, first_sight};

    ghost holds = { λ k. Ruled T.log T.origin k.value };

    ghost first = { λ k. first_sight (T.log k.value) (T.origin k.value) };
}

/// The step that takes the value, if it is at home.
pub struct Take<T> {
    of: PhantomData<T>,
}

impl<T: Kept> Play<Option<T>, Sight<T::Entry, T::Origin>> for Take<T> {
    ghost use Rattle.pot_turn.specs.Rules.{TookTurn};

    ghost then = { λ st m n m'. TookTurn T.log T.origin m n m' };
}

/// The step that counts what was logged.
pub struct Raise<T> {
    of: PhantomData<T>,
}

impl<T: Kept> Play<Option<T>, Sight<T::Entry, T::Origin>> for Raise<T> {
    ghost use Rattle.pot_turn.specs.Rules.{Raised};

    ghost then = { λ st m n m'. Raised T.log m m' };
}

/// The step that gives the value back.
pub struct Free;

impl<T, E, O> Play<Option<T>, Sight<E, O>> for Free {
    ghost use Rattle.pot_turn.specs.Rules.{Freed};

    ghost then = { λ st m n m'. Freed m m' };
}

/// The step that counts who sleeps.
pub struct Doze;

impl<T, E, O> Play<Option<T>, Sight<E, O>> for Doze {
    ghost use Rattle.std.specs.Prelude.{◌≡◌};

    ghost then = { λ st m n m'. m' ≡ m };
}

/// The step that tells a pass what its last join left.
pub struct Look;

impl<T, E, O> Play<Option<T>, Sight<E, O>> for Look {
    ghost use Rattle.pot_turn.specs.Rules.{LookedAt};

    ghost then = { λ st m n m'. LookedAt m m' };
}

/// A number of parts. Each call picks it.
pub trait Parts {
    ghost use Rattle.std.specs.Prelude.{ℕ};

    ghost parts: { ℕ };
}

impl Parts for Brand {
    ghost parts = { 1 };
}

/// How some parts of a pass go to a new one.
pub struct Cut<N> {
    of: PhantomData<N>,
}

impl<E, O, N: Parts> Split<Sight<E, O>> for Cut<N> {
    ghost use Rattle.pot_turn.specs.Rules.{cut_sight, new_sight};

    ghost left = { cut_sight N.parts };

    ghost right = { new_sight N.parts };
}

/// How two passes become one.
pub struct Pair;

impl<E, O> Join<Sight<E, O>> for Pair {
    ghost use Rattle.pot_turn.specs.Rules.{both_sights, spent_sight};

    ghost both = { both_sights };

    ghost spent = { spent_sight };
}
