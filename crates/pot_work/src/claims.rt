//! The line in which jobs wait to be taken, under a rule: each position stands in it or was taken,
//! once.
use crossbeam_queue::protocol::{Join, Lesson, Outcome, Protocol, Split};
use crossbeam_queue::{Pass, RuledArrayQueue};
use std::collections::LinkedList;
use std::marker::PhantomData;

/// What a worker knows: its parts, the jobs in line from the beginning, and the positions that it
/// took. No value of it is made.
pub struct Hand<J> {
    pub parts: u64,
    pub jobs: LinkedList<J>,
    pub taken: LinkedList<u32>,
}

/// The rule.
pub struct Claims<J> {
    of: PhantomData<J>,
}

impl<J> Protocol<(u32, J), Hand<J>> for Claims<J> {
    ghost use Rattle.std.specs.Prelude.{[]};
    ghost use Rattle.pot_work.specs.Claims.{hand, all_parts, Claimed};

    ghost holds = { Claimed };

    ghost first = { hand all_parts [] [] };
}

/// The step that puts the next position in line.
pub struct Joins;

impl<J> Outcome<(u32, J), Hand<J>> for Joins {
    ghost use Rattle.std.specs.Prelude.{◌≡◌, ◌++◌, ◌∷◌, []};
    ghost use Rattle.pot_work.specs.Claims.{hand};

    ghost then = { λ v x w. w ≡ hand v.parts (v.jobs ++ x.1 ∷ []) v.taken };
}

impl<J> Lesson<(u32, J), Hand<J>> for Joins {
    ghost use Rattle.std.specs.Prelude.{◌≤◌, length};

    ghost fact = { λ v items. length items ≤ length v.jobs };
}

/// The step that takes the first position in line.
pub struct Takes;

impl<J> Outcome<(u32, J), Hand<J>> for Takes {
    ghost use Rattle.pot_work.specs.Claims.{TookOne};

    ghost then = { TookOne };
}

impl<J> Lesson<(u32, J), Hand<J>> for Takes {
    ghost use Rattle.pot_work.specs.Claims.{TookAll};

    ghost fact = { TookAll };
}

/// How a worker gets a part, and gives it back with what it took.
pub struct Parts;

impl<J> Split<Hand<J>> for Parts {
    ghost use Rattle.std.specs.Prelude.{◌-◌, []};
    ghost use Rattle.pot_work.specs.Claims.{hand};

    ghost left = { λ v. hand (v.parts - 1) v.jobs v.taken };

    ghost right = { λ v. hand 1 v.jobs [] };
}

impl<J> Join<Hand<J>> for Parts {
    ghost use Rattle.std.specs.Prelude.{◌+◌, ◌++◌, []};
    ghost use Rattle.pot_work.specs.Claims.{hand};

    ghost both = { λ v w. hand (v.parts + w.parts) v.jobs (v.taken ++ w.taken) };

    ghost spent = { hand 0 [] [] };
}

/// The line of the jobs that no worker has taken.
pub type Line<J> = RuledArrayQueue<(u32, J), Hand<J>, Claims<J>>;

/// What a worker knows of the line.
pub type Claim<J> = Pass<(u32, J), Hand<J>>;
