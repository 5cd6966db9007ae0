//! Calls of a group that stands.
ghost use Rattle.std.specs.Prelude.{◌≡◌};

use crate::archive::Shared;
use crate::lines::{Call, Job};
use crate::outcomes::{NO_SLOT, Outcome};
use crate::reading::block;
use pot_bytes::{Block, Place};
use pot_group::{Group, Kind, ShelfRefused};
use pot_outside::Shelf;
use pot_sealed::Sealed;

/// The number of the group.
pub const GROUP: u8 = 5;

/// The byte that every blind repeats.
const BLIND: u8 = 0x5a;

fn place(stripe: u32, column: u8) -> Place
    ensures stripe { result.stripe ≡ stripe }
    ensures column { result.column ≡ column }
{
    Place {
        group: GROUP,
        column,
        stripe,
    }
}

/// Makes a call to which no archive comes.
pub fn make(group: &mut Group<Shared>, call: Call) -> Outcome {
    match call {
        Call::Put { job, byte } => put(group, job, byte),
        Call::Look {
            job,
            stripe,
            column,
        } => look(group, job, stripe, column),
        Call::Sweep {
            job,
            stripe,
            column,
        } => sweep(group, job, stripe, column),
        Call::Count { job } => count(group, job),
        Call::Next {
            stripe,
            column,
            kind,
        } => next(group, stripe, column, kind),
        Call::Begin {
            job,
            stripe,
            column,
        } => begin(group, job, stripe, column),
        Call::Advance { job, stripe } => advance(group, job, stripe),
        Call::Mend {
            job,
            stripe,
            column,
        } => mend(group, job, stripe, column),
        Call::MoveStep { job, column } => move_step(group, job, column),
        Call::UseOf { archive } => use_of(group, archive),
        Call::Trace { from, to } => trace(group, from, to),
        Call::Expect { byte, parity } => expect(group, byte, parity),
        _ => logged(group),
    }
}

fn put(group: &mut Group<Shared>, job: Job, byte: u8) -> Outcome {
    Outcome::of_put(group.put(job.number(), &block(byte)))
}

fn look(group: &mut Group<Shared>, job: Job, stripe: u32, column: u8) -> Outcome {
    if !group.has_slot(stripe, column) {
        return NO_SLOT;
    }
    let mut into = Block::zero();
    let looked = group.look(job.number(), place(stripe, column), &mut into);
    Outcome::of_look(looked, &into)
}

fn sweep(group: &mut Group<Shared>, job: Job, stripe: u32, column: u8) -> Outcome {
    Outcome::Swept(group.sweep(job.number(), stripe, column))
}

fn count(group: &mut Group<Shared>, job: Job) -> Outcome {
    Outcome::of_count(group.count(job.number()))
}

fn next(group: &Group<Shared>, stripe: u32, column: u8, kind: Kind) -> Outcome {
    Outcome::of_next(group.next(stripe, column, kind))
}

fn begin(group: &mut Group<Shared>, job: Job, stripe: u32, column: u8) -> Outcome {
    if !group.has_slot(stripe, column) {
        return NO_SLOT;
    }
    Outcome::of_begin(group.begin(job.number(), place(stripe, column), &block(BLIND)))
}

fn advance(group: &mut Group<Shared>, job: Job, stripe: u32) -> Outcome {
    if !group.has_slot(stripe, 0) {
        return NO_SLOT;
    }
    Outcome::of_advance(group.advance(job.number(), stripe))
}

fn mend(group: &mut Group<Shared>, job: Job, stripe: u32, column: u8) -> Outcome {
    if !group.has_slot(stripe, column) {
        return NO_SLOT;
    }
    Outcome::of_mend(group.mend(job.number(), place(stripe, column), &block(BLIND)))
}

/// A column begins to move to an archive.
pub fn move_begin(
    group: &mut Group<Shared>,
    job: Job,
    column: u8,
    shelf: Shelf<Shared>,
) -> Outcome {
    if !group.has_slot(0, column) {
        return NO_SLOT;
    }
    match group.move_begin(job.number(), column, shelf) {
        Ok(()) => Outcome::Plain("moving"),
        Err(ShelfRefused { shelf: _, cause }) => Outcome::of_cause(cause),
    }
}

fn move_step(group: &mut Group<Shared>, job: Job, column: u8) -> Outcome {
    if !group.has_slot(0, column) {
        return NO_SLOT;
    }
    Outcome::of_move(group.move_step(job.number(), column))
}

/// An archive replaces the home of a column.
pub fn swap(group: &mut Group<Shared>, job: Job, column: u8, shelf: Shelf<Shared>) -> Outcome {
    if !group.has_slot(0, column) {
        return NO_SLOT;
    }
    match group.swap(job.number(), column, shelf) {
        Ok(live) => Outcome::Swapped(live),
        Err(ShelfRefused { shelf: _, cause }) => Outcome::of_cause(cause),
    }
}

fn use_of(group: &Group<Shared>, archive: u32) -> Outcome {
    Outcome::of_use(group.use_of(archive))
}

fn trace(group: &Group<Shared>, from: u32, to: u32) -> Outcome {
    Outcome::Traced(group.trace(from, to))
}

fn expect(group: &mut Group<Shared>, byte: u8, parity: u8) -> Outcome {
    group.expect(&Sealed::new(&block(byte)), &Sealed::new(&block(parity)));
    Outcome::Plain("noted")
}

fn logged(group: &Group<Shared>) -> Outcome {
    Outcome::Number(group.logged())
}

/// The first stripe whose slot in this column is Lost or Broken.
pub fn first_unsound(group: &Group<Shared>, stripes: u32, column: u8) -> Option<u32> {
    (0..stripes).find(|stripe| {
        group
            .next(*stripe, column, Kind::Unsound)
            .is_some_and(|found| found.stripe == *stripe && found.column == column)
    })
}
