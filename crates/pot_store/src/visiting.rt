//! The visits of a fetch to a place.
ghost use Rattle.std.specs.Prelude.{◌≡◌, ◌<◌};
ghost use Rattle.pot_shared.specs.Callers.{AreReadyFor, HasSlotFor};
ghost use Rattle.pot_store.specs.Visits.{came_to, LooksAgain, LooksOnce, MendsOn};
ghost use Rattle.pot_shared.specs.Blinds.{Blinds};

use pot_bytes::{Block, Place};
use pot_group::{Looked, Mend};
use pot_outside::Archive;
use pot_pads::PadStream;
use pot_shared::{Caller, Passes};
use std::sync::Wait;

/// What is known of a point of a fragment.
#[derive(Clone, Copy, PartialEq, Eq, Debug)]
pub enum Point {
    /// It was not looked at.
    Unknown,
    /// Its block was seen.
    Seen,
    /// The look gave nothing, and its place was not mended yet.
    Gone,
    /// It can't be had: its place was mended in vain, or lost again.
    Lost,
    /// The archive of this column failed.
    Failed { column: u8 },
}

/// Looks at a place. None where the log of its group has no room.
pub fn look_at<A: Archive, R: Wait>(
    caller: &Caller<'_, A, R>,
    passes: &mut Passes<A>,
    place: Place,
    block: &mut Block,
) -> Option<Point>
    requires ready { AreReadyFor caller.now passes.old.groups }
    requires place { HasSlotFor caller.now place }
    requires job { 0 < caller.now.job }
    ensures ready { AreReadyFor caller.now passes.new.groups }
    ensures index { passes.new.index ≡ passes.old.index }
    ensures looks { LooksOnce caller.now.job place (came_to result block.new)
        passes.old.groups passes.new.groups }
{
    let Caller { rt, vault, job, .. } = *caller;
    match vault.look(rt, passes, job, place, block) {
        Looked::Seen => Some(Point::Seen),
        Looked::Gone => Some(Point::Gone),
        Looked::Faulted { column } => Some(Point::Failed { column }),
        Looked::LogFull => None,
    }
}

/// Looks at a place once more, behind a mend of it. It is `Lost` where that gives nothing. None
/// where the log of its group has no room.
fn look_again<A: Archive, R: Wait>(
    caller: &Caller<'_, A, R>,
    passes: &mut Passes<A>,
    place: Place,
    block: &mut Block,
) -> Option<Point>
    requires ready { AreReadyFor caller.now passes.old.groups }
    requires place { HasSlotFor caller.now place }
    requires job { 0 < caller.now.job }
    ensures ready { AreReadyFor caller.now passes.new.groups }
    ensures index { passes.new.index ≡ passes.old.index }
    ensures looks { LooksAgain caller.now.job place (came_to result block.new)
        passes.old.groups passes.new.groups }
{
    match look_at(caller, passes, place, block) {
        Some(Point::Gone) => Some(Point::Lost),
        other => other,
    }
}

/// Mends a place at which a look gave nothing, and looks at it once more where its slot is whole
/// then. It is `Lost` where it can't be mended, or where that look gives nothing. None where the
/// log of its group has no room.
pub fn mend<A: Archive, R: Wait>(
    caller: &Caller<'_, A, R>,
    passes: &mut Passes<A>,
    place: Place,
    pads: &mut PadStream,
    block: &mut Block,
) -> Option<Point>
    requires ready { AreReadyFor caller.now passes.old.groups }
    requires place { HasSlotFor caller.now place }
    requires job { 0 < caller.now.job }
    ensures ready { AreReadyFor caller.now passes.new.groups }
    ensures index { passes.new.index ≡ passes.old.index }
    ensures mends { MendsOn caller.now.job place (came_to result block.new)
        passes.old.groups passes.new.groups }
    ensures blinds { Blinds caller.now.job 1 pads.old pads.new
        passes.old.groups passes.new.groups }
{
    let Caller { rt, vault, job, .. } = *caller;
    match vault.mend_place(rt, passes, job, place, pads).end {
        Mend::Whole => look_again(caller, passes, place, block),
        Mend::TwoGone {
            first: _,
            second: _,
        } => Some(Point::Lost),
        Mend::Odd {
            wanted: _,
            found: _,
        } => Some(Point::Lost),
        Mend::Faulted { column } => Some(Point::Failed { column }),
        Mend::LogFull => None,
        Mend::Began => unreachable!(),
        Mend::Extends => unreachable!(),
        Mend::Mended => unreachable!(),
        Mend::Passed => unreachable!(),
    }
}
