//! What stands before the steps of a session: its image, its script, and the image with which it
//! begins.

ghost use Rattle.std.specs.Prelude.{◌≡◌, [], IsTrue, IfOk, OnOk, IfErr, IsErrOf};
ghost use Rattle.pot_outside.specs.Accounts.{Faults, transition};
ghost use Rattle.pot_session.specs.Runs.{IsPrepared, Stops};

use crate::desk::{begin, keep_image, open_desk};
use crate::ending::stop::Stop;
use crate::session::scripting::read_steps;
use pot_image::Image;
use pot_outside::{Desk, Source};
use pot_script::Step;
use std::alloc::Global;

/// The image with which a session begins, and its steps.
#[derive(Drop)]
pub(crate) struct Prepared {
    pub image: Image,
    pub steps: Vec<Step>,
}

/// Reads the desk's image and the script, and puts the image with which the session begins in the
/// place of the desk's.
///
/// # Errors
/// The first cause why the session does not begin.
pub(crate) fn prepare<S: Source, D: Desk>(
    alloc: Global,
    source: &mut S,
    desk: &mut D,
) -> Result<Prepared, Stop>
    ensures prepared { IfOk result
        (λ p.
        IsPrepared (transition S.account source.old source.new) (transition D.account desk.old desk.new)
        p.image p.steps.items) }
    ensures read { IsTrue S.account.tells
        → OnOk result ((S.account.meaning source.new).held ≡ []) }
    ensures stops { IfErr result
        (Stops (transition S.account source.old source.new) (transition D.account desk.old desk.new)) }
    ensures source { Faults S.account source.old source.new
        (IsErrOf result Stop.SourceFault) }
    ensures desk { Faults D.account desk.old desk.new (IsErrOf result Stop.DeskFault) }
{
    let read = match open_desk(alloc, desk) {
        Ok(read) => read,
        Err(stop) => return Err(stop),
    };
    let steps = match read_steps(alloc, &read.rack, source) {
        Ok(steps) => steps,
        Err(stop) => return Err(stop),
    };
    let image = begin(alloc, read)?;
    match keep_image(alloc, &image, desk) {
        Ok(()) => Ok(Prepared { image, steps }),
        Err(stop) => Err(stop),
    }
}
