//! Examples of laws of runs: sessions of a small rack, a recheck between two of them, and what the
//! laws say of them.
//!
//! A law does nothing and nothing calls it, so a premise too many or a conjunct too few in its
//! statement breaks no other proof. The first functions give a session that is written out, with
//! every premise met, and promise plain facts that they have through the laws. The last ones take a
//! session as the contract of a run tells of it, over steps, tables and replies written out.
#![tactic(auto)]

ghost use Rattle.run_examples.specs.Another.{AnotherStands};
ghost use Rattle.run_examples.specs.InWorld.{PutInWorld};
ghost use Rattle.run_examples.specs.OnePut.{PutSession};
ghost use Rattle.run_examples.specs.Quiet.{QuietSession};
ghost use Rattle.run_examples.specs.Rechecked.{BackAfterRecheck};
ghost use Rattle.run_examples.specs.Remaining.{OlderFinds, StillThere};
ghost use Rattle.run_examples.specs.Throughout.{SeenThroughout};

use pot_promises::{file_laws, frame_laws, run_laws};
use pot_theorem::{runs_reach, the_hard_property};

/// A session in which nothing was done meets what is asked. It does nothing.
pub fn quiet_session()
    ensures { QuietSession }
{
    the_hard_property();
}

/// A session in which one block was put meets what is asked. It does nothing.
pub fn put_session()
    ensures { PutSession }
{
    the_hard_property();
    frame_laws();
}

/// The same session as a world has it: what its archive holds and served, and what who has the
/// parity column sees. It does nothing.
pub fn put_in_world()
    ensures { PutInWorld }
{
    runs_reach();
    the_hard_property();
}

/// An archive that may have left its column is seen as it was after the first of two sessions. It
/// does nothing.
pub fn seen_throughout()
    ensures { SeenThroughout }
{
    the_hard_property();
}

/// The block is still there after a session that logs nothing. It does nothing.
pub fn still_there()
    ensures still { StillThere }
    ensures older { OlderFinds }
{
    frame_laws();
}

/// Another file may stand at the places of one that a session stored. It does nothing.
pub fn another_stands()
    ensures { AnotherStands }
{
    the_hard_property();
}

/// A file that a session stored is given back after a recheck of the desk. It does nothing.
pub fn back_after_recheck()
    ensures { BackAfterRecheck }
{
    run_laws();
    file_laws();
}
