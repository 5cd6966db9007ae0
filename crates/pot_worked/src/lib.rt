//! What a job does under its passes of one turn, said without the schedule.
//!
//! A pass knew v, and later it knows w. Three words say what happened in between, and none of them
//! names another thread:
//!
//! 1. `WroteOnlyFor`: what is certain whatever others did. The log that the pass has seen went on,
//!    and each entry in a stretch of its own since is its job's.
//! 2. `OnlyWriterOf`: no other pass logged an entry of the job meanwhile. Nobody knows it before
//!    the turn is closed. All that is promised of a job's own entries is promised where the job was
//!    `OnlyWriterOf`; they are then those of its calls, in order.
//! 3. `Extends` and `OnlyWriter`: the same of commands in a row, of which each is one job or a
//!    batch of jobs with passes of their own. At the close the pass that is left was `OnlyWriter`,
//!    so each job of each command was `OnlyWriterOf`.
//!
//! It is laws alone and has no code: `work_laws` for a job and a batch, `sole_laws` for commands in
//! a row. How entries tell their job is a parameter.
#![tactic(auto)]

ghost use Rattle.pot_worked.specs.Laws.{WorkGoesOn, WorkInParts, OnlyWriterOfInParts, OwnInTurn};
ghost use Rattle.pot_worked.specs.Laws.{OwnInParts, MoreIsWork, MoreHasNone, OnlyWriterOfAtClose};
ghost use Rattle.pot_worked.specs.Batches.{OnlyWriterOfInBatch, OwnedInBatch};
ghost use Rattle.pot_worked.specs.OnlyWriter.{WorkExtends, ExtendsInParts, GainInParts, OnlyWriterInParts, OnlyWriterOfAny};
ghost use Rattle.pot_worked.specs.OnlyWriter.{OnlyWriterOwns, BatchExtends, OnlyWriterAtClose};

/// The laws of a job's work: of one locked call, of part after part, of a pass that only sees more,
/// at a close, and of the jobs of a batch.
pub fn work_laws<E, O>()
    ensures goes_on { WorkGoesOn E O }
    ensures whole { WorkInParts E O }
    ensures parts { OnlyWriterOfInParts E O }
    ensures turn { OwnInTurn E O }
    ensures own { OwnInParts E O }
    ensures more { MoreIsWork E O }
    ensures none { MoreHasNone E O }
    ensures close { OnlyWriterOfAtClose E O }
    ensures batch { OnlyWriterOfInBatch E O }
    ensures owns { OwnedInBatch E O }
{}

/// The laws of commands in a row, each one job or a batch, from the first to the close.
pub fn sole_laws<E, O>()
    ensures work { WorkExtends E O }
    ensures whole { ExtendsInParts E O }
    ensures gain { GainInParts E O }
    ensures parts { OnlyWriterInParts E O }
    ensures alone { OnlyWriterOfAny E O }
    ensures owns { OnlyWriterOwns E O }
    ensures batch { BatchExtends E O }
    ensures close { OnlyWriterAtClose E O }
{}
