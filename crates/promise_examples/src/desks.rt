//! Examples of the laws of runs and rechecks.
ghost use Rattle.promise_examples.specs.Desks.{BeginsAfterRecheck, FailedCloses, GoesOnFromNew};
ghost use Rattle.promise_examples.specs.Desks.{GoodIsWritten, InitIsMade, NeverTurnedAway};
ghost use Rattle.promise_examples.specs.Desks.{NoneIsRefused, NoneIsRefusedNext, NothingIsRefused};

use pot_promises::{run_laws, word_laws};

/// A run over what a run and a recheck left is not refused (`stay_good` and `never_refused` of
/// `run_laws`).
pub fn never_turned_away()
    ensures { NeverTurnedAway }
{
    run_laws();
}

/// A run over a new archive leaves an image to which sessions lead, or none (`go_later`).
pub fn goes_on_from_new()
    ensures { GoesOnFromNew }
{
    run_laws();
}

/// The next run begins with what a recheck of a new archive left (`rechecks_begin`).
pub fn begins_after_recheck()
    ensures { BeginsAfterRecheck }
{
    run_laws();
}

/// A run that ended with 0 wrote its replies (`sessions`).
pub fn good_is_written()
    ensures { GoodIsWritten }
{
    run_laws();
}

/// A careful run that failed at its sink kept what it closed (`may_close`, `careful`).
pub fn failed_closes()
    ensures { FailedCloses }
{
    run_laws();
}

/// A run over good words, image and script refuses none of them (`answered`, `next_answered`).
pub fn none_is_refused()
    ensures here { NoneIsRefused }
    ensures next { NoneIsRefusedNext }
{
    run_laws();
}

/// What `init` made, and that words which ask for nothing are refused (`word_laws`).
pub fn init_is_made()
    ensures made { InitIsMade }
    ensures nothing { NothingIsRefused }
{
    word_laws();
}
