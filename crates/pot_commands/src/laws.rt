//! Laws of a batch.
ghost use Rattle.pot_commands.specs.Batches.{JobsWiden, AnswersWiden, BatchGives, BatchLeaves};

/// A job of a batch was alone and is judged on the section of the batch: its answer stands, though
/// others log more; and the replies of all jobs are those of the batch as a step.
pub fn batch_laws()
    ensures widen { JobsWiden }
    ensures stand { AnswersWiden }
    ensures gives { BatchGives }
    ensures leaves { BatchLeaves }
{}
