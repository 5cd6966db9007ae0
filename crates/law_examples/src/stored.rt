//! Examples of the laws of runs.
ghost use Rattle.law_examples.specs.Stored.{FetchGivesFile, GatheredIsBlock, LossIsMended};
ghost use Rattle.law_examples.specs.Stored.{StoreIsWritten};

use pot_shard::place_laws;
use pot_world::run_laws;

/// A stored file is written to its places, also where a block is lost (`writes` of `run_laws`).
pub fn store_written()
    ensures { StoreIsWritten }
{
    place_laws();
    run_laws();
}

/// The lost block comes back (`mends` of `run_laws`).
pub fn loss_mended()
    ensures { LossIsMended }
{
    place_laws();
    run_laws();
}

/// A fetch of it gives the file (`fetches` and `joins` of `run_laws`).
pub fn fetch_gives()
    ensures { FetchGivesFile }
{
    place_laws();
    run_laws();
}

/// What the fetch gathered is what the store put there (`gathers`, `one` and `writes` of
/// `run_laws`).
pub fn gathered_written()
    ensures { GatheredIsBlock }
{
    place_laws();
    run_laws();
}
