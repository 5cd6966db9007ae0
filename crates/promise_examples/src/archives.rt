//! Examples of the laws of faults, losses, openings and blinds.
ghost use Rattle.promise_examples.specs.Archives.{BlindsAreTwo, FaultIsCounted, LostSawFew};
ghost use Rattle.promise_examples.specs.Archives.{OpeningSaysGone, StreamsAreTwo};

use pot_promises::{fault_laws, lost_laws, opening_laws, stretch_laws};

/// Behind a reply `fault` the archive counted a fault (`fault_laws`).
pub fn fault_is_counted()
    ensures { FaultIsCounted }
{
    fault_laws();
}

/// Behind a reply `lost` too few points were seen (`lost_laws`).
pub fn lost_saw_few()
    ensures { LostSawFew }
{
    lost_laws();
}

/// An opening calls the slot of a missing block Gone (`opening_laws`).
pub fn opening_says_gone()
    ensures { OpeningSaysGone }
{
    opening_laws();
}

/// Two relays have two stretches (`run` of `stretch_laws`).
pub fn blinds_are_two()
    ensures { BlindsAreTwo }
{
    stretch_laws();
}

/// Jobs of two sessions have two streams (`streams` of `stretch_laws`).
pub fn streams_are_two()
    ensures { StreamsAreTwo }
{
    stretch_laws();
}
