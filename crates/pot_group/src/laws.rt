//! What is proved of the frame of a group as a whole.
ghost use Rattle.pot_group.specs.Remaining.{BlocksRemain, ServedIsKept, ServingHasServed};

/// What becomes of a block in a data slot, whatever its column does later. It does nothing.
pub fn frame_laws()
    ensures serving { ServingHasServed }
    ensures served { ServedIsKept }
    ensures blocks { BlocksRemain }
{}
