//! Examples of the laws of groups, over any group that keeps its rules.
ghost use Rattle.law_examples.specs.Steps.{BlindsAreHidden, MendsBack, MoveGoesWell};
ghost use Rattle.law_examples.specs.Steps.{OtherPutSeenAlike, PutKeepsBlock, RelayEndsWell};

use pot_world::{bound_laws, coalition_laws, group_laws, move_laws, place_laws, stock_laws};

/// The place that a put came to keeps its block (`place_laws`).
pub fn block_kept()
    ensures { PutKeepsBlock }
{
    place_laws();
}

/// A move and a swap keep the stripes (`move_laws`, `moves` of `stock_laws`, `holds` of
/// `group_laws`).
pub fn move_goes_well()
    ensures { MoveGoesWell }
{
    move_laws();
    stock_laws();
    group_laws();
}

/// A relay brings the block that was written (`flies` and `odd` of `group_laws`).
pub fn relay_ends_well()
    ensures { RelayEndsWell }
{
    group_laws();
}

/// A place that can be rebuilt is sound after so many mends (`bound_laws`).
pub fn mends_back()
    ensures { MendsBack }
{
    bound_laws();
}

/// Another block at another column changes nothing that a column sees (`served`, `holds` and
/// `hears` of `coalition_laws`).
pub fn seen_alike()
    ensures { OtherPutSeenAlike }
{
    coalition_laws();
}

/// A blind changes no table, and exchanged twice it is what it was (`exchange`, `hidden` and
/// `fixed` of `coalition_laws`).
pub fn blinds_hidden()
    ensures { BlindsAreHidden }
{
    coalition_laws();
}
