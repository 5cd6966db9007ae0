//! Laws of chains and of picks.
ghost use Rattle.pot_chains.specs.Paths.{ChainLaws};
ghost use Rattle.pot_chains.specs.Picks.{PickLaws};

/// Following candidates lists the chains, each once, and following sets decides whether a ring
/// closes.
pub fn chain_laws()
    ensures { ChainLaws }
{}

/// The picks of one from each of some lists are listed and counted, and each has a number that
/// tells it.
pub fn pick_laws()
    ensures { PickLaws }
{}
