ghost use Rattle.pot_recover.specs.Altered.{AlteredLaws};
ghost use Rattle.pot_recover.specs.OpenStored.{OpenLaws};
ghost use Rattle.pot_recover.specs.Sets.{PointerLaws, RingLaws};
ghost use Rattle.pot_recover.specs.StoredFragments.{StoredLaws};
ghost use Rattle.pot_recover.specs.StoredRings.{LinkLaws};

/// Chains, and sets past them, find just the closed fragments.
pub fn ring_laws()
    ensures { RingLaws }
{}

/// The sets past a chain may be kept as pointers.
pub fn pointer_laws()
    ensures { PointerLaws }
{}

/// A ring as it is stored is a ring of recovery, and the other way round.
pub fn link_laws()
    ensures { LinkLaws }
{}

/// What a ring gives, open chains give too. The object of a piece as it is stored is given by m
/// shards of each fragment that follow one another.
pub fn open_laws()
    ensures { OpenLaws }
{}

/// A ring of which no more shares were altered than may be wrong closes robustly with what it
/// closed with, and with nothing else.
pub fn altered_laws()
    ensures { AlteredLaws }
{}

/// A fragment as it is stored closes with its content, so that its file's objects come back, and
/// robustly too where few of its shares were altered.
pub fn stored_laws()
    ensures { StoredLaws }
{}
