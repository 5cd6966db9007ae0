//! What explained random bytes keep.
ghost use Rattle.pot_veil.specs.FileLaws.{FileVeilLaws};
ghost use Rattle.pot_veil.specs.PieceLaws.{PieceLaws};
ghost use Rattle.pot_veil.specs.Veiled.{VeilLaws};

/// What explains another object keeps all that is seen of a piece, and is taken back with the
/// objects exchanged.
pub fn piece_laws()
    ensures { PieceLaws }
{}

/// The same of a whole file.
pub fn file_laws()
    ensures { FileVeilLaws }
{}

/// Whoever holds the data archives of a coalition that misses enough points of some fragment of
/// each piece sees blocks that any other file of that length gives too, under other random bytes,
/// one for one.
pub fn veil_laws()
    ensures { VeilLaws }
{}
