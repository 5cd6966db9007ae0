//! What shares are good for, and what they tell.
ghost use Rattle.pot_desk_shares.specs.Veils.{ShareLaws, DeskVeilLaws};

/// What is made is a share, a share has one head and one body, and any shares of a set at as many
/// points as are needed are joined to its text.
pub fn share_laws()
    ensures { ShareLaws }
{}

/// Fewer shares than are needed are those of every other text of that length too, under other
/// random
/// bytes, one for one.
pub fn veil_laws()
    ensures { DeskVeilLaws }
{}
