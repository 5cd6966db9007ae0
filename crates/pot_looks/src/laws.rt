//! What escaped text is good for.
ghost use Rattle.pot_looks.specs.Escapes.{EscapeLaws};

/// What is escaped has no `<`, `>` or `"`, and no two texts are escaped to one.
pub fn escape_laws()
    ensures { EscapeLaws }
{}
