//! Laws of what some shares fix.
ghost use Rattle.pot_joins.specs.Joins.{JoinLaws};

/// Values lie on one polynomial of degree below m exactly where the first m of them fix the others,
/// and a polynomial turned by a point has its values at the points turned by it.
pub fn join_laws()
    ensures { JoinLaws }
{}
