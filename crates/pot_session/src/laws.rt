//! What follows from what a session leaves.

ghost use Rattle.std.specs.Prelude.{IsTrue};
ghost use Rattle.pot_session.specs.Stripes.{StripesFit};

use pot_outside::Archive;

/// The table that a close wrote of a group fits what the room means then, group by group.
pub fn stripe_laws<A: Archive>()
    ensures { StripesFit (IsTrue A.account.tells) }
{}
