//! Examples of the laws of groups.
ghost use Rattle.law_examples.specs.Kept.{StripeKeepsParity};

use pot_world::{group_laws, reach_laws};

/// A stripe keeps its parity through puts, a loss, a look and a mend (`put`, `lose`, `look`, `mend`
/// and `holds` of `group_laws`).
pub fn stripe_kept()
    ensures { StripeKeepsParity }
{
    reach_laws();
    group_laws();
}
