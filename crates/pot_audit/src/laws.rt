//! What an audit promises.
ghost use Rattle.pot_audit.specs.Blinds.{BlindsReturn};
ghost use Rattle.pot_audit.specs.Hiding.{AuditsHide, BytesReturn};

use pot_shard::place_laws;
use pot_veil::veil_laws;
use pot_world::{audit_laws, coalition_laws, coalition_sees, run_laws, shape_laws};

/// Where fewer points of some fragment of each piece are exposed than are needed, in each split,
/// whatever a coalition sees of a run fits every other file of that length, under other random
/// bytes, one for one.
pub fn hiding_laws()
    ensures hides { AuditsHide }
    ensures returns { BytesReturn }
{
    place_laws();
    veil_laws();
    run_laws();
    audit_laws();
    coalition_sees();
}

/// And under other blinds, one for one: what is added to each is fixed before any blind is drawn.
pub fn blind_laws()
    ensures { BlindsReturn }
{
    run_laws();
    shape_laws();
    coalition_laws();
}
