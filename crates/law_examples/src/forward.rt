//! Examples of what becomes of a file while it is stored, and of its veil.
ghost use Rattle.law_examples.specs.Forward.{PlaceIsPublished, SplitStays, StoreIsReplayed};
ghost use Rattle.law_examples.specs.Forward.{VeilHides};

use pot_shard::place_laws;
use pot_veil::veil_laws;
use pot_world::{forward_laws, run_laws};

/// The place of a block that was put is that of the record published later (`places` of
/// `forward_laws`).
pub fn place_published()
    ensures { PlaceIsPublished }
{
    place_laws();
    forward_laws();
}

/// A published split stays (`stay` of `forward_laws`).
pub fn split_stays()
    ensures { SplitStays }
{
    place_laws();
    forward_laws();
}

/// The logs lead to the tables and to the names (`settles` and `replays` of `run_laws`).
pub fn store_replayed()
    ensures { StoreIsReplayed }
{
    place_laws();
    run_laws();
}

/// Another file has the block that is seen (`veil_laws` of `pot_veil`).
pub fn veil_hides()
    ensures { VeilHides }
{
    veil_laws();
}
