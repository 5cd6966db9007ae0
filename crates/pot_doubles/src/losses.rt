ghost use Rattle.std.specs.Prelude.{◌≡◌, ℕ};
ghost use Rattle.std.specs.Ordering.{nat_cmp};
ghost use Rattle.std.specs.BTreeMap.{get};
ghost use Rattle.pot_outside.specs.Archives.{OnlyLoses};
ghost use Rattle.pot_doubles.specs.Losses.{without, losses_at, raised_by};

use pot_bytes::Block;
use std::collections::BTreeMap;

/// The block of a slot goes missing at the start of the call of this number.
#[derive(Clone, Copy, PartialEq, Eq, Debug)]
pub struct Loss {
    pub call: u32,
    pub slot: u32,
}

/// Loses the blocks of the losses that are listed for this call, and counts each loss.
pub fn lose_listed(blocks: &mut BTreeMap<u32, Block>, losses: &[Loss], call: u64, lost: &mut u64)
    ensures blocks { (k : ℕ)
        → get nat_cmp blocks.new k ≡ without losses.now call (get nat_cmp blocks.old) k }
    ensures loses { OnlyLoses (get nat_cmp blocks.old) (get nat_cmp blocks.new) lost.old lost.new }
    ensures count { lost.new ≡ raised_by (losses_at losses.now call) lost.old }
{
    let _before = *lost;
    for loss in losses {
        if u64::from(loss.call) == call {
            let _ = blocks.remove(&loss.slot);
            *lost = lost.saturating_add(1);
        }
    }
}
