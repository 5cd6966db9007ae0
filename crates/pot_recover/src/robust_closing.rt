ghost use Rattle.std.specs.Prelude.{◌≡◌, ◌↔◌, ◌⊎◌, ◌≤◌, ℕ, List, map, length, IsTrue, OnOk};
ghost use Rattle.pot_chains.specs.Listed.{IsIn};
ghost use Rattle.pot_recover.specs.Groups.{parts_of, shards_in, shards_at, AreInside, IsGroup};
ghost use Rattle.pot_recover.specs.HeldShards.{shard_of};
ghost use Rattle.pot_recover.specs.LongScopes.{IsLongWhole};
ghost use Rattle.pot_recover.specs.Rings.{IsRing};
ghost use Rattle.pot_recover.specs.Robust.{ClosesRobustlyAsRing};
ghost use Rattle.pot_shard.specs.declared.shard.Shard.{Shard};

use crate::closing::chain_at;
use crate::distinct::push_distinct;
use crate::group::Group;
use crate::held::Held;
use crate::robust::robust_content;
use pot_bytes::NoMemory;
use pot_chains::Chain;
use pot_pointer::blur;
use std::alloc::Global;

/// Adds the content with which this chain of n shards closes robustly as a ring, where it does.
pub(crate) fn add_robust(
    alloc: Global,
    group: &Group,
    positions: &Chain,
    found: &mut Vec<[u8; 992]>,
) -> Result<(), NoMemory>
    requires group { IsGroup group.now }
    requires inside { AreInside (parts_of group.now.bits group.now.parts.items) positions.now }
    requires chain { IsLongWhole (shards_in group.now) group.now.need (length group.now.parts.items)
        group.now.bits (shards_at (parts_of group.now.bits group.now.parts.items) positions.now) }
    ensures { OnOk result
        ((c : List ℕ)
        → IsIn found.new.items c
        ↔ (IsIn found.old.items c
        ⊎ ClosesRobustlyAsRing
        (shards_at (parts_of group.now.bits group.now.parts.items) positions.now) c)) }
{
    let chain = chain_at(alloc, group, positions)?;
    add_ring(group.need, group.bits, &chain, found)
}

/// Adds the content with which a chain closes robustly as a ring, where it does.
fn add_ring(need: u8, bits: u8, chain: &[Held], found: &mut Vec<[u8; 992]>) -> Result<(), NoMemory>
    requires chain { (shards : List Shard) × (n : ℕ)
        × IsLongWhole shards need n bits (map (shard_of bits) chain.now) }
    requires bits { bits ≤ 63 }
    ensures { OnOk result
        ((c : List ℕ)
        → IsIn found.new.items c
        ↔ (IsIn found.old.items c ⊎ ClosesRobustlyAsRing (map (shard_of bits) chain.now) c)) }
{
    if !is_ring(need, bits, chain) {
        return Ok(());
    }
    match robust_content(chain, need) {
        Some(content) => push_distinct(found, content),
        None => Ok(()),
    }
}

/// Whether the last of a chain is linked to its first.
fn is_ring(need: u8, bits: u8, chain: &[Held]) -> bool
    requires chain { (shards : List Shard) × (n : ℕ)
        × IsLongWhole shards need n bits (map (shard_of bits) chain.now) }
    requires bits { bits ≤ 63 }
    ensures { IsTrue result ↔ IsRing (map (shard_of bits) chain.now) }
{
    blur(chain[0].name, bits) == chain[chain.len() - 1].pointer
}
