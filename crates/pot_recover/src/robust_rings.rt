ghost use Rattle.std.specs.Prelude.{◌≡◌, ◌≢◌, ◌↔◌, ◌⊎◌, ◌<◌, ◌≤◌, ◌-◌, ◌^◌, ⊤, ℕ, List, [], map};
ghost use Rattle.std.specs.Prelude.{length, IfOk, IfErr, OnOk};
ghost use Rattle.pot_chains.specs.Levels.{IsPath};
ghost use Rattle.pot_chains.specs.Listed.{IsIn, IsOnce, IsListed, AreAbove, HasGrown};
ghost use Rattle.pot_chains.specs.declared.search.SearchFault.TheVariants.{Wide};
ghost use Rattle.pot_shard.specs.declared.shard.Shard.{Shard};
ghost use Rattle.pot_recover.specs.Groups.{shards_in, IsGroup, IsHoldable};
ghost use Rattle.pot_recover.specs.HeldShards.{shard_of, PlacesRise};
ghost use Rattle.pot_recover.specs.LongScopes.{IsLongChainOf, IsLongChainIn, IsRobustlyFoundOf};
ghost use Rattle.pot_recover.specs.LongScopes.{HasSearchedLong};

use crate::group::{Group, group_of};
use crate::held::Held;
use crate::rings::WIDEST;
use crate::robust_closing::add_robust;
use pot_bytes::NoMemory;
use pot_chains::{Chain, SearchFault, paths};
use std::alloc::Global;

/// The contents with which the rings of these shards close robustly, some of them more than once.
/// `count` becomes the number of their chains of 1 to n.
pub(crate) fn robust_contents(
    alloc: Global,
    held: &[Held],
    bits: u8,
    count: &mut usize,
) -> Result<Vec<[u8; 992]>, SearchFault>
    requires bits { bits ≤ 63 }
    requires order { PlacesRise held.now }
    requires short { length held.now < 2 ^ 32 }
    requires once { IsOnce (map (shard_of bits) held.now) }
    requires shards { (s : Shard) → IsIn (map (shard_of bits) held.now) s → IsHoldable s }
    requires counted { count.old ≤ 4000000 }
    ensures searched { IfOk result (λ found. HasSearchedLong (map (shard_of bits) held.now)
        (λ m n. ⊤) count.old count.new [] found.items) }
    ensures within { count.new ≤ 4000000 }
    ensures wide { IfErr result (λ e. e ≡ Wide
        → AreAbove (IsLongChainIn (map (shard_of bits) held.now) (λ m n. ⊤)) 4000000 count.old) }
{
    let mut found = Vec::new(alloc);
    for need in 1..17 {
        match add_needing(alloc, held, need, bits, count, &mut found) {
            Ok(()) => {}
            Err(fault) => return Err(fault),
        }
    }
    Ok(found)
}

/// Adds the contents of the rings of m, and counts their chains.
fn add_needing(
    alloc: Global,
    held: &[Held],
    need: u8,
    bits: u8,
    count: &mut usize,
    found: &mut Vec<[u8; 992]>,
) -> Result<(), SearchFault>
    requires some { 1 ≤ need }
    requires need { need ≤ 16 }
    requires bits { bits ≤ 63 }
    requires order { PlacesRise held.now }
    requires short { length held.now < 2 ^ 32 }
    requires once { IsOnce (map (shard_of bits) held.now) }
    requires shards { (s : Shard) → IsIn (map (shard_of bits) held.now) s → IsHoldable s }
    requires counted { count.old ≤ 4000000 }
    ensures searched { OnOk result (HasSearchedLong (map (shard_of bits) held.now) (λ m n. m ≡ need)
        count.old count.new found.old.items found.new.items) }
    ensures within { count.new ≤ 4000000 }
    ensures wide { IfErr result (λ e. e ≡ Wide
        → AreAbove (IsLongChainIn (map (shard_of bits) held.now) (λ m n. m ≡ need)) 4000000
        count.old) }
{
    for shards in need..17 {
        match add_group(alloc, held, need, shards, bits, count, found) {
            Ok(()) => {}
            Err(fault) => return Err(fault),
        }
    }
    Ok(())
}

/// Adds the contents of the rings of m and n, and counts their chains.
fn add_group(
    alloc: Global,
    held: &[Held],
    need: u8,
    shards: u8,
    bits: u8,
    count: &mut usize,
    found: &mut Vec<[u8; 992]>,
) -> Result<(), SearchFault>
    requires some { 1 ≤ need }
    requires need { need ≤ shards }
    requires few { shards ≤ 16 }
    requires bits { bits ≤ 63 }
    requires order { PlacesRise held.now }
    requires short { length held.now < 2 ^ 32 }
    requires once { IsOnce (map (shard_of bits) held.now) }
    requires shards { (s : Shard) → IsIn (map (shard_of bits) held.now) s → IsHoldable s }
    requires counted { count.old ≤ 4000000 }
    ensures searched { OnOk result (HasSearchedLong (map (shard_of bits) held.now)
        (λ m n. (m ≡ need) × (n ≡ shards)) count.old count.new found.old.items found.new.items) }
    ensures within { count.new ≤ 4000000 }
    ensures wide { IfErr result (λ e. e ≡ Wide
        → AreAbove (IsLongChainIn (map (shard_of bits) held.now) (λ m n. (m ≡ need) × (n ≡ shards)))
        4000000 count.old) }
{
    match group_of(alloc, held, need, shards, bits) {
        Ok(group) => search(alloc, &group, count, found),
        Err(_) => Err(SearchFault::NoMemory),
    }
}

/// Adds the contents of the rings of a group, and counts its chains.
fn search(
    alloc: Global,
    group: &Group,
    count: &mut usize,
    found: &mut Vec<[u8; 992]>,
) -> Result<(), SearchFault>
    requires group { IsGroup group.now }
    requires counted { count.old ≤ 4000000 }
    ensures counts { OnOk result (HasGrown (IsLongChainOf (shards_in group.now) group.now.need
        (length group.now.parts.items)) count.old count.new) }
    ensures found { OnOk result ((c : List ℕ)
        → IsIn found.new.items c
        ↔ (IsIn found.old.items c
        ⊎ IsRobustlyFoundOf (shards_in group.now) group.now.need (length group.now.parts.items)
        c)) }
    ensures within { count.new ≤ 4000000 }
    ensures wide { IfErr result (λ e. e ≡ Wide
        → AreAbove (IsLongChainOf (shards_in group.now) group.now.need
        (length group.now.parts.items)) 4000000 count.old) }
{
    match paths(alloc, &group.levels, group.bits, count, WIDEST) {
        Ok(chains) => close(alloc, group, &chains, found),
        Err(fault) => Err(fault),
    }
}

/// Adds the contents of the rings that close, and answers want of memory as the search does.
fn close(
    alloc: Global,
    group: &Group,
    chains: &[Chain],
    found: &mut Vec<[u8; 992]>,
) -> Result<(), SearchFault>
    requires group { IsGroup group.now }
    requires chains { IsListed (IsPath group.now.bits group.now.levels.items
        (length group.now.parts.items - 1)) chains.now }
    ensures found { OnOk result ((c : List ℕ)
        → IsIn found.new.items c
        ↔ (IsIn found.old.items c
        ⊎ IsRobustlyFoundOf (shards_in group.now) group.now.need (length group.now.parts.items)
        c)) }
    ensures err { IfErr result (λ e. e ≢ Wide) }
{
    match add_rings(alloc, group, chains, found) {
        Ok(()) => Ok(()),
        Err(_) => Err(SearchFault::NoMemory),
    }
}

/// Adds the contents of those of these chains that close robustly as rings.
fn add_rings(
    alloc: Global,
    group: &Group,
    chains: &[Chain],
    found: &mut Vec<[u8; 992]>,
) -> Result<(), NoMemory>
    requires group { IsGroup group.now }
    requires chains { IsListed (IsPath group.now.bits group.now.levels.items
        (length group.now.parts.items - 1)) chains.now }
    ensures { OnOk result
        ((c : List ℕ)
        → IsIn found.new.items c
        ↔ (IsIn found.old.items c
        ⊎ IsRobustlyFoundOf (shards_in group.now) group.now.need (length group.now.parts.items)
        c)) }
{
    for chain in chains {
        add_robust(alloc, group, chain, found)?;
    }
    Ok(())
}
