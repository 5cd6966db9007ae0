ghost use Rattle.std.specs.Prelude.{◌≡◌, ◌≢◌, ◌↔◌, ◌⊎◌, ◌<◌, ◌≤◌, ◌^◌, ⊤, ℕ, List, [], map};
ghost use Rattle.std.specs.Prelude.{length, IfOk, IfErr, OnOk};
ghost use Rattle.pot_chains.specs.Listed.{IsIn, IsOnce, AreAbove};
ghost use Rattle.pot_chains.specs.declared.search.SearchFault.TheVariants.{Wide};
ghost use Rattle.pot_shard.specs.declared.shard.Shard.{Shard};
ghost use Rattle.pot_recover.specs.Groups.{parts_of, shards_at, AreInside, IsHoldable};
ghost use Rattle.pot_recover.specs.HeldShards.{shard_of, PlacesRise};
ghost use Rattle.pot_recover.specs.OpenScopes.{AreJoinable, BeginsAt, HasSearchedOpen};
ghost use Rattle.pot_recover.specs.OpenScopes.{IsGivenAmong, IsJoinable, IsOpenChainIn};
ghost use Rattle.pot_recover.specs.OpenScopes.{IsOpenStart};
ghost use Rattle.pot_recover.specs.Rings.{ClosesRing};

use crate::closing::chain_at;
use crate::distinct::push_distinct;
use crate::group::Group;
use crate::held::Held;
use crate::joining::content_of;
use crate::rings::WIDEST;
use crate::window::{Start, window_of};
use pot_bytes::NoMemory;
use pot_chains::{Chain, SearchFault, paths};
use std::alloc::Global;

/// The contents that open chains of these shards give, some of them more than once. `count` becomes
/// the number of the chains.
pub(crate) fn open_contents(
    alloc: Global,
    held: &[Held],
    bits: u8,
    count: &mut usize,
) -> Result<Vec<[u8; 992]>, SearchFault>
    requires bits { bits ≤ 63 }
    requires order { PlacesRise held.now }
    requires short { length held.now < 2 ^ 32 }
    requires once { IsOnce (map (shard_of bits) held.now) }
    requires shards { (s : Shard) → IsIn (map (shard_of bits) held.now) s → IsHoldable s }
    requires counted { count.old ≤ 4000000 }
    ensures searched { IfOk result (λ found. HasSearchedOpen (map (shard_of bits) held.now)
        (λ s. ⊤) count.old count.new [] found.items) }
    ensures within { count.new ≤ 4000000 }
    ensures wide { IfErr result (λ e. e ≡ Wide
        → AreAbove (IsOpenChainIn (map (shard_of bits) held.now) (λ s. ⊤)) 4000000 count.old) }
{
    let mut found = Vec::new(alloc);
    for need in 1..17 {
        match add_needing(alloc, held, need, bits, count, &mut found) {
            Ok(()) => {}
            Err(fault) => return Err(fault),
        }
    }
    Ok(found)
}

/// Adds the contents of the chains of shards of m, and counts the chains.
fn add_needing(
    alloc: Global,
    held: &[Held],
    need: u8,
    bits: u8,
    count: &mut usize,
    found: &mut Vec<[u8; 992]>,
) -> Result<(), SearchFault>
    requires some { 1 ≤ need }
    requires need { need ≤ 16 }
    requires bits { bits ≤ 63 }
    requires order { PlacesRise held.now }
    requires short { length held.now < 2 ^ 32 }
    requires once { IsOnce (map (shard_of bits) held.now) }
    requires shards { (s : Shard) → IsIn (map (shard_of bits) held.now) s → IsHoldable s }
    requires counted { count.old ≤ 4000000 }
    ensures searched { OnOk result (HasSearchedOpen (map (shard_of bits) held.now)
        (λ (s : Shard). s.m ≡ need) count.old count.new found.old.items found.new.items) }
    ensures within { count.new ≤ 4000000 }
    ensures wide { IfErr result (λ e. e ≡ Wide
        → AreAbove (IsOpenChainIn (map (shard_of bits) held.now) (λ (s : Shard). s.m ≡ need))
        4000000 count.old) }
{
    for shards in need..17 {
        match add_points(alloc, held, need, shards, bits, count, found) {
            Ok(()) => {}
            Err(fault) => return Err(fault),
        }
    }
    Ok(())
}

/// Adds the contents of the chains of shards of m and n, from each point on, and counts the chains.
fn add_points(
    alloc: Global,
    held: &[Held],
    need: u8,
    shards: u8,
    bits: u8,
    count: &mut usize,
    found: &mut Vec<[u8; 992]>,
) -> Result<(), SearchFault>
    requires some { 1 ≤ need }
    requires need { need ≤ shards }
    requires few { shards ≤ 16 }
    requires bits { bits ≤ 63 }
    requires order { PlacesRise held.now }
    requires short { length held.now < 2 ^ 32 }
    requires once { IsOnce (map (shard_of bits) held.now) }
    requires shards { (s : Shard) → IsIn (map (shard_of bits) held.now) s → IsHoldable s }
    requires counted { count.old ≤ 4000000 }
    ensures searched { OnOk result (HasSearchedOpen (map (shard_of bits) held.now)
        (λ (s : Shard). (s.m ≡ need) × (s.n ≡ shards)) count.old count.new
        found.old.items found.new.items) }
    ensures within { count.new ≤ 4000000 }
    ensures wide { IfErr result (λ e. e ≡ Wide
        → AreAbove (IsOpenChainIn (map (shard_of bits) held.now)
        (λ (s : Shard). (s.m ≡ need) × (s.n ≡ shards))) 4000000 count.old) }
{
    for first in 1..shards + 1 {
        let start = Start {
            need,
            shards,
            first,
        };
        match add_from(alloc, held, start, bits, count, found) {
            Ok(()) => {}
            Err(fault) => return Err(fault),
        }
    }
    Ok(())
}

/// Adds the contents of the chains that begin there, and counts the chains.
fn add_from(
    alloc: Global,
    held: &[Held],
    start: Start,
    bits: u8,
    count: &mut usize,
    found: &mut Vec<[u8; 992]>,
) -> Result<(), SearchFault>
    requires start { IsOpenStart start }
    requires bits { bits ≤ 63 }
    requires order { PlacesRise held.now }
    requires short { length held.now < 2 ^ 32 }
    requires once { IsOnce (map (shard_of bits) held.now) }
    requires shards { (s : Shard) → IsIn (map (shard_of bits) held.now) s → IsHoldable s }
    requires counted { count.old ≤ 4000000 }
    ensures searched { OnOk result (HasSearchedOpen (map (shard_of bits) held.now)
        (BeginsAt start.need start.shards start.first) count.old count.new
        found.old.items found.new.items) }
    ensures within { count.new ≤ 4000000 }
    ensures wide { IfErr result (λ e. e ≡ Wide
        → AreAbove (IsOpenChainIn (map (shard_of bits) held.now)
        (BeginsAt start.need start.shards start.first)) 4000000 count.old) }
{
    let Ok(window) = window_of(alloc, held, start, bits) else {
        return Err(SearchFault::NoMemory);
    };
    match paths(alloc, &window.levels, bits, count, WIDEST) {
        Ok(chains) => give_all(alloc, &window, &chains, found),
        Err(fault) => Err(fault),
    }
}

/// Adds the contents that these chains give, and answers want of memory as the search does.
fn give_all(
    alloc: Global,
    window: &Group,
    chains: &[Chain],
    found: &mut Vec<[u8; 992]>,
) -> Result<(), SearchFault>
    requires chains { AreJoinable (parts_of window.now.bits window.now.parts.items) chains.now }
    ensures found { OnOk result ((c : List ℕ)
        → IsIn found.new.items c
        ↔ (IsIn found.old.items c
        ⊎ IsGivenAmong (parts_of window.now.bits window.now.parts.items) chains.now c)) }
    ensures err { IfErr result (λ e. e ≢ Wide) }
{
    match add_given(alloc, window, chains, found) {
        Ok(()) => Ok(()),
        Err(_) => Err(SearchFault::NoMemory),
    }
}

/// Adds the contents that these chains give.
fn add_given(
    alloc: Global,
    window: &Group,
    chains: &[Chain],
    found: &mut Vec<[u8; 992]>,
) -> Result<(), NoMemory>
    requires chains { AreJoinable (parts_of window.now.bits window.now.parts.items) chains.now }
    ensures { OnOk result
        ((c : List ℕ)
        → IsIn found.new.items c
        ↔ (IsIn found.old.items c
        ⊎ IsGivenAmong (parts_of window.now.bits window.now.parts.items) chains.now c)) }
{
    for chain in chains {
        add_open(alloc, window, chain, found)?;
    }
    Ok(())
}

/// Adds the content that a chain of m shards gives, where it gives one.
fn add_open(
    alloc: Global,
    window: &Group,
    positions: &Chain,
    found: &mut Vec<[u8; 992]>,
) -> Result<(), NoMemory>
    requires inside { AreInside (parts_of window.now.bits window.now.parts.items) positions.now }
    requires chain { IsJoinable
        (shards_at (parts_of window.now.bits window.now.parts.items) positions.now) }
    ensures { OnOk result
        ((c : List ℕ)
        → IsIn found.new.items c
        ↔ (IsIn found.old.items c
        ⊎ ClosesRing (shards_at (parts_of window.now.bits window.now.parts.items) positions.now) c)) }
{
    let chain = chain_at(alloc, window, positions)?;
    add_joined(alloc, window.bits, &chain, found)
}

/// Adds the content that the shares of a chain mean, where they mean one.
fn add_joined(
    alloc: Global,
    bits: u8,
    chain: &[Held],
    found: &mut Vec<[u8; 992]>,
) -> Result<(), NoMemory>
    requires chain { IsJoinable (map (shard_of bits) chain.now) }
    ensures { OnOk result
        ((c : List ℕ)
        → IsIn found.new.items c
        ↔ (IsIn found.old.items c ⊎ ClosesRing (map (shard_of bits) chain.now) c)) }
{
    match content_of(alloc, chain)? {
        Some(content) => push_distinct(found, content),
        None => Ok(()),
    }
}
