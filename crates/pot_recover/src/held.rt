ghost use Rattle.std.specs.Prelude.{◌≡◌, ◌↔◌, ◌⊎◌, ◌≤◌, ◌+◌, ℕ, map, length, IfOk, OnOk};
ghost use Rattle.pot_chains.specs.Listed.{IsIn, IsOnce};
ghost use Rattle.pot_shard.specs.Shards.{IsShardBlock};
ghost use Rattle.pot_shard.specs.declared.shard.Shard.{Shard};
ghost use Rattle.pot_bytes.specs.Lists.{AreBytes};
ghost use Rattle.pot_recover.specs.Held.{IsHeld};
ghost use Rattle.pot_recover.specs.HeldShards.{shard_of, place_of, HaveBytes, PlacesRise};

use pot_bytes::{Block, NoMemory};
use pot_shard::{Shard, decode_shard};
use std::alloc::Global;

/// A shard that takes part. Its share lies in its block.
#[derive(Clone, Copy, PartialEq, Eq, PartialOrd, Ord, Debug, Drop)]
pub(crate) struct Held<'a> {
    pub m: u8,
    pub n: u8,
    pub x: u8,
    pub name: u64,
    pub pointer: u64,
    pub share: &'a [u8],
}

impl Held<'_> {
    /// By m, n and x: where it stands in the order of shards.
    pub fn place(&self) -> [u8; 3]
        ensures { result ≡ place_of self.now }
    {
        [self.m, self.n, self.x]
    }
}

/// The shards of these blocks that have this blur, in order and each once.
pub(crate) fn held_in<'a>(
    alloc: Global,
    blocks: &'a [Block],
    bits: u8,
) -> Result<Vec<Held<'a>>, NoMemory>
    ensures each { IfOk result (λ held. (s : Shard)
        → IsIn (map (shard_of bits) held.items) s ↔ IsHeld blocks.now bits s) }
    ensures bytes { IfOk result (λ held. HaveBytes held.items) }
    ensures once { IfOk result (λ held. IsOnce (map (shard_of bits) held.items)) }
    ensures order { IfOk result (λ held. PlacesRise held.items) }
    ensures few { IfOk result (λ held. length held.items ≤ length blocks.now) }
{
    let mut held = gathered(alloc, blocks, bits)?;
    sort_held(&mut held);
    Ok(held)
}

/// Puts shards in order, each once.
fn sort_held(held: &mut Vec<Held>)
    ensures same { (bits : ℕ) (s : Shard)
        → IsIn (map (shard_of bits) held.new.items) s
        ↔ IsIn (map (shard_of bits) held.old.items) s }
    ensures bytes { HaveBytes held.old.items → HaveBytes held.new.items }
    ensures once { (bits : ℕ) → IsOnce (map (shard_of bits) held.new.items) }
    ensures order { PlacesRise held.new.items }
    ensures few { length held.new.items ≤ length held.old.items }
{
    held.sort_unstable();
    held.dedup();
}

/// The shards of these blocks, in the order of the blocks.
fn gathered<'a>(alloc: Global, blocks: &'a [Block], bits: u8) -> Result<Vec<Held<'a>>, NoMemory>
    ensures each { IfOk result (λ held. (s : Shard)
        → IsIn (map (shard_of bits) held.items) s ↔ IsHeld blocks.now bits s) }
    ensures bytes { IfOk result (λ held. HaveBytes held.items) }
    ensures few { IfOk result (λ held. length held.items ≤ length blocks.now) }
{
    let mut held = Vec::new(alloc);
    for block in blocks {
        push_held(&mut held, block, bits)?;
    }
    Ok(held)
}

/// Adds the shard of a block, where it is one of this blur.
fn push_held<'a>(held: &mut Vec<Held<'a>>, block: &'a Block, bits: u8) -> Result<(), NoMemory>
    ensures each { OnOk result ((s : Shard)
        → IsIn (map (shard_of bits) held.new.items) s
        ↔ (IsIn (map (shard_of bits) held.old.items) s
        ⊎ (IsShardBlock s block.now × (s.blur ≡ bits)))) }
    ensures bytes { OnOk result (HaveBytes held.old.items → HaveBytes held.new.items) }
    ensures few { OnOk result (length held.new.items ≤ length held.old.items + 1) }
{
    match decode_shard(block) {
        Some(shard) => push_shard(held, &shard, block, bits),
        None => Ok(()),
    }
}

/// Adds a shard, where it has this blur.
fn push_shard<'a>(
    held: &mut Vec<Held<'a>>,
    shard: &Shard,
    block: &'a Block,
    bits: u8,
) -> Result<(), NoMemory>
    requires { IsShardBlock shard.now block.now }
    ensures each { OnOk result ((s : Shard)
        → IsIn (map (shard_of bits) held.new.items) s
        ↔ (IsIn (map (shard_of bits) held.old.items) s ⊎ ((shard.now ≡ s) × (s.blur ≡ bits)))) }
    ensures bytes { OnOk result (HaveBytes held.old.items → HaveBytes held.new.items) }
    ensures few { OnOk result (length held.new.items ≤ length held.old.items + 1) }
{
    if shard.blur == bits {
        match held.push(held_of(shard, block)) {
            Ok(()) => Ok(()),
            Err(_) => Err(NoMemory),
        }
    } else {
        Ok(())
    }
}

/// A shard whose share lies in its block.
fn held_of<'a>(shard: &Shard, block: &'a Block) -> Held<'a>
    requires { IsShardBlock shard.now block.now }
    ensures stands { shard_of shard.now.blur result ≡ shard.now }
    ensures bytes { AreBytes result.share.now }
{
    held_with(shard, &block.bytes()[32..])
}

/// A shard whose share lies here.
fn held_with<'a>(shard: &Shard, share: &'a [u8]) -> Held<'a>
    requires { shard.now.share ≡ share.now }
    ensures stands { shard_of shard.now.blur result ≡ shard.now }
    ensures bytes { AreBytes result.share.now }
{
    Held {
        m: shard.m,
        n: shard.n,
        x: shard.x,
        name: shard.name,
        pointer: shard.pointer,
        share,
    }
}
