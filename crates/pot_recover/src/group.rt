ghost use Rattle.std.specs.Prelude.{◌≡◌, ◌↔◌, ◌<◌, ◌≤◌, ◌^◌, ℕ, List, [], ◌∷◌, ◌++◌, map, length};
ghost use Rattle.std.specs.Prelude.{IfOk, OnOk};
ghost use Rattle.std.specs.Borrow.{Bor};
ghost use Rattle.std.specs.List.{range_with_len};
ghost use Rattle.pot_chains.specs.Listed.{IsIn, IsOnce};
ghost use Rattle.pot_shard.specs.declared.shard.Shard.{Shard};
ghost use Rattle.pot_recover.specs.Groups.{part_of, now_of, parts_of, AreLevelsOf, IsLevelOf};
ghost use Rattle.pot_recover.specs.Groups.{shards_in, IsGroup, IsHoldable};
ghost use Rattle.pot_recover.specs.HeldShards.{shard_of, PlacesRise};
ghost use Rattle.pot_recover.specs.declared.held.Held.{Held};

use crate::held::Held;
use crate::parts::{part_at, push_part};
use pot_bytes::NoMemory;
use pot_chains::Level;
use pot_pointer::RegionIndex;
use std::alloc::Global;

/// The shards of one m and n, by point, and for each point the index over their names.
#[derive(Drop)]
pub(crate) struct Group<'a, 'b> {
    pub need: u8,
    pub bits: u8,
    pub parts: Vec<&'a [Held<'b>]>,
    pub levels: Vec<Level>,
}

/// The group of m and n among these shards.
pub(crate) fn group_of<'a, 'b>(
    alloc: Global,
    held: &'a [Held<'b>],
    need: u8,
    count: u8,
    bits: u8,
) -> Result<Group<'a, 'b>, NoMemory>
    requires some { 1 ≤ need }
    requires need { need ≤ count }
    requires few { count ≤ 16 }
    requires bits { bits ≤ 63 }
    requires order { PlacesRise held.now }
    requires short { length held.now < 2 ^ 32 }
    requires once { IsOnce (map (shard_of bits) held.now) }
    requires shards { (s : Shard) → IsIn (map (shard_of bits) held.now) s → IsHoldable s }
    ensures group { IfOk result IsGroup }
    ensures same { IfOk result (λ group. (group.need ≡ need) × (length group.parts.items ≡ count)
        × (group.bits ≡ bits)) }
    ensures members { IfOk result (λ group. (s : Shard)
        → IsIn (shards_in group) s
        ↔ (IsIn (map (shard_of bits) held.now) s × (s.m ≡ need) × (s.n ≡ count))) }
{
    let parts = parts_in(alloc, held, need, count)?;
    let levels = levels_of(alloc, &parts)?;
    Ok(Group {
        need,
        bits,
        parts,
        levels,
    })
}

/// The parts of the points 1 to n.
fn parts_in<'a, 'b>(
    alloc: Global,
    held: &'a [Held<'b>],
    need: u8,
    count: u8,
) -> Result<Vec<&'a [Held<'b>]>, NoMemory>
    requires few { count ≤ 16 }
    requires order { PlacesRise held.now }
    ensures { IfOk result
        (λ parts. map now_of parts.items
        ≡ map (part_of need count held.now) (range_with_len 1 count)) }
{
    let mut parts = Vec::new(alloc);
    for x in 0..count {
        push_part(&mut parts, part_at(held, [need, count, x + 1]))?;
    }
    Ok(parts)
}

/// A level for each part.
pub(crate) fn levels_of(alloc: Global, parts: &[&[Held]]) -> Result<Vec<Level>, NoMemory>
    requires short { (part : Bor (List Held)) → IsIn parts.now part → length part.now < 2 ^ 32 }
    ensures { IfOk result
        (λ levels. (bits : ℕ) → AreLevelsOf (parts_of bits parts.now) levels.items) }
{
    let mut levels = Vec::new(alloc);
    for part in parts {
        push_level(&mut levels, level_of(alloc, part)?)?;
    }
    Ok(levels)
}

/// Adds one level.
fn push_level(levels: &mut Vec<Level>, level: Level) -> Result<(), NoMemory>
    ensures { OnOk result (levels.new.items ≡ levels.old.items ++ level ∷ []) }
{
    match levels.push(level) {
        Ok(()) => Ok(()),
        Err(_) => Err(NoMemory),
    }
}

/// The pointers of a part, and the index over its names.
fn level_of(alloc: Global, part: &[Held]) -> Result<Level, NoMemory>
    requires { length part.now < 2 ^ 32 }
    ensures { IfOk result (λ level. (bits : ℕ) → IsLevelOf (map (shard_of bits) part.now) level) }
{
    let names = names_of(alloc, part)?;
    let pointers = pointers_of(alloc, part)?;
    match RegionIndex::build(alloc, &names) {
        Ok(index) => Ok(Level { pointers, index }),
        Err(_) => Err(NoMemory),
    }
}

/// The names of a part.
fn names_of(alloc: Global, part: &[Held]) -> Result<Vec<u64>, NoMemory>
    ensures { IfOk result (λ names. names.items ≡ map (λ (held : Held). held.name) part.now) }
{
    let names = part.iter().map(|held| held.name).collect(alloc)?;
    Ok(names)
}

/// The pointers of a part.
fn pointers_of(alloc: Global, part: &[Held]) -> Result<Vec<u64>, NoMemory>
    ensures { IfOk result
        (λ pointers. pointers.items ≡ map (λ (held : Held). held.pointer) part.now) }
{
    let pointers = part.iter().map(|held| held.pointer).collect(alloc)?;
    Ok(pointers)
}
