ghost use Rattle.std.specs.Prelude.{◌≡◌, ◌<◌, ◌≤◌, ◌^◌, List, map, length, IfOk};
ghost use Rattle.pot_chains.specs.Listed.{IsIn, IsOnce};
ghost use Rattle.pot_shard.specs.declared.shard.Shard.{Shard};
ghost use Rattle.pot_recover.specs.Groups.{part_of, now_of, IsHoldable};
ghost use Rattle.pot_recover.specs.HeldShards.{shard_of, PlacesRise};
ghost use Rattle.pot_recover.specs.OpenScopes.{after, points_from, IsOpenStart, IsWindow};

use crate::group::{Group, levels_of};
use crate::held::Held;
use crate::parts::{part_at, push_part};
use pot_bytes::NoMemory;
use std::alloc::Global;

/// Where open chains begin: at this point, with shards of this m and n.
#[derive(Clone, Copy)]
pub(crate) struct Start {
    pub need: u8,
    pub shards: u8,
    pub first: u8,
}

/// The shards of the m points that follow one another from the start on, and for each point the
/// index over their names.
pub(crate) fn window_of<'a, 'b>(
    alloc: Global,
    held: &'a [Held<'b>],
    start: Start,
    bits: u8,
) -> Result<Group<'a, 'b>, NoMemory>
    requires start { IsOpenStart start }
    requires order { PlacesRise held.now }
    requires short { length held.now < 2 ^ 32 }
    requires once { IsOnce (map (shard_of bits) held.now) }
    requires shards { (s : Shard) → IsIn (map (shard_of bits) held.now) s → IsHoldable s }
    ensures window { IfOk result (IsWindow (map (shard_of bits) held.now) start.need start.shards
        start.first) }
    ensures bits { IfOk result (λ window. window.bits ≡ bits) }
{
    let parts = parts_from(alloc, held, start)?;
    let levels = levels_of(alloc, &parts)?;
    Ok(Group {
        need: start.need,
        bits,
        parts,
        levels,
    })
}

/// The parts of the m points from the start on.
fn parts_from<'a, 'b>(
    alloc: Global,
    held: &'a [Held<'b>],
    start: Start,
) -> Result<Vec<&'a [Held<'b>]>, NoMemory>
    requires start { IsOpenStart start }
    requires order { PlacesRise held.now }
    ensures { IfOk result
        (λ parts. map now_of parts.items
        ≡ map (part_of start.need start.shards held.now)
        (points_from start.shards start.first start.need)) }
{
    let mut parts = Vec::new(alloc);
    let mut x = start.first;
    for _ in 0..start.need {
        push_part(&mut parts, part_at(held, [start.need, start.shards, x]))?;
        x = after(x, start.shards);
    }
    Ok(parts)
}

/// The point after x of n.
fn after(x: u8, shards: u8) -> u8
    requires { x ≤ 16 }
    ensures { result ≡ after shards x }
{
    if x == shards { 1 } else { x + 1 }
}
