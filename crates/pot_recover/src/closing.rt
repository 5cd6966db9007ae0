ghost use Rattle.std.specs.Prelude.{◌≡◌, ◌↔◌, ◌<◌, ◌≤◌, ◌+◌, ◌⊎◌, ℕ, List, [], ◌∷◌, ◌++◌, map};
ghost use Rattle.std.specs.Prelude.{length, IsTrue, IfOk, OnOk};
ghost use Rattle.std.specs.List.{flat_map};
ghost use Rattle.pot_chains.specs.Listed.{IsIn};
ghost use Rattle.pot_recover.specs.Groups.{parts_of, shards_in, shards_at, AreInside, IsGroup};
ghost use Rattle.pot_recover.specs.Groups.{IsWholeChain};
ghost use Rattle.pot_recover.specs.HeldShards.{shard_of, piece_of};
ghost use Rattle.pot_recover.specs.Sets.{ClosesWith, IsNextShard, ReturnsTo};

use crate::distinct::push_distinct;
use crate::group::Group;
use crate::held::Held;
use crate::joining::{content_of, first_points, rows_of};
use crate::sets::{next_pointers, push_pointer};
use pot_bytes::NoMemory;
use pot_chains::Chain;
use pot_joins::share_at;
use pot_pointer::blur;
use std::alloc::Global;

/// Adds the content with which the ring closes that begins with this chain of m shards, where it
/// closes.
pub(crate) fn add_closed(
    alloc: Global,
    group: &Group,
    positions: &Chain,
    found: &mut Vec<[u8; 992]>,
) -> Result<(), NoMemory>
    requires group { IsGroup group.now }
    requires inside { AreInside (parts_of group.now.bits group.now.parts.items) positions.now }
    requires chain { IsWholeChain (shards_in group.now) group.now.need
        (length group.now.parts.items) group.now.bits
        (shards_at (parts_of group.now.bits group.now.parts.items) positions.now) }
    ensures { OnOk result
        ((c : List ℕ)
        → IsIn found.new.items c
        ↔ (IsIn found.old.items c
        ⊎ ClosesWith (IsIn (shards_in group.now))
        (shards_at (parts_of group.now.bits group.now.parts.items) positions.now) c)) }
{
    let chain = chain_at(alloc, group, positions)?;
    add_content(alloc, group, &chain, found)
}

/// Adds the content of a chain, where its ring closes.
fn add_content(
    alloc: Global,
    group: &Group,
    chain: &[Held],
    found: &mut Vec<[u8; 992]>,
) -> Result<(), NoMemory>
    requires group { IsGroup group.now }
    requires chain { IsWholeChain (shards_in group.now) group.now.need
        (length group.now.parts.items) group.now.bits (map (shard_of group.now.bits) chain.now) }
    ensures { OnOk result
        ((c : List ℕ)
        → IsIn found.new.items c
        ↔ (IsIn found.old.items c
        ⊎ ClosesWith (IsIn (shards_in group.now)) (map (shard_of group.now.bits) chain.now) c)) }
{
    match content_of(alloc, chain)? {
        Some(content) => add_where_closed(alloc, group, chain, content, found),
        None => Ok(()),
    }
}

/// Adds a content that a chain means, where its ring closes.
fn add_where_closed(
    alloc: Global,
    group: &Group,
    chain: &[Held],
    content: [u8; 992],
    found: &mut Vec<[u8; 992]>,
) -> Result<(), NoMemory>
    requires group { IsGroup group.now }
    requires chain { IsWholeChain (shards_in group.now) group.now.need
        (length group.now.parts.items) group.now.bits (map (shard_of group.now.bits) chain.now) }
    ensures { OnOk result
        ((c : List ℕ)
        → IsIn found.new.items c
        ↔ (IsIn found.old.items c
        ⊎ ((content ≡ c)
        × ReturnsTo (IsIn (shards_in group.now)) (map (shard_of group.now.bits) chain.now)))) }
{
    if returns_to_first(alloc, group, chain)? {
        push_distinct(found, content)
    } else {
        Ok(())
    }
}

/// The shards at these positions, one in each part.
pub(crate) fn chain_at<'b>(
    alloc: Global,
    group: &Group<'_, 'b>,
    positions: &Chain,
) -> Result<Vec<Held<'b>>, NoMemory>
    requires { AreInside (parts_of group.now.bits group.now.parts.items) positions.now }
    ensures { IfOk result
        (λ chain. map (shard_of group.now.bits) chain.items
        ≡ shards_at (parts_of group.now.bits group.now.parts.items) positions.now) }
{
    let mut chain = Vec::new(alloc);
    for place in 0..positions.len() {
        let part = group.parts[place];
        push_shard(&mut chain, &part[positions.get(place) as usize])?;
    }
    Ok(chain)
}

/// Adds one shard.
fn push_shard<'b>(chain: &mut Vec<Held<'b>>, held: &Held<'b>) -> Result<(), NoMemory>
    ensures { OnOk result (chain.new.items ≡ chain.old.items ++ held.now ∷ []) }
{
    match chain.push(*held) {
        Ok(()) => Ok(()),
        Err(_) => Err(NoMemory),
    }
}

/// Whether the ring of a chain closes: whether of the sets past it the last has a shard that is
/// linked to its first.
fn returns_to_first(alloc: Global, group: &Group, chain: &[Held]) -> Result<bool, NoMemory>
    requires group { IsGroup group.now }
    requires chain { IsWholeChain (shards_in group.now) group.now.need
        (length group.now.parts.items) group.now.bits (map (shard_of group.now.bits) chain.now) }
    ensures { IfOk result
        (λ closes. IsTrue closes
        ↔ ReturnsTo (IsIn (shards_in group.now)) (map (shard_of group.now.bits) chain.now)) }
{
    let rows = rows_of(alloc, chain, 0, 992)?;
    let mut pointers = Vec::new(alloc);
    push_pointer(&mut pointers, chain[chain.len() - 1].pointer)?;
    for place in chain.len()..group.parts.len() {
        pointers = pointers_at(alloc, group, chain, &rows, &pointers, place)?;
    }
    Ok(pointers.contains(&blur(chain[0].name, group.bits)))
}

/// The pointers of the shards of a point that hold what the chain fixes there and that one of these
/// pointers means.
fn pointers_at(
    alloc: Global,
    group: &Group,
    chain: &[Held],
    rows: &[u8],
    pointers: &[u64],
    place: usize,
) -> Result<Vec<u64>, NoMemory>
    requires group { IsGroup group.now }
    requires chain { IsWholeChain (shards_in group.now) group.now.need
        (length group.now.parts.items) group.now.bits (map (shard_of group.now.bits) chain.now) }
    requires rows { rows.now ≡ flat_map (piece_of 0 992) chain.now }
    requires behind { length chain.now ≤ place }
    requires within { place < length group.now.parts.items }
    ensures { IfOk result
        (λ found. (p : ℕ)
        → IsIn found.items p
        ↔ IsNextShard (IsIn (shards_in group.now)) (map (shard_of group.now.bits) chain.now)
        group.now.need (length group.now.parts.items) group.now.bits (place + 1) (IsIn pointers.now)
        p) }
{
    let mut share = [0; 992];
    share_at(first_points(chain.len()), rows, place as u8 + 1, &mut share);
    next_pointers(
        alloc,
        pointers,
        group.parts[place],
        &group.levels[place].index,
        group.bits,
        &share,
    )
}
