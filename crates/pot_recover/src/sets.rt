ghost use Rattle.std.specs.Prelude.{◌≡◌, ◌↔◌, ◌<◌, ◌≤◌, ◌⊎◌, ℕ, map, length, IfOk, OnOk};
ghost use Rattle.pot_pointer.specs.declared.Named.{Named};
ghost use Rattle.pot_chains.specs.Listed.{IsIn};
ghost use Rattle.pot_recover.specs.Reached.{name_of, IsHit, IsNextPointer, AreWithinCount};

use crate::held::Held;
use pot_bytes::NoMemory;
use pot_pointer::{Named, RegionIndex};
use std::alloc::Global;

/// The pointers, in order and each once, of the shards of a point that hold this share and that one
/// of these pointers means.
///
/// Where the pointers that come in are distinct, the work is at most the number of shards there.
pub(crate) fn next_pointers(
    alloc: Global,
    pointers: &[u64],
    there: &[Held],
    index: &RegionIndex,
    bits: u8,
    share: &[u8],
) -> Result<Vec<u64>, NoMemory>
    requires bits { bits ≤ 63 }
    requires indexed { index.now ≡ map name_of there.now }
    ensures { IfOk result
        (λ found. (p : ℕ)
        → IsIn found.items p ↔ IsNextPointer pointers.now there.now bits share.now p) }
{
    let mut found = Vec::new(alloc);
    for pointer in pointers {
        push_hits(&mut found, index.candidates(*pointer, bits), there, share)?;
    }
    found.sort_unstable();
    found.dedup();
    Ok(found)
}

/// Adds the pointer of each candidate that holds this share.
fn push_hits(
    found: &mut Vec<u64>,
    candidates: &[Named],
    there: &[Held],
    share: &[u8],
) -> Result<(), NoMemory>
    requires { AreWithinCount (length there.now) candidates.now }
    ensures { OnOk result
        ((p : ℕ) → IsIn found.new.items p
        ↔ (IsIn found.old.items p ⊎ IsHit there.now share.now candidates.now p)) }
{
    for candidate in candidates {
        push_hit(found, &there[candidate.position as usize], share)?;
    }
    Ok(())
}

/// Adds the pointer of a shard that holds this share.
fn push_hit(found: &mut Vec<u64>, held: &Held, share: &[u8]) -> Result<(), NoMemory>
    ensures { OnOk result
        ((p : ℕ) → IsIn found.new.items p
        ↔ (IsIn found.old.items p ⊎ ((held.now.share.now ≡ share.now) × (held.now.pointer ≡ p)))) }
{
    if held.share == share {
        push_pointer(found, held.pointer)
    } else {
        Ok(())
    }
}

/// Adds one pointer.
pub(crate) fn push_pointer(found: &mut Vec<u64>, pointer: u64) -> Result<(), NoMemory>
    ensures { OnOk result
        ((p : ℕ) → IsIn found.new.items p ↔ (IsIn found.old.items p ⊎ (pointer ≡ p))) }
{
    match found.push(pointer) {
        Ok(()) => Ok(()),
        Err(_) => Err(NoMemory),
    }
}
