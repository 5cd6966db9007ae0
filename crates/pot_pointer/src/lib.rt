//! Pointers of shards: a name with its low bits cleared, and the index that finds the names that a
//! pointer may mean.
//!
//! It knows no shard, no ring and no block: it finds names by their blur, and says where they
//! stand.
//!
//! 1. A `RegionIndex` has each name of its list at its position, once: `RegionIndex`'s invariant.
//! 2. Its table is in order, by name and then by position, so that the names of one pointer stand
//!    side by side: the same invariant, and `candidates`.
#![tactic(auto)]

mod ranges;
#[cfg(test)]
mod tests;

ghost use Rattle.std.specs.Prelude.{◌≡◌, ◌↔◌, ℕ, ◌%◌, ◌^◌, ◌<◌, ◌≤◌, length, filter, IfOk};
ghost use Rattle.std.specs.Prelude.{Contains, AllPairs, IsPermutation};
ghost use Rattle.pot_pointer.specs.Pointers.{blur, named, is_meant, IsBefore, IsCandidate};

pub use ranges::equal_range;
use std::alloc::{AllocError, Global};
use std::marker::Model;

/// Memory that was asked for was not to be had.
#[derive(Clone, Copy, PartialEq, Eq, Debug)]
pub struct NoMemory;

impl From<AllocError> for NoMemory {
    fn from(_: AllocError) -> Self {
        NoMemory
    }
}

/// The blur of a name: the name with its low `bits` bits cleared.
pub fn blur(name: u64, bits: u8) -> u64
    requires { bits ≤ 63 }
    ensures value { result ≡ blur name bits }
    ensures cleared { result % 2 ^ bits ≡ 0 }
{
    name >> bits << bits
}

/// A name and the position in a list that it stands at.
#[derive(Clone, Copy, PartialEq, Eq, PartialOrd, Ord, Debug)]
pub struct Named {
    pub name: u64,
    pub position: u32,
}

/// An index over a list of names, which finds those that a pointer may mean by two searches.
///
/// A contract sees it as the list of names.
#[derive(Drop, Debug)]
pub struct RegionIndex {
    // By name, and then by position.
    entries: Vec<Named>,
}

impl Model for RegionIndex {
    ghost use Rattle.std.specs.Prelude.{List, ℕ};
    ghost use Rattle.pot_pointer.specs.Inside.{names_of, IsNameTable};

    ghost Value = { List ℕ };

    ghost view = { λ a. names_of a.entries.items };

    ghost invariant = { λ a. IsNameTable a.entries.items };
}

impl RegionIndex {
    /// The index over these names. Equal names stay apart by their positions.
    pub fn build(alloc: Global, names: &[u64]) -> Result<RegionIndex, NoMemory>
        requires { length names.now < 2 ^ 32 }
        ensures { IfOk result (λ index. index ≡ names.now) }
    {
        let mut entries = enumerated(alloc, names)?;
        entries.sort_unstable();
        Ok(RegionIndex { entries })
    }

    /// The names that the pointer may mean, each with its position, by name and then by position.
    pub fn candidates(&self, pointer: u64, bits: u8) -> &[Named]
        requires { bits ≤ 63 }

        // Exactly those of the list, each once.
        ensures all { IsPermutation (filter (is_meant pointer bits) (named self.now)) result.now }
        ensures exact { (entry : Named)
            → Contains result.now entry ↔ IsCandidate self.now pointer bits entry }
        ensures order { AllPairs IsBefore result.now }
    {
        equal_range(&self.entries, |entry| blur(entry.name, bits).cmp(&pointer))
    }
}

// Each name with its position.
fn enumerated(alloc: Global, names: &[u64]) -> Result<Vec<Named>, NoMemory>
    requires { length names.now < 2 ^ 32 }
    ensures { IfOk result (λ entries. entries.items ≡ named names.now) }
{
    let entries = names
        .iter()
        .enumerate()
        .map(|(position, name)| Named {
            name: *name,
            position: position as u32,
        })
        .collect(alloc)?;
    Ok(entries)
}
