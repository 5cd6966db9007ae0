ghost use Rattle.std.specs.Prelude.{◌≡◌, ◌↔◌, ◌<◌, ◌≤◌, ◌+◌, ◌^◌, ℕ, List, [], length, IsTrue, IfOk};
ghost use Rattle.std.specs.Prelude.{IfErr, OnOk, AllPairs};
ghost use Rattle.std.specs.List.{position, slice_index_or};
ghost use Rattle.pot_chains.specs.Listed.{IsIn};
ghost use Rattle.pot_recover.specs.Choices.{AreContents};
ghost use Rattle.pot_recover.specs.Fronts.{has_front};
ghost use Rattle.pot_recover.specs.Open.{AreOpenlyRecovered, IsOpenlyTooWide, IsOpenlyWithin};
ghost use Rattle.pot_recover.specs.Recovered.{AreRecovered, IsBytesBefore, IsChoice, IsRecovered};
ghost use Rattle.pot_recover.specs.Robust.{AreRobustlyRecovered, IsRobustlyTooWide};
ghost use Rattle.pot_recover.specs.Robust.{IsRobustlyWithin};
ghost use Rattle.pot_recover.specs.Wide.{IsTooWide, IsWithin, AreFew, AreTooWide};

use crate::choices::{count_choices, objects_of};
use crate::distinct::sort_distinct;
use crate::fronts::first_front;
use crate::held::held_in;
use crate::open_chains::open_contents;
use crate::rings::{WIDEST, closed_contents};
use crate::robust_rings::robust_contents;
use pot_bytes::Block;
use pot_chains::SearchFault;
use std::alloc::Global;
use std::marker::Model;

/// Why nothing is recovered.
#[derive(Clone, Copy, PartialEq, Eq, Debug)]
pub enum RecoverFault {
    /// There are more chains than the call bears, or more than 4,000,000 choices. Each is counted
    /// to one more than is borne. Choices are counted only where the chains are borne, and are else
    /// reported as 0.
    Wide { chains: u32, choices: u32 },
    NoMemory,
}

/// The objects that were recovered, in byte order and each once. Contracts see the list of them.
#[derive(Drop)]
pub struct Recovered {
    objects: Vec<[u8; 928]>,
}

impl Model for Recovered {
    ghost use Rattle.std.specs.Prelude.{List, ℕ};
    ghost use Rattle.std.specs.Ordering.{nat_cmp};
    ghost use Rattle.std.specs.List.Sorted.{IsStrictlySortedBy};
    ghost use Rattle.std.specs.Cmp.Lexicographic.{slice_cmp};

    ghost Value = { List (List ℕ) };

    ghost view = { λ r. r.objects.items };

    ghost invariant = { λ r. IsStrictlySortedBy (slice_cmp nat_cmp) r.objects.items };
}

impl Recovered {
    /// How many there are.
    pub fn len(&self) -> usize
        ensures { result ≡ length self.now }
    {
        self.objects.as_slice().len()
    }

    /// Whether there are none.
    pub fn is_empty(&self) -> bool
        ensures { IsTrue result ↔ (self.now ≡ []) }
    {
        self.objects.as_slice().is_empty()
    }

    /// The object at this place, from 0.
    pub fn object(&self, at: usize) -> &[u8; 928]
        requires { at < length self.now }
        ensures { result.now ≡ slice_index_or self.now at result.now }
    {
        &self.objects.as_slice()[at]
    }

    /// The place of the first object that begins with these bytes: a file id, a piece, a number of
    /// pieces and a length, as they stand in an object.
    pub fn first_with(&self, front: &[u8; 32]) -> Option<usize>
        ensures { result ≡ position (has_front front.now) self.now }
    {
        first_front(self.objects.as_slice(), *front)
    }
}

/// The objects that these blocks give: those of each choice of one closed fragment for each number,
/// where their XOR is an object. Only shards of this blur take part, and equal blocks count once.
///
/// The work is that of the chains, each extended by the candidates of its pointer alone, and of the
/// choices. No more than `most` chains are followed: a few forged blocks can make millions of them.
pub fn recover(
    alloc: Global,
    blocks: &[Block],
    bits: u8,
    most: u32,
) -> Result<Recovered, RecoverFault>
    requires bits { bits ≤ 63 }
    requires most { most ≤ 4000000 }
    requires few { length blocks.now < 2 ^ 32 }

    // Exactly what the definition calls recovered, in byte order.
    ensures objects { IfOk result (λ objects. AreRecovered blocks.now bits objects) }

    // Both counts are borne.
    ensures within { OnOk result (IsWithin most blocks.now bits) }
    ensures wide { IfErr result (λ fault. IsTooWide most blocks.now bits fault) }
{
    let Ok(held) = held_in(alloc, blocks, bits) else {
        return Err(RecoverFault::NoMemory);
    };
    let first = first_count(most);
    let mut count = first;
    match closed_contents(alloc, &held, bits, &mut count) {
        Ok(contents) => from_contents(alloc, contents, count - first),
        Err(SearchFault::Wide) => Err(RecoverFault::Wide {
            chains: most + 1,
            choices: 0,
        }),
        Err(SearchFault::NoMemory) => Err(RecoverFault::NoMemory),
    }
}

/// The same over rings some of whose shares may be wrong: half of those beyond m of each ring,
/// rounded down. Names and pointers have to be as they were written.
///
/// The work is that of the chains of 1 to n, each extended by the candidates of its pointer alone,
/// and of the choices.
pub fn recover_robust(
    alloc: Global,
    blocks: &[Block],
    bits: u8,
    most: u32,
) -> Result<Recovered, RecoverFault>
    requires bits { bits ≤ 63 }
    requires most { most ≤ 4000000 }
    requires few { length blocks.now < 2 ^ 32 }

    // Exactly what the definition calls robustly recovered, in byte order.
    ensures objects { IfOk result (λ objects. AreRobustlyRecovered blocks.now bits objects) }

    // Both counts are borne.
    ensures within { OnOk result (IsRobustlyWithin most blocks.now bits) }
    ensures wide { IfErr result (λ fault. IsRobustlyTooWide most blocks.now bits fault) }
{
    let Ok(held) = held_in(alloc, blocks, bits) else {
        return Err(RecoverFault::NoMemory);
    };
    let first = first_count(most);
    let mut count = first;
    match robust_contents(alloc, &held, bits, &mut count) {
        Ok(contents) => from_contents(alloc, contents, count - first),
        Err(SearchFault::Wide) => Err(RecoverFault::Wide {
            chains: most + 1,
            choices: 0,
        }),
        Err(SearchFault::NoMemory) => Err(RecoverFault::NoMemory),
    }
}

/// The same by open chains: m shards that follow one another have the content of their fragment, so
/// the n - m others of each may be gone.
///
/// The work is that of the chains of 1 to m from each point on, with one join for each chain of m,
/// and of the choices.
pub fn recover_open(
    alloc: Global,
    blocks: &[Block],
    bits: u8,
    most: u32,
) -> Result<Recovered, RecoverFault>
    requires bits { bits ≤ 63 }
    requires most { most ≤ 4000000 }
    requires few { length blocks.now < 2 ^ 32 }

    // Exactly what the definition calls openly recovered, in byte order.
    ensures objects { IfOk result (λ objects. AreOpenlyRecovered blocks.now bits objects) }

    // Both counts are borne.
    ensures within { OnOk result (IsOpenlyWithin most blocks.now bits) }
    ensures wide { IfErr result (λ fault. IsOpenlyTooWide most blocks.now bits fault) }
{
    let Ok(held) = held_in(alloc, blocks, bits) else {
        return Err(RecoverFault::NoMemory);
    };
    let first = first_count(most);
    let mut count = first;
    match open_contents(alloc, &held, bits, &mut count) {
        Ok(contents) => from_contents(alloc, contents, count - first),
        Err(SearchFault::Wide) => Err(RecoverFault::Wide {
            chains: most + 1,
            choices: 0,
        }),
        Err(SearchFault::NoMemory) => Err(RecoverFault::NoMemory),
    }
}

/// From where chains are counted, so that the limit of the search comes behind so many.
fn first_count(most: u32) -> usize
    requires most { most ≤ 4000000 }
    ensures { result + most ≡ 4000000 }
{
    WIDEST - most as usize
}

/// The objects that these contents give, where their choices are no more than the limit.
fn from_contents(
    alloc: Global,
    contents: Vec<[u8; 992]>,
    chains: usize,
) -> Result<Recovered, RecoverFault>
    requires contents { AreContents contents.items }
    requires chains { chains ≤ 4000000 }
    ensures objects { IfOk result (λ objects. (o : List ℕ)
        → IsIn objects o ↔ IsRecovered (IsIn contents.items) o) }
    ensures order { IfOk result (λ objects. AllPairs IsBytesBefore objects) }
    ensures within { OnOk result (AreFew (IsIn contents.items)) }
    ensures wide { IfErr result (λ fault. AreTooWide (IsIn contents.items) chains fault) }
{
    let mut distinct = contents;
    sort_distinct(&mut distinct);
    let Ok(choices) = count_choices(alloc, &distinct) else {
        return Err(RecoverFault::NoMemory);
    };
    if choices > WIDEST {
        return Err(RecoverFault::Wide {
            chains: chains as u32,
            choices: choices as u32,
        });
    }
    let Ok(mut objects) = objects_of(alloc, &distinct) else {
        return Err(RecoverFault::NoMemory);
    };
    sort_distinct(&mut objects);
    Ok(Recovered { objects })
}
