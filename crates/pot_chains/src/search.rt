ghost use Rattle.std.specs.Prelude.{◌≡◌, ◌<◌, ◌≤◌, [], ◌∷◌, ◌++◌, ◌+◌, ℕ, map, length, IfOk, IfErr};
ghost use Rattle.std.specs.Prelude.{OnOk};
ghost use Rattle.pot_pointer.specs.declared.Named.{Named};
ghost use Rattle.pot_chains.specs.Listed.{IsOnce, IsListed, AreAbove};
ghost use Rattle.pot_chains.specs.Steps.{with_candidate, IsStart, IsLonger};
ghost use Rattle.pot_chains.specs.declared.search.SearchFault.TheVariants.{Wide, NoMemory};

use crate::chain::Chain;
use pot_pointer::{Named, RegionIndex};
use std::alloc::Global;

/// Why chains are not listed.
#[derive(Clone, Copy, PartialEq, Eq, Debug, Drop)]
pub enum SearchFault {
    /// There are more than the limit.
    Wide,
    NoMemory,
}

/// Each chain, longer by each candidate of the pointer of its last. `count` is that of the chains
/// found before, and grows by those found now.
pub fn longer(
    alloc: Global,
    chains: &[Chain],
    pointers: &[u64],
    index: &RegionIndex,
    bits: u8,
    count: &mut usize,
    limit: usize,
) -> Result<Vec<Chain>, SearchFault>
    requires bits { bits ≤ 63 }
    requires once { IsOnce chains.now }
    requires start { IsStart (length pointers.now) chains.now }
    requires counted { count.old ≤ limit }
    ensures found { IfOk result (λ found. IsListed (IsLonger pointers.now index.now bits chains.now)
        found.items) }
    ensures counts { IfOk result (λ found. count.new ≡ count.old + length found.items) }
    ensures within { count.new ≤ limit }
    ensures wide { IfErr result (λ e. e ≡ Wide
        → AreAbove (IsLonger pointers.now index.now bits chains.now) limit count.old) }
{
    let mut found = Vec::new(alloc);
    for chain in chains {
        let candidates = index.candidates(pointers[chain.end() as usize], bits);
        if candidates.len() > limit - *count {
            return Err(SearchFault::Wide);
        }
        *count += candidates.len();
        push_more(&mut found, chain, candidates)?;
    }
    Ok(found)
}

/// Adds a chain for each candidate.
fn push_more(found: &mut Vec<Chain>, chain: &Chain, candidates: &[Named]) -> Result<(), SearchFault>
    requires { length chain.now < 16 }
    ensures ok { OnOk result
        (found.new.items ≡ found.old.items ++ map (with_candidate chain.now) candidates.now) }
    ensures err { IfErr result (λ e. e ≡ NoMemory) }
{
    for candidate in candidates {
        push_one(found, chain.with(candidate.position))?;
    }
    Ok(())
}

/// Adds one chain.
pub(crate) fn push_one(found: &mut Vec<Chain>, chain: Chain) -> Result<(), SearchFault>
    ensures ok { OnOk result (found.new.items ≡ found.old.items ++ chain ∷ []) }
    ensures err { IfErr result (λ e. e ≡ NoMemory) }
{
    match found.push(chain) {
        Ok(()) => Ok(()),
        Err(_) => Err(SearchFault::NoMemory),
    }
}
