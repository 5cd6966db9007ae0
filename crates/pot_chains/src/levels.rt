ghost use Rattle.std.specs.Prelude.{◌≡◌, ◌<◌, ◌≤◌, ◌+◌, ◌-◌, ◌^◌, ℕ, [], ◌∷◌, map, length, IfOk};
ghost use Rattle.std.specs.Prelude.{IfErr, OnOk};
ghost use Rattle.std.specs.List.{range_with_len};
ghost use Rattle.pot_chains.specs.Listed.{IsListed, AreAbove, HasGrown};
ghost use Rattle.pot_chains.specs.Levels.{IsPath, IsPathBelow, AreLevels};
ghost use Rattle.pot_chains.specs.declared.search.SearchFault.TheVariants.{Wide, NoMemory};

use crate::chain::Chain;
use crate::search::{SearchFault, longer, push_one};
use pot_pointer::RegionIndex;
use std::alloc::Global;

/// What stands at one point: the pointer of each, and the index over their names.
#[derive(Drop)]
pub struct Level {
    pub pointers: Vec<u64>,
    pub index: RegionIndex,
}

/// The chains from the first level to the last, in which each is linked to the next. All chains
/// that begin at the first level are counted, the shorter ones too. `count` is that of the chains
/// before, and grows by theirs.
pub fn paths(
    alloc: Global,
    levels: &[Level],
    bits: u8,
    count: &mut usize,
    limit: usize,
) -> Result<Vec<Chain>, SearchFault>
    requires bits { bits ≤ 63 }
    requires some { 1 ≤ length levels.now }
    requires few { length levels.now ≤ 16 }
    requires levels { AreLevels levels.now }
    requires counted { count.old ≤ limit }
    ensures found { IfOk result (λ found. IsListed (IsPath bits levels.now (length levels.now - 1))
        found.items) }
    ensures counts { OnOk result (HasGrown (IsPathBelow bits levels.now (length levels.now))
        count.old count.new) }
    ensures within { count.new ≤ limit }
    ensures wide { IfErr result (λ e. e ≡ Wide
        → AreAbove (IsPathBelow bits levels.now (length levels.now)) limit count.old) }
{
    match singles(alloc, levels[0].pointers.as_slice().len(), count, limit) {
        Ok(firsts) => through(alloc, levels, firsts, bits, count, limit),
        Err(fault) => Err(fault),
    }
}

/// The chains of one, for so many positions.
fn singles(
    alloc: Global,
    number: usize,
    count: &mut usize,
    limit: usize,
) -> Result<Vec<Chain>, SearchFault>
    requires short { number < 2 ^ 32 }
    requires counted { count.old ≤ limit }
    ensures found { IfOk result (λ found. found.items
        ≡ map (λ p. p ∷ []) (range_with_len 0 number)) }
    ensures counts { OnOk result (count.new ≡ count.old + number) }
    ensures within { count.new ≤ limit }
    ensures wide { IfErr result (λ e. e ≡ Wide → limit < count.old + number) }
{
    if number > limit - *count {
        return Err(SearchFault::Wide);
    }
    *count += number;
    let mut found = Vec::new(alloc);
    for position in 0..number as u32 {
        push_one(&mut found, Chain::new(position))?;
    }
    Ok(found)
}

/// The chains that begin with these, which are counted already.
fn through(
    alloc: Global,
    levels: &[Level],
    firsts: Vec<Chain>,
    bits: u8,
    count: &mut usize,
    limit: usize,
) -> Result<Vec<Chain>, SearchFault>
    requires bits { bits ≤ 63 }
    requires some { 1 ≤ length levels.now }
    requires few { length levels.now ≤ 16 }
    requires levels { AreLevels levels.now }
    requires firsts { IsListed (IsPath bits levels.now 0) firsts.items }
    requires counted { count.old ≤ limit }
    ensures found { IfOk result (λ found. IsListed (IsPath bits levels.now (length levels.now - 1))
        found.items) }
    ensures within { count.new ≤ limit }
    ensures counts { OnOk result (HasGrown (IsPathBelow bits levels.now (length levels.now))
        count.old (count.new + length firsts.items)) }
    ensures wide { IfErr result (λ e. e ≡ Wide
        → AreAbove (IsPathBelow bits levels.now (length levels.now)) (limit + length firsts.items)
        count.old) }
{
    let mut chains = firsts;
    for t in 1..levels.len() {
        match longer(
            alloc,
            &chains,
            &levels[t - 1].pointers,
            &levels[t].index,
            bits,
            count,
            limit,
        ) {
            Ok(next) => chains = next,
            Err(fault) => return Err(fault),
        }
    }
    Ok(chains)
}
