ghost use Rattle.std.specs.Prelude.{ℕ};
ghost use Rattle.pot_doubles.specs.Kept.{AreBlocksKept, AreSlotsLow};

use crate::calls::Calls;
use crate::fuse::{Fuse, begin_fused};
use crate::losses::{Loss, lose_listed};
use pot_bytes::{Block, block_law, fold_weighted};
use pot_outside::{Archive, Failed, Held, Marks};
use std::alloc::Global;
use std::collections::BTreeMap;

/// A sum that an archive heard, as it was before the block of this slot came to it.
#[derive(Clone, Copy)]
pub struct Heard {
    pub slot: u32,
    pub sum: Block,
}

/// Blocks in memory, of which some go missing where a test says so.
#[derive(Drop)]
pub struct LossyArchive {
    blocks: BTreeMap<u32, Block>,
    past: Vec<Block>,
    heard: Vec<Heard>,
    losses: Vec<Loss>,
    lost: u64,
    calls: Calls,
    fuse: Option<Fuse>,
    ghost kept: { AreBlocksKept blocks past.items },
    ghost low: { AreSlotsLow blocks },
}

impl LossyArchive {
    ghost use Rattle.std.specs.Prelude.{◌≡◌, ◌||◌, ℕ, [], None, IsTrue, false, is_some, map};
    ghost use Rattle.std.specs.Option.{option_copied};
    ghost use Rattle.pot_outside.specs.Archives.{OnlyLoses};
    ghost use Rattle.pot_outside.specs.Counts.{Caused};
    ghost use Rattle.pot_doubles.specs.Calls.{IsFresh, BeginsFused};
    ghost use Rattle.pot_doubles.specs.Archives.{held_in, history_of, heard_by, archive_calls};
    ghost use Rattle.pot_doubles.specs.Archives.{archive_fused};
    ghost use Rattle.pot_doubles.specs.Archives.{lost_by, losses_of, meaning_in, LosesListed};
    ghost use Rattle.pot_doubles.specs.Archives.{LosesOne};

    /// An archive without blocks. The calls of the numbers `fails` are to fail, and the losses come
    /// at the start of their calls.
    pub fn new(alloc: Global, fails: Vec<u32>, losses: Vec<Loss>) -> LossyArchive
        ensures held { (k : ℕ) → held_in result k ≡ None }
        ensures past { history_of result ≡ [] }
        ensures heard { heard_by result ≡ [] }
        ensures lost { lost_by result ≡ 0 }
        ensures losses { losses_of result ≡ losses.items }
        ensures calls { IsFresh (archive_calls result) fails.items }
        ensures unfused { archive_fused result ≡ false }
    {
        LossyArchive {
            blocks: BTreeMap::new(alloc),
            past: Vec::new(alloc),
            heard: Vec::new(alloc),
            losses,
            lost: 0,
            calls: Calls::new(fails),
            fuse: None,
        }
    }

    /// The same archive under this fuse, where there is one.
    pub fn under(mut self, fuse: Option<Fuse>) -> LossyArchive
        ensures means { meaning_in result ≡ meaning_in self }
        ensures losses { losses_of result ≡ losses_of self }
        ensures calls { archive_calls result ≡ archive_calls self }
        ensures fused { archive_fused result ≡ (is_some fuse || archive_fused self) }
    {
        if fuse.is_some() {
            self.fuse = fuse;
        }
        self
    }

    /// Loses the block of a slot at once, and counts a loss. It is no call that is numbered.
    pub fn lose(&mut self, slot: u32)
        ensures { LosesOne self.old self.new slot }
    {
        let _ = self.blocks.remove(&slot);
        self.lost = self.lost.saturating_add(1);
    }

    /// The block of a slot, for a look from outside. It is no call that is numbered.
    pub fn block(&self, slot: u32) -> Option<&Block>
        ensures { option_copied result ≡ held_in self.now slot }
    {
        self.blocks.get(&slot)
    }

    /// The sums heard, in order.
    pub fn heard(&self) -> &[Heard]
        ensures { map (λ h. (h.slot, h.sum)) result.now ≡ heard_by self.now }
    {
        &self.heard
    }

    /// Whether a call found no memory. It then failed.
    pub fn starved(&self) -> bool
        ensures { result ≡ (archive_calls self.now).starved }
    {
        self.calls.starved()
    }

    /// Begins a call: loses what is listed for it, and says whether it is to fail.
    fn begin(&mut self) -> bool
        ensures loses { OnlyLoses (held_in self.old) (held_in self.new)
            (lost_by self.old) (lost_by self.new) }
        ensures listed { LosesListed self.old self.new }
        ensures heard { heard_by self.new ≡ heard_by self.old }
        ensures fuse { archive_fused self.new ≡ archive_fused self.old }
        ensures begins { BeginsFused (archive_fused self.old)
            (archive_calls self.old) (archive_calls self.new) result }
        ensures cause { Caused (archive_calls self.old).faults (archive_calls self.new).faults
            (IsTrue result) }
    {
        let call = self.calls.number();
        lose_listed(&mut self.blocks, &self.losses, call, &mut self.lost);
        begin_fused(&mut self.calls, &self.fuse)
    }
}

impl Archive for LossyArchive {
    ghost use Rattle.std.specs.Prelude.{◌≡◌, ◌<◌, true, IsTrue};
    ghost use Rattle.pot_outside.specs.Archives.{Meaning, Reads, Folds, Writes};
    ghost use Rattle.pot_doubles.specs.Calls.{CountedFused};
    ghost use Rattle.pot_doubles.specs.Archives.{meaning_in, archive_calls, archive_fused, lost_by};
    ghost use Rattle.pot_doubles.specs.Archives.{losses_of, LosesListed};
    ghost use Rattle.pot_doubles.specs.Archives.{WritesAfterLosses, lost_after_losses};

    ghost account = { record { tells = true; meaning = meaning_in } };

    fn read(&mut self, slot: u32, into: &mut Block) -> Result<Held, Failed>
        ensures reads { Reads (IsTrue true) slot into.new result
            (meaning_in self.old) (meaning_in self.new) }
        ensures listed { LosesListed self.old self.new }
        ensures fuse { archive_fused self.new ≡ archive_fused self.old }
        ensures counted { CountedFused (archive_fused self.old)
            (archive_calls self.old) (archive_calls self.new) result }
    {
        if self.begin() {
            return Err(Failed);
        }
        match self.blocks.get(&slot) {
            None => Ok(Held::Absent),
            Some(block) => {
                *into = *block;
                Ok(Held::Held)
            }
        }
    }

    fn fold(&mut self, slot: u32, weight: u8, sum: &mut Block) -> Result<Held, Failed>
        requires { 0 < weight }
        ensures folds { Folds (IsTrue true) slot weight sum.old sum.new result
            (meaning_in self.old) (meaning_in self.new) }
        ensures listed { LosesListed self.old self.new }
        ensures fuse { archive_fused self.new ≡ archive_fused self.old }
        ensures counted { CountedFused (archive_fused self.old)
            (archive_calls self.old) (archive_calls self.new) result }
    {
        if self.begin() {
            return Err(Failed);
        }
        if self.heard.push(Heard { slot, sum: *sum }).is_err() {
            self.calls.starve();
            return Err(Failed);
        }
        let Some(block) = self.blocks.get(&slot) else {
            return Ok(Held::Absent);
        };
        block_law(block);
        fold_weighted(sum, weight, block);
        Ok(Held::Held)
    }

    fn write(&mut self, slot: u32, block: &Block) -> Result<(), Failed>
        ensures writes { Writes (IsTrue true) slot block.now result
            (meaning_in self.old) (meaning_in self.new) }
        ensures wrote { WritesAfterLosses self.old self.new slot block.now result }
        ensures lost { lost_by self.new ≡ lost_after_losses self.old }
        ensures listed { losses_of self.new ≡ losses_of self.old }
        ensures fuse { archive_fused self.new ≡ archive_fused self.old }
        ensures counted { CountedFused (archive_fused self.old)
            (archive_calls self.old) (archive_calls self.new) result }
    {
        if self.begin() {
            return Err(Failed);
        }
        if self.past.push(*block).is_err() {
            self.calls.starve();
            return Err(Failed);
        }
        match self.blocks.insert(slot, *block) {
            Ok(_) => Ok(()),
            Err(_) => {
                self.calls.starve();
                Err(Failed)
            }
        }
    }

    fn marks(&self) -> Marks {
        Marks {
            faults: self.calls.faults(),
            losses: self.lost,
        }
    }
}

#[cfg(test)]
mod tests {
    use super::*;
    use std::test::Fail;

    #[test]
    fn loses_what_is_listed(rt: HostRuntime) -> Result<(), Fail> {
        let alloc = rt.alloc();
        let losses = [Loss { call: 2, slot: 7 }, Loss { call: 2, slot: 9 }];
        let mut archive = LossyArchive::new(alloc, [3, 4].to_vec(alloc)?, losses.to_vec(alloc)?);
        let mut into = Block::zero();
        assert_eq!(rt; archive.write(7, &Block::from_bytes([3; 1024])), Ok(()));
        assert_eq!(rt; archive.read(7, &mut into), Ok(Held::Held));
        assert_eq!(rt; into.bytes()[5], 3);
        assert_eq!(rt;
            archive.marks(),
            Marks {
                faults: 0,
                losses: 0
            }
        );
        assert_eq!(rt; archive.read(7, &mut into), Ok(Held::Absent));
        assert_eq!(rt;
            archive.marks(),
            Marks {
                faults: 0,
                losses: 2
            }
        );
        assert_eq!(rt; archive.write(8, &into), Err(Failed));
        assert_eq!(rt; archive.read(8, &mut into), Err(Failed));
        assert_eq!(rt;
            archive.marks(),
            Marks {
                faults: 2,
                losses: 2
            }
        );
        assert!(rt; archive.block(8).is_none());
        assert_eq!(rt; archive.write(8, &Block::from_bytes([4; 1024])), Ok(()));
        assert!(rt; archive.block(8).is_some_and(|block| block.bytes()[0] == 4));
        archive.lose(8);
        assert_eq!(rt; archive.read(8, &mut into), Ok(Held::Absent));
        assert_eq!(rt;
            archive.marks(),
            Marks {
                faults: 2,
                losses: 3
            }
        );
        assert!(rt; !archive.starved());
        Ok(())
    }

    #[test]
    fn hears_what_is_folded(rt: HostRuntime) -> Result<(), Fail> {
        let alloc = rt.alloc();
        let mut archive = LossyArchive::new(alloc, [3].to_vec(alloc)?, Vec::new(alloc));
        assert_eq!(rt; archive.write(8, &Block::from_bytes([4; 1024])), Ok(()));
        let mut sum = Block::from_bytes([1; 1024]);
        // 2 times 83 is 1d in the field of FIPS 197, 4.2, and 4 times 83 is 3a.
        let wanted = [
            (7, Ok(Held::Absent), 1),
            (8, Ok(Held::Held), 0x3b),
            (8, Err(Failed), 0x3b),
        ];
        for (slot, answer, byte) in wanted {
            assert_eq!(rt; archive.fold(slot, 0x83, &mut sum), answer);
            assert_eq!(rt; sum.bytes()[9], byte);
        }
        let [first, second] = archive.heard() else {
            return Err("heard".into());
        };
        assert_eq!(rt; (first.slot, first.sum.bytes()[0]), (7, 1));
        assert_eq!(rt; (second.slot, second.sum.bytes()[0]), (8, 1));
        Ok(())
    }
}
