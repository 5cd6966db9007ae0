ghost use Rattle.std.specs.Prelude.{◌≡◌, ◌<◌, IsTrue, false};
ghost use Rattle.pot_outside.specs.Accounts.{Account};
ghost use Rattle.pot_outside.specs.Archives.{Meaning, Reads, Folds, Writes, IsMarked};

use crate::Failed;
use pot_bytes::Block;

/// Whether a slot holds a block.
#[derive(Clone, Copy, PartialEq, Eq, Debug)]
pub enum Held {
    Held,
    Absent,
}

/// The counts of an archive at one moment.
#[derive(Clone, Copy, PartialEq, Eq, Debug)]
pub struct Marks {
    pub faults: u64,
    /// 0 where contents are not told.
    pub losses: u64,
}

/// An archive with its number.
#[derive(Drop)]
pub struct Shelf<A> {
    pub number: u32,
    pub archive: A,
}

/// Blocks by slot number.
///
/// Any call but `marks` may lose blocks, and a loss raises the count of losses. No call alters a
/// block other than that of the slot which it writes. Only `fold` changes the sums heard.
pub trait Archive {
    /// Whether archives of this type tell what they hold, and what each means.
    ghost account: { Account Self Meaning };

    /// Reads the block of a slot into `into`, where the slot has one.
    ///
    /// # Errors
    /// `Failed` only where the count of faults rose.
    fn read(&mut self, slot: u32, into: &mut Block) -> Result<Held, Failed>
        ensures reads { Reads (IsTrue account.tells) slot into.new result (account.meaning self.old)
            (account.meaning self.new) };

    /// XORs the block of a slot, times a weight, into `sum`, where the slot has one. The archive
    /// hears the sum as it was before.
    ///
    /// # Errors
    /// `Failed` only where the count of faults rose; the sum is then as it was, and was heard or
    /// not.
    fn fold(&mut self, slot: u32, weight: u8, sum: &mut Block) -> Result<Held, Failed>
        requires { 0 < weight }
        ensures folds { Folds (IsTrue account.tells) slot weight sum.old sum.new result
            (account.meaning self.old) (account.meaning self.new) };

    /// Writes the block of a slot. After `Ok` the slot holds it or has lost it.
    ///
    /// # Errors
    /// `Failed` only where the count of faults rose; the slot then has the old block, the new one
    /// or none.
    fn write(&mut self, slot: u32, block: &Block) -> Result<(), Failed>
        ensures writes { Writes (IsTrue account.tells) slot block.now result
            (account.meaning self.old) (account.meaning self.new) };

    /// The counts now. It loses nothing. A slot's number has 32 bits, so no other slot holds a
    /// block.
    fn marks(&self) -> Marks
        ensures marks { IsMarked (IsTrue account.tells) (account.meaning self.now) result }
        ensures silent { account.tells ≡ false → result.losses ≡ 0 };
}
