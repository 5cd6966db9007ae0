//! A look at the blocks of an archive.
ghost use Rattle.std.specs.Prelude.{◌<◌, ◌≡◌, ◌-◌, ◌^◌, ◌↔◌, ℕ, List, IsTrue, MatchOption};
ghost use Rattle.pot_machine.specs.Table.{width};
ghost use Rattle.pot_bytes.specs.Digests.{digest_bytes};
ghost use Rattle.pot_bytes.specs.declared.digest.Digest.{Digest};
ghost use Rattle.pot_looks.specs.Looks.{IsAsked, IsCompared, IsHeldInFile, IsLooked, IsSeen};
ghost use Rattle.pot_looks.specs.Looks.{with_seen, ArchiveSight};

use pot_bytes::{Digest, digest_of};
use pot_machine::{GroupTable, SlotState};

/// The bytes of a slot: one that is 1 where a block is held, and the block.
pub const SLOT: usize = 1025;

/// What is seen at a slot.
#[derive(Clone, Copy, PartialEq, Eq, Debug)]
pub(crate) enum Seen {
    /// No block there is called live, or not in this archive.
    Unasked,
    Sound,
    Damaged,
    Missing,
}

/// What is seen in an archive.
#[derive(Clone, Copy, PartialEq, Eq, Debug)]
pub struct Looked {
    /// So many blocks are called live.
    pub compared: u32,
    /// Instead of so many of them another one is there.
    pub damaged: u32,
    /// Of so many of them none is there.
    pub missing: u32,
}

/// Compares each block of a column that the table calls live in this archive with the bytes of the
/// archive's file.
pub fn look(table: &GroupTable, column: u8, archive: u32, bytes: &[u8]) -> Looked
    requires { column < width table.now }
    ensures { IsLooked
        (record { table = table.now; column = column; archive = archive; bytes = bytes.now })
        table.now.stripes result }
{
    let mut looked = Looked {
        compared: 0,
        damaged: 0,
        missing: 0,
    };
    for stripe in 0..table.stripes() {
        looked = looked.with(see(table, stripe, column, archive, bytes));
    }
    looked
}

impl Looked {
    /// With one slot more.
    fn with(self, seen: Seen) -> Looked
        requires compared { self.compared < 2 ^ 32 - 1 }
        requires damaged { self.damaged < 2 ^ 32 - 1 }
        requires missing { self.missing < 2 ^ 32 - 1 }
        ensures { result ≡ with_seen self seen }
    {
        let Looked {
            compared,
            damaged,
            missing,
        } = self;
        match seen {
            Seen::Unasked => self,
            Seen::Sound => Looked {
                compared: compared + 1,
                damaged,
                missing,
            },
            Seen::Damaged => Looked {
                compared: compared + 1,
                damaged: damaged + 1,
                missing,
            },
            Seen::Missing => Looked {
                compared: compared + 1,
                damaged,
                missing: missing + 1,
            },
        }
    }
}

/// What is seen at a slot.
fn see(table: &GroupTable, stripe: u32, column: u8, archive: u32, bytes: &[u8]) -> Seen
    requires stripe { stripe < table.now.stripes }
    requires column { column < width table.now }
    ensures { IsSeen
        (record { table = table.now; column = column; archive = archive; bytes = bytes.now })
        stripe result }
{
    match asked(table, stripe, column, archive) {
        Some(digest) => compare(bytes, stripe, digest),
        None => Seen::Unasked,
    }
}

/// The digest of the block that the table calls live at a slot, where this archive serves it.
fn asked(table: &GroupTable, stripe: u32, column: u8, archive: u32) -> Option<Digest>
    requires stripe { stripe < table.now.stripes }
    requires column { column < width table.now }
    ensures { MatchOption result ((d : Digest) → ¬ IsAsked table.now column archive stripe d)
        (λ d. IsAsked table.now column archive stripe d) }
{
    if table.archive_of(stripe, column) != archive {
        return None;
    }
    match table.slot(stripe, column) {
        SlotState::Live(digest) => Some(digest),
        SlotState::Void => None,
        SlotState::Lost(_) => None,
        SlotState::Broken(_) => None,
    }
}

/// What is seen of a block of this digest.
fn compare(bytes: &[u8], stripe: u32, digest: Digest) -> Seen
    ensures { IsCompared bytes.now stripe digest result }
{
    match block_in(bytes, stripe) {
        Some(block) => {
            if is_of(block, &digest) {
                Seen::Sound
            } else {
                Seen::Damaged
            }
        }
        None => Seen::Missing,
    }
}

/// Whether a block has this digest.
fn is_of(block: &[u8], digest: &Digest) -> bool
    ensures { IsTrue result ↔ digest_bytes block.now ≡ digest.now.bytes }
{
    digest_of(block).bytes == digest.bytes
}

/// The block that the file of an archive has at a slot.
fn block_in(bytes: &[u8], stripe: u32) -> Option<&[u8]>
    ensures { MatchOption result ((block : List ℕ) → ¬ IsHeldInFile bytes.now stripe block)
        (λ block. IsHeldInFile bytes.now stripe block.now) }
{
    let start = stripe as usize * SLOT;
    if bytes.len() < start + SLOT || bytes[start] != 1 {
        return None;
    }
    Some(&bytes[start + 1..start + SLOT])
}
