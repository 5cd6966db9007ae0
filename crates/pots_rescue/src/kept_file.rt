//! The slot of an archive's file that no session reads.
ghost use Rattle.std.specs.Prelude.{◌≡◌, ◌≢◌, ◌*◌, ◌∷◌, pos, ◌<ℤ◌, IsErr, MatchOption, slice_index};
ghost use Rattle.std.specs.Fd.{file_raw_fd};
ghost use Rattle.pot_outside.specs.Counts.{Caused};

use pot_bytes::{Block, fold_weighted};
use pot_outside::{Archive, Failed, Held, Marks};
use std::fs::File;
use std::io::ErrorKind;
use std::os::unix::fs::FileExt;

/// The bytes of a slot: one that is 2 where a block is kept, and the block.
const SLOT: usize = 1025;

/// The first byte of a slot in which a block is kept. Where a session, a recovery or another reader
/// looks, a block begins with 1.
const KEPT: u8 = 2;

/// Where a slot begins in its file.
fn offset(slot: u32) -> u64
    ensures { result ≡ slot * 1025 }
{
    u64::from(slot) * (SLOT as u64)
}

/// The block of a slot's bytes, where the first byte says that one is kept.
fn kept_in(bytes: &[u8; SLOT]) -> Option<Block>
    ensures { MatchOption result (slice_index bytes.now 0 ≢ 2) (λ block. bytes.now ≡ 2 ∷ block) }
{
    match bytes.as_slice() {
        [2, rest @ ..] => {
            let mut block = [0u8; 1024];
            block.copy_from_slice(rest);
            Some(Block::from_bytes(block))
        }
        _ => None,
    }
}

/// The bytes of a slot in which this block is kept.
fn kept_bytes(block: &Block) -> [u8; SLOT]
    ensures { result ≡ 2 ∷ block.now }
{
    let mut bytes = [KEPT; SLOT];
    bytes[1..].copy_from_slice(block.bytes());
    bytes
}

/// An archive's file, of which the slots count that begin with 2 in place of 1.
#[derive(Drop)]
pub struct KeptFile {
    file: File,
    faults: u64,
    ghost apart: { pos 2 <ℤ file_raw_fd file },
}

impl KeptFile {
    /// The kept blocks of a file that is open to be read and written, and is no standard stream.
    pub fn new(file: File) -> KeptFile
        requires { pos 2 <ℤ file_raw_fd file }
        ensures { result.faults ≡ 0 }
    {
        KeptFile { file, faults: 0 }
    }

    /// Brings all that was written to the disk.
    pub fn sync(&mut self) -> Result<(), Failed>
        ensures cause { Caused self.old.faults self.new.faults (IsErr result) }
    {
        match self.file.sync_all() {
            Ok(()) => Ok(()),
            Err(_) => Err(self.fail()),
        }
    }

    /// The block that is kept in a slot, if one is.
    fn load(&mut self, slot: u32) -> Result<Option<Block>, Failed>
        ensures cause { Caused self.old.faults self.new.faults (IsErr result) }
    {
        let mut bytes = [0u8; SLOT];
        match self.file.read_exact_at(&mut bytes, offset(slot)) {
            Ok(()) => Ok(kept_in(&bytes)),
            Err(e) if e.kind() == ErrorKind::UnexpectedEof => Ok(None),
            Err(_) => Err(self.fail()),
        }
    }

    /// Counts a fault. The count stands still at its last value.
    fn fail(&mut self) -> Failed
        ensures cause { Caused self.old.faults self.new.faults (Unit {0}) }
    {
        self.faults = self.faults.saturating_add(1);
        Failed
    }
}

impl Archive for KeptFile {
    ghost use Rattle.std.specs.Prelude.{◌≡◌, ◌<◌, None, [], false, IsTrue};
    ghost use Rattle.pot_outside.specs.Archives.{Reads, Folds, Writes, IsMarked};

    ghost account = { record { tells = false; meaning = λ a. record { held = λ _. None; history = []; heard = []; faults = a.faults; losses = 0 } } };

    fn read(&mut self, slot: u32, into: &mut Block) -> Result<Held, Failed> {
        match self.load(slot)? {
            Some(block) => {
                *into = block;
                Ok(Held::Held)
            }
            None => Ok(Held::Absent),
        }
    }

    fn fold(&mut self, slot: u32, weight: u8, sum: &mut Block) -> Result<Held, Failed> {
        match self.load(slot)? {
            Some(block) => {
                fold_weighted(sum, weight, &block);
                Ok(Held::Held)
            }
            None => Ok(Held::Absent),
        }
    }

    fn write(&mut self, slot: u32, block: &Block) -> Result<(), Failed> {
        match self.file.write_all_at(&kept_bytes(block), offset(slot)) {
            Ok(()) => Ok(()),
            Err(_) => Err(self.fail()),
        }
    }

    fn marks(&self) -> Marks {
        Marks {
            faults: self.faults,
            losses: 0,
        }
    }
}
