ghost use Rattle.std.specs.Prelude.{◌≡◌, ◌≢◌, ◌*◌, ◌∷◌, pos, ◌<ℤ◌, true, false, IsOk, IsErr};
ghost use Rattle.std.specs.Prelude.{MatchOption, slice_index};
ghost use Rattle.std.specs.Fd.{file_raw_fd};
ghost use Rattle.pot_outside.specs.Counts.{Caused};

use crate::faults::count_fault;
use crate::voice::Voice;
use pot_bytes::{Block, fold_weighted};
use pot_outside::{Archive, Failed, Held, Marks};
use std::fs::File;
use std::io;
use std::io::ErrorKind;
use std::os::unix::fs::FileExt;

/// The bytes of a slot: one that is 1 where a block is held, and the block.
pub(crate) const SLOT: usize = 1025;

/// Where a slot begins in its file.
fn offset(slot: u32) -> u64
    ensures { result ≡ slot * 1025 }
{
    u64::from(slot) * (SLOT as u64)
}

/// The block of a slot's bytes, where the first byte says that one is held.
fn block_of(bytes: &[u8; SLOT]) -> Option<Block>
    ensures { MatchOption result (slice_index bytes.now 0 ≢ 1) (λ block. bytes.now ≡ 1 ∷ block) }
{
    match bytes.as_slice() {
        [1, rest @ ..] => {
            let mut block = [0u8; 1024];
            block.copy_from_slice(rest);
            Some(Block::from_bytes(block))
        }
        _ => None,
    }
}

/// The bytes of a slot that holds this block.
fn slot_of(block: &Block) -> [u8; SLOT]
    ensures { result ≡ 1 ∷ block.now }
{
    let mut bytes = [1u8; SLOT];
    bytes[1..].copy_from_slice(block.bytes());
    bytes
}

/// An archive in a file. A slot that the file ends before or within is absent.
#[derive(Drop)]
pub struct FileArchive {
    file: File,
    faults: u64,
    /// Whether the file is open to be written.
    may_write: bool,
    /// Whether a write of it was begun.
    was_written: bool,
    /// Who tells of its faults. Of an archive without a number nobody does.
    voice: Option<Voice>,
    ghost apart: { pos 2 <ℤ file_raw_fd file },
}

impl FileArchive {
    /// The archive of a file that is open to be read and written, and is no standard stream.
    pub fn new(file: File) -> FileArchive
        requires { pos 2 <ℤ file_raw_fd file }
        ensures { result.faults ≡ 0 }
    {
        FileArchive {
            file,
            faults: 0,
            may_write: true,
            was_written: false,
            voice: None,
        }
    }

    /// The archive of this number, of a file that is open to be read, or to be read and written,
    /// and is no standard stream. Its faults are told on standard error.
    pub fn named(rt: &HostRuntime, number: u32, file: File, may_write: bool) -> FileArchive
        requires { pos 2 <ℤ file_raw_fd file }
        ensures sound { result.faults ≡ 0 }
        ensures may { result.may_write ≡ may_write }
        ensures kept { result.was_written ≡ false }
    {
        FileArchive {
            file,
            faults: 0,
            may_write,
            was_written: false,
            voice: Some(Voice::new(rt, number)),
        }
    }

    /// Counts a read or a write that failed, and tells of the first one.
    fn count(&mut self, what: &str, why: &io::Error)
        ensures counts { Caused self.old.faults self.new.faults (Unit {0}) }
        ensures may { self.new.may_write ≡ self.old.may_write }
        ensures kept { self.new.was_written ≡ self.old.was_written }
    {
        count_fault(&mut self.faults);
        if let Some(voice) = &mut self.voice {
            voice.tell_first(what, why);
        }
    }

    /// The block of a slot, where it has one.
    fn load(&mut self, slot: u32) -> Result<Option<Block>, Failed>
        ensures cause { Caused self.old.faults self.new.faults (IsErr result) }
    {
        let mut bytes = [0u8; SLOT];
        match self.file.read_exact_at(&mut bytes, offset(slot)) {
            Ok(()) => Ok(block_of(&bytes)),
            Err(e) if e.kind() == ErrorKind::UnexpectedEof => Ok(None),
            Err(e) => {
                self.count("read", &e);
                Err(Failed)
            }
        }
    }

    /// Writes the block of a slot. One that can only be read fails.
    fn store(&mut self, slot: u32, block: &Block) -> Result<(), Failed>
        ensures cause { Caused self.old.faults self.new.faults (IsErr result) }
        ensures shut { self.old.may_write ≡ false → IsErr result }
        ensures begun { self.old.may_write ≡ true → self.new.was_written ≡ true }
    {
        if !self.may_write {
            self.count("written", &ErrorKind::ReadOnlyFilesystem.into());
            return Err(Failed);
        }
        self.was_written = true;
        match self.file.write_all_at(&slot_of(block), offset(slot)) {
            Ok(()) => Ok(()),
            Err(e) => {
                self.count("written", &e);
                Err(Failed)
            }
        }
    }

    /// Brings all that was written to the disk: what an earlier run left too, where the file may be
    /// written. Where nothing was written in this one, that is no fault if it cannot be done.
    pub fn sync(&mut self) -> Result<(), Failed>
        ensures cause { Caused self.old.faults self.new.faults (IsErr result) }
        ensures kept { self.old.was_written ≡ false → IsOk result }
        ensures faults { self.old.was_written ≡ false → self.new.faults ≡ self.old.faults }
    {
        if !self.may_write {
            return Ok(());
        }
        match self.file.sync_all() {
            Ok(()) => Ok(()),
            Err(_) if !self.was_written => Ok(()),
            Err(e) => {
                count_fault(&mut self.faults);
                if let Some(voice) = &self.voice {
                    voice.tell("synced", &e);
                }
                Err(Failed)
            }
        }
    }
}

impl Archive for FileArchive {
    ghost use Rattle.std.specs.Prelude.{◌≡◌, ◌<◌, None, [], false, IsTrue};
    ghost use Rattle.pot_outside.specs.Archives.{Reads, Folds, Writes, IsMarked};

    ghost account = { record { tells = false; meaning = λ a. record { held = λ _. None; history = []; heard = []; faults = a.faults; losses = 0 } } };

    fn read(&mut self, slot: u32, into: &mut Block) -> Result<Held, Failed> {
        match self.load(slot)? {
            Some(block) => {
                *into = block;
                Ok(Held::Held)
            }
            None => Ok(Held::Absent),
        }
    }

    fn fold(&mut self, slot: u32, weight: u8, sum: &mut Block) -> Result<Held, Failed> {
        match self.load(slot)? {
            Some(block) => {
                fold_weighted(sum, weight, &block);
                Ok(Held::Held)
            }
            None => Ok(Held::Absent),
        }
    }

    fn write(&mut self, slot: u32, block: &Block) -> Result<(), Failed> {
        self.store(slot, block)
    }

    fn marks(&self) -> Marks {
        Marks {
            faults: self.faults,
            losses: 0,
        }
    }
}
