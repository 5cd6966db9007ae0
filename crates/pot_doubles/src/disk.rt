ghost use Rattle.std.specs.Prelude.{◌≡◌, ◌+◌, ◌-◌, nat_lt, ◌∷◌, map, length, get_or, replicate};
ghost use Rattle.std.specs.Prelude.{IfOk, if◌then◌else◌, unwrap_or};
ghost use Rattle.pot_outside.specs.Disks.{Synced, bytes_at, seen};
ghost use Rattle.pot_doubles.specs.Disks.{call_of, left_by};

use crate::calls::Calls;
use pot_bytes::NoMemory;
use pot_outside::{Disk, Failed};
use std::alloc::{AllocError, Global};

/// What changed a disk.
#[derive(Drop)]
enum Note {
    /// A write began, after which these bytes lay at this place.
    Write { at: u64, bytes: Vec<u8> },
    /// A sync answered `Ok`.
    Sync,
}

/// A disk in memory, zero where nothing was written. It notes what changed it, so that it can say
/// what a crash leaves at each moment.
///
/// A write that is to fail has begun: a crash may leave any bytes in its places. They read as
/// before.
#[derive(Drop)]
pub struct MemDisk {
    alloc: Global,
    /// The newest first.
    notes: Vec<Note>,
    stop: Option<u32>,
    calls: Calls,
}

impl Note {
    ghost use Rattle.std.specs.Prelude.{◌≡◌, IfOk, if◌then◌else◌};
    ghost use Rattle.pot_doubles.specs.Disks.{call_of, is_write, with_ones};

    fn is_write(&self) -> bool
        ensures { result ≡ is_write (call_of self.now) }
    {
        match self {
            Note::Write { .. } => true,
            Note::Sync => false,
        }
    }

    /// The same note, or one of a write of the byte 1 alone.
    fn copy(&self, alloc: Global, filling: bool) -> Result<Note, AllocError>
        ensures { IfOk result
            (λ copy. call_of copy
            ≡ (if filling then with_ones (call_of self.now) else call_of self.now)) }
    {
        match self {
            Note::Write { at, bytes } => Ok(Note::Write {
                at: *at,
                bytes: copy_bytes(alloc, bytes, filling)?,
            }),
            Note::Sync => Ok(Note::Sync),
        }
    }
}

/// The same bytes, or as many of 1.
fn copy_bytes(alloc: Global, bytes: &[u8], filling: bool) -> Result<Vec<u8>, AllocError>
    ensures { IfOk result
        (λ copy. copy.items ≡ (if filling then replicate (length bytes.now) 1 else bytes.now)) }
{
    if filling {
        Ok(vec![in alloc; 1; bytes.len()]?)
    } else {
        Ok(bytes.to_vec(alloc)?)
    }
}

/// The notes as they are, or with each pending write filled by the byte 1, and then a sync.
fn copy_notes(alloc: Global, notes: &[Note], keep: bool) -> Result<Vec<Note>, AllocError>
    ensures { IfOk result
        (λ copies. map call_of copies.items ≡ Synced ∷ left_by keep (map call_of notes.now)) }
{
    let mut copies = Vec::new(alloc);
    copies.push(Note::Sync)?;
    let mut filling = !keep;
    for note in notes {
        filling = filling && note.is_write();
        copies.push(note.copy(alloc, filling)?)?;
    }
    Ok(copies)
}

/// The byte that a write from the place `from` on left `k` places after `at`, where it did.
fn byte_left(bytes: &[u8], from: u64, at: u64, k: usize) -> Option<u8>
    ensures { (below : _)
        → unwrap_or result below
        ≡ (if nat_lt (at + k) from then below else get_or bytes.now ((at + k) - from) below) }
{
    if at < from {
        let gap = from - at;
        if (k as u64) < gap {
            return None;
        }
        return bytes.get(k - gap as usize).copied();
    }
    let place = (at - from).checked_add(k as u64)?;
    bytes.get(place as usize).copied()
}

/// The byte that a change left `k` places after `at`, where it did.
fn byte_changed(note: &Note, at: u64, k: usize) -> Option<u8>
    ensures { (older : _)
        → unwrap_or result (seen older (at + k)) ≡ seen (call_of note.now ∷ older) (at + k) }
{
    match note {
        Note::Write { at: from, bytes } => byte_left(bytes, *from, at, k),
        Note::Sync => None,
    }
}

/// The byte that a read gives `k` places after `at`.
fn byte_seen(notes: &[Note], at: u64, k: usize) -> u8
    ensures { result ≡ seen (map call_of notes.now) (at + k) }
{
    for note in notes {
        if let Some(byte) = byte_changed(note, at, k) {
            return byte;
        }
    }
    0
}

/// Fills a buffer with the bytes that a read gives from a place on.
fn fill_seen(notes: &[Note], at: u64, into: &mut [u8])
    ensures { into.new ≡ bytes_at (seen (map call_of notes.now)) at (length into.old) }
{
    for k in 0..into.len() {
        into[k] = byte_seen(notes, at, k);
    }
}

impl MemDisk {
    ghost use Rattle.std.specs.Prelude.{◌≡◌, [], ◌∷◌, None, IsTrue, IfOk, length, false};
    ghost use Rattle.std.specs.Prelude.{if◌then◌else◌};
    ghost use Rattle.pot_outside.specs.Counts.{Caused};
    ghost use Rattle.pot_outside.specs.Disks.{Synced, IsCrashImage, seen};
    ghost use Rattle.pot_doubles.specs.Calls.{IsFresh, starving};
    ghost use Rattle.pot_doubles.specs.Disks.{changes_of, disk_calls, stop_of, has_stopped};
    ghost use Rattle.pot_doubles.specs.Disks.{is_stopping, first_steps, left_by};

    /// A disk on which nothing was written. The calls of the numbers `fails` are to fail, and each
    /// from the number `stop` on.
    pub fn new(alloc: Global, fails: Vec<u32>, stop: Option<u32>) -> MemDisk
        ensures changes { changes_of result ≡ [] }
        ensures calls { IsFresh (disk_calls result) fails.items }
        ensures stop { stop_of result ≡ stop }
    {
        MemDisk {
            alloc,
            notes: Vec::new(alloc),
            stop,
            calls: Calls::new(fails),
        }
    }

    /// Whether a write or a sync found no memory. It then failed.
    pub fn starved(&self) -> bool
        ensures { result ≡ (disk_calls self.now).starved }
    {
        self.calls.starved()
    }

    /// The disk as a crash now leaves it: with all that is pending kept, or with all of it filled
    /// by the byte 1.
    pub fn crash(&self, keep: bool) -> Result<MemDisk, NoMemory>
        ensures changes { IfOk result (λ d. changes_of d
            ≡ Synced ∷ left_by keep (changes_of self.now)) }
        ensures image { IfOk result (λ d. IsCrashImage (changes_of self.now)
            (seen (changes_of d))) }
        ensures calls { IfOk result (λ d. IsFresh (disk_calls d) []) }
        ensures stop { IfOk result (λ d. stop_of d ≡ None) }
    {
        Ok(MemDisk {
            alloc: self.alloc,
            notes: copy_notes(self.alloc, &self.notes, keep)?,
            stop: None,
            calls: Calls::new(Vec::new(self.alloc)),
        })
    }

    /// Whether each call fails from now on.
    fn has_stopped(&self) -> bool
        ensures { result ≡ has_stopped (stop_of self.now) (disk_calls self.now) }
    {
        match self.stop {
            None => false,
            Some(stop) => u64::from(stop) <= self.calls.number(),
        }
    }

    /// Begins a call, and says whether it is to fail. It then counts a fault.
    fn begin(&mut self) -> bool
        ensures due { result ≡ is_stopping self.old }
        ensures counted { disk_calls self.new ≡ first_steps self.old }
        ensures changes { changes_of self.new ≡ changes_of self.old }
        ensures stop { stop_of self.new ≡ stop_of self.old }
        ensures cause { Caused (disk_calls self.old).faults (disk_calls self.new).faults
            (IsTrue result) }
    {
        let stopped = self.has_stopped();
        if self.calls.begin() {
            return true;
        }
        if stopped {
            self.calls.fail();
        }
        stopped
    }

    /// What a call answers that found no memory. It counts a fault, where it was not to fail
    /// anyway.
    fn starve(&mut self, fails: bool) -> Failed
        ensures counted { disk_calls self.new
            ≡ (if fails then disk_calls self.old else starving (disk_calls self.old)) }
        ensures changes { changes_of self.new ≡ changes_of self.old }
        ensures stop { stop_of self.new ≡ stop_of self.old }
        ensures cause { Caused (disk_calls self.old).faults (disk_calls self.new).faults
            (fails ≡ false) }
    {
        if !fails {
            self.calls.starve();
        }
        Failed
    }

    /// The bytes that a write leaves: its own, or those that lay there where it is to fail.
    fn left(&self, at: u64, from: &[u8], fails: bool) -> Result<Vec<u8>, AllocError>
        ensures size { IfOk result (λ v. length v.items ≡ length from.now) }
        ensures bytes { IfOk result (λ v. fails ≡ false → v.items ≡ from.now) }
    {
        let mut bytes = from.to_vec(self.alloc)?;
        if fails {
            fill_seen(&self.notes, at, &mut bytes);
        }
        Ok(bytes)
    }
}

impl Disk for MemDisk {
    ghost use Rattle.std.specs.Prelude.{◌≡◌, ◌||◌, ℕ, List, true, length, IsErr, IsTrue};
    ghost use Rattle.pot_outside.specs.Counts.{Caused};
    ghost use Rattle.pot_outside.specs.Disks.{ReadsBytes, WritesBytes, SyncsBytes};
    ghost use Rattle.pot_doubles.specs.Calls.{AnsweredAsDue};
    ghost use Rattle.pot_doubles.specs.Disks.{changes_of, disk_calls, stop_of, is_stopping};
    ghost use Rattle.pot_doubles.specs.Disks.{first_steps};

    ghost account = { record {
      tells = true;
      meaning = λ d. record { held = changes_of d; faults = (disk_calls d).faults };
    } };

    fn read(&mut self, at: u64, into: &mut [u8]) -> Result<(), Failed>
        ensures told { ReadsBytes (changes_of self.old) at into.new result }
        ensures keeps { changes_of self.new ≡ changes_of self.old }
        ensures cause { Caused (disk_calls self.old).faults (disk_calls self.new).faults
            (IsErr result) }
        ensures counted { AnsweredAsDue (is_stopping self.old) (first_steps self.old)
            (disk_calls self.new) result }
        ensures stop { stop_of self.new ≡ stop_of self.old }
    {
        if self.begin() {
            return Err(Failed);
        }
        fill_seen(&self.notes, at, into);
        Ok(())
    }

    fn write(&mut self, at: u64, from: &[u8]) -> Result<(), Failed>
        ensures told { WritesBytes (changes_of self.old) (changes_of self.new) at from.now result }
        ensures cause { Caused (disk_calls self.old).faults (disk_calls self.new).faults
            (IsErr result) }
        ensures counted { AnsweredAsDue (is_stopping self.old) (first_steps self.old)
            (disk_calls self.new) result }
        ensures stop { stop_of self.new ≡ stop_of self.old }
    {
        let fails = self.begin();
        let Ok(bytes) = self.left(at, from, fails) else {
            return Err(self.starve(fails));
        };
        if self.notes.insert(0, Note::Write { at, bytes }).is_err() {
            return Err(self.starve(fails));
        }
        if fails { Err(Failed) } else { Ok(()) }
    }

    fn sync(&mut self) -> Result<(), Failed>
        ensures told { SyncsBytes (changes_of self.old) (changes_of self.new) result }
        ensures cause { Caused (disk_calls self.old).faults (disk_calls self.new).faults
            (IsErr result) }
        ensures counted { AnsweredAsDue (is_stopping self.old) (first_steps self.old)
            (disk_calls self.new) result }
        ensures stop { stop_of self.new ≡ stop_of self.old }
    {
        if self.begin() {
            return Err(Failed);
        }
        if self.notes.insert(0, Note::Sync).is_err() {
            return Err(self.starve(false));
        }
        Ok(())
    }
}

#[cfg(test)]
mod tests {
    use super::*;
    use std::test::Fail;

    fn read(disk: &mut MemDisk, at: u64) -> Result<[u8; 4], Failed> {
        let mut into = [9; 4];
        disk.read(at, &mut into)?;
        Ok(into)
    }

    #[test]
    fn writes_reads_and_crashes(rt: HostRuntime) -> Result<(), Fail> {
        let alloc = rt.alloc();
        let mut disk = MemDisk::new(alloc, [5].to_vec(alloc)?, Some(9));
        assert_eq!(rt; read(&mut disk, 1 << 40), Ok([0; 4]));
        assert_eq!(rt; disk.write(10, &[1, 2, 3]), Ok(()));
        assert_eq!(rt; disk.sync(), Ok(()));
        assert_eq!(rt; disk.write(11, &[7, 8]), Ok(()));
        assert_eq!(rt; read(&mut disk, 9), Ok([0, 1, 7, 8]));
        assert_eq!(rt; disk.write(9, &[5, 5]), Err(Failed));
        assert_eq!(rt; read(&mut disk, 9), Ok([0, 1, 7, 8]));
        let mut kept = disk.crash(true).map_err(|_| "no memory")?;
        assert_eq!(rt; read(&mut kept, 9), Ok([0, 1, 7, 8]));
        let mut filled = disk.crash(false).map_err(|_| "no memory")?;
        assert_eq!(rt; read(&mut filled, 9), Ok([1, 1, 1, 1]));
        assert_eq!(rt; read(&mut filled, 12), Ok([1, 0, 0, 0]));
        assert_eq!(rt; disk.sync(), Ok(()));
        let mut settled = disk.crash(false).map_err(|_| "no memory")?;
        assert_eq!(rt; read(&mut settled, 9), Ok([0, 1, 7, 8]));
        assert_eq!(rt; read(&mut disk, u64::MAX), Ok([0; 4]));
        assert_eq!(rt; disk.sync(), Err(Failed));
        assert_eq!(rt; read(&mut disk, 0), Err(Failed));
        assert_eq!(rt; disk.calls.faults(), 3);
        assert!(rt; !disk.starved());
        Ok(())
    }
}
