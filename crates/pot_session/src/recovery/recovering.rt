//! Recovery: the archives alone give the files back, without a desk.

ghost use Rattle.std.specs.Prelude.{◌≡◌, ◌≢◌, ◌<◌, ◌≤◌, ◌+◌, ◌*◌, ◌^◌, ℕ, IsTrue, IfOk, OnOk};
ghost use Rattle.std.specs.Prelude.{IfErr, IsErr, IsErrOf, IsOk, ◌⊎◌, false, length};
ghost use Rattle.pot_outside.specs.Accounts.{Faults, transition};
ghost use Rattle.pot_outside.specs.Rooms.{IsHome, StaysAt, room_transition};
ghost use Rattle.pot_outside.specs.Counts.{Caused};
ghost use Rattle.pot_session.specs.Recovering.{AddsSlot, AreHeldIn, FailsOr, FindsObjects};
ghost use Rattle.pot_session.specs.Recovering.{GathersBlocks};
ghost use Rattle.pot_session.specs.Recovering.{GiveObjects, GiveTooMany, ArchiveFailed, LostByRoom};
ghost use Rattle.pot_session.specs.Recovering.{IsRecovery, Recovers, SomeFailed, WasRead, WereRead};
ghost use Rattle.pot_session.specs.Recovering.{most_chains};

use crate::ending::refusing::refuse;
use crate::ending::status::Status;
use crate::ending::stop::Stop;
use crate::recovery::listing::list_objects;
use pot_bytes::Block;
use pot_outside::{Archive, Failed, Held, Room, RoomFault, Sink};
use pot_recover::{RecoverFault, Recovered, recover, recover_open, recover_robust};
use pot_words::{Recover, Way};
use std::alloc::Global;

/// Reads the block of a slot, where it has one.
///
/// # Errors
/// `Failed` only where the archive's count of faults rose.
fn read_slot<A: Archive>(
    archive: &mut A,
    slot: u32,
    blocks: &mut Vec<Block>,
) -> Result<(), RoomFault>
    ensures adds { IsTrue A.account.tells
        → OnOk result
        (AddsSlot slot (A.account.meaning archive.old) (A.account.meaning archive.new)
        blocks.old.items blocks.new.items) }
    ensures read { IsTrue A.account.tells
        → WasRead (A.account.meaning archive.old) (A.account.meaning archive.new) }
    ensures length { length blocks.new.items ≤ length blocks.old.items + 1 }
    ensures cause { Caused (A.account.meaning archive.old).faults
        (A.account.meaning archive.new).faults (IsErrOf result RoomFault.Failed) }
{
    let mut block = Block::zero();
    match archive.read(slot, &mut block) {
        Ok(Held::Held) => match blocks.push(block) {
            Ok(()) => Ok(()),
            Err(_) => Err(RoomFault::NoMemory),
        },
        Ok(Held::Absent) => Ok(()),
        Err(Failed) => Err(RoomFault::Failed),
    }
}

/// Reads the first slots of an archive.
///
/// # Errors
/// `Failed` only where the archive's count of faults rose.
fn read_slots<A: Archive>(
    archive: &mut A,
    stripes: u32,
    blocks: &mut Vec<Block>,
) -> Result<(), RoomFault>
    ensures gathers { IsTrue A.account.tells
        → OnOk result
        (GathersBlocks stripes (A.account.meaning archive.old) (A.account.meaning archive.new)
        blocks.old.items blocks.new.items) }
    ensures read { IsTrue A.account.tells
        → WasRead (A.account.meaning archive.old) (A.account.meaning archive.new) }
    ensures length { length blocks.new.items ≤ length blocks.old.items + stripes }
    ensures cause { Caused (A.account.meaning archive.old).faults
        (A.account.meaning archive.new).faults (IsErrOf result RoomFault.Failed) }
{
    for slot in 0..stripes {
        match read_slot(archive, slot, blocks) {
            Ok(()) => {}
            Err(fault) => return Err(fault),
        }
    }
    Ok(())
}

/// The first fault of reading an archive and giving it back.
fn first_fault(read: Result<(), RoomFault>, given: Result<(), Failed>) -> Result<(), RoomFault>
    ensures both { OnOk result (IsOk read × IsOk given) }
    ensures cause { IsErrOf result RoomFault.Failed → IsErrOf read RoomFault.Failed ⊎ IsErr given }
{
    match read {
        Ok(()) => match given {
            Ok(()) => Ok(()),
            Err(Failed) => Err(RoomFault::Failed),
        },
        Err(fault) => Err(fault),
    }
}

/// Takes an archive, reads its first slots, and gives it back whatever became of that.
///
/// # Errors
/// `Failed` only where the room itself failed or the archive did. The room's count of faults rises
/// for both.
fn read_archive<R: Room>(
    room: &mut R,
    number: u32,
    stripes: u32,
    blocks: &mut Vec<Block>,
) -> Result<(), RoomFault>
    requires { (R.meaning room.old).out number ≡ false }
    ensures gathers { IsTrue R.A.account.tells
        → OnOk result
        (GathersBlocks stripes ((R.meaning room.old).means number)
        ((R.meaning room.new).means number)
        blocks.old.items blocks.new.items) }
    ensures read { IsTrue R.A.account.tells
        → WasRead ((R.meaning room.old).means number) ((R.meaning room.new).means number)
        ⊎ LostByRoom (R.meaning room.old) (R.meaning room.new) number }
    ensures length { length blocks.new.items ≤ length blocks.old.items + stripes }
    ensures home { (R.meaning room.new).out number ≡ false }
    ensures others { (n : ℕ) → n ≢ number
        → StaysAt (R.meaning room.old) (R.meaning room.new) n }
    ensures cause { Caused (R.meaning room.old).faults (R.meaning room.new).faults
        (IsErrOf result RoomFault.Failed) }
    ensures own { FailsOr (room_transition R.A.account R.meaning room.old room.new)
        (ArchiveFailed ((R.meaning room.old).means number) ((R.meaning room.new).means number))
        (IsErrOf result RoomFault.Failed) }
{
    match room.take(number) {
        Ok(archive) => {
            let mut archive = archive;
            let read = read_slots(&mut archive, stripes, blocks);
            let given = room.give(number, archive);
            first_fault(read, given)
        }
        Err(fault) => Err(fault),
    }
}

/// The blocks of the first slots of the first archives. Each archive is taken, read and given back,
/// one after another.
///
/// # Errors
/// `Failed` only where the room itself failed or one of the archives did.
fn read_archives<R: Room>(
    alloc: Global,
    task: &Recover,
    room: &mut R,
) -> Result<Vec<Block>, RoomFault>
    requires task { IsRecovery task.now }
    requires home { IsHome (R.meaning room.old) }
    ensures held { IsTrue R.A.account.tells
        → IfOk result
        (λ v.
        AreHeldIn task.now.archives task.now.stripes (R.meaning room.old).means
        (R.meaning room.new).means
        v.items) }
    ensures read { IsTrue R.A.account.tells
        → WereRead task.now.archives (R.meaning room.old) (R.meaning room.new) }
    ensures few { IfOk result (λ v. length v.items ≤ 512 * 4096) }
    ensures home { IsHome (R.meaning room.new) }
    ensures others { (n : ℕ) → task.now.archives ≤ n
        → (R.meaning room.new).means n ≡ (R.meaning room.old).means n }
    ensures cause { Caused (R.meaning room.old).faults (R.meaning room.new).faults
        (IsErrOf result RoomFault.Failed) }
    ensures own { FailsOr (room_transition R.A.account R.meaning room.old room.new)
        (SomeFailed task.now.archives (R.meaning room.old) (R.meaning room.new))
        (IsErrOf result RoomFault.Failed) }
{
    let mut blocks = Vec::new(alloc);
    for number in 0..task.archives {
        match read_archive(room, number, task.stripes, &mut blocks) {
            Ok(()) => {}
            Err(fault) => return Err(fault),
        }
    }
    Ok(blocks)
}

/// How many chains are followed over so many blocks. A robust one takes some milliseconds, and each
/// other one a part of one.
fn most_chains(task: &Recover, count: usize) -> u32
    requires few { count < 2 ^ 32 }
    ensures bound { result ≡ most_chains task.now count }
    ensures most { result ≤ 4000000 }
{
    let count = count as u64;
    let bound = match task.way {
        Way::Rings => 65_536 + 2 * count,
        Way::Robust => 4096 + 2 * count,
        Way::Chains => 65_536 + 17 * count,
    };
    if task.bounded {
        bound.min(4_000_000) as u32
    } else {
        4_000_000
    }
}

/// The objects that these blocks give, by the way of the task.
fn objects_in(alloc: Global, blocks: &[Block], task: &Recover) -> Result<Recovered, RecoverFault>
    requires bits { task.now.blur ≤ 63 }
    requires few { length blocks.now < 2 ^ 32 }
    ensures found { IfOk result (λ objects.
        GiveObjects (most_chains task.now (length blocks.now)) task.now.way blocks.now
        task.now.blur objects) }
    ensures wide { IfErr result (λ fault.
        GiveTooMany (most_chains task.now (length blocks.now)) task.now.way blocks.now
        task.now.blur fault) }
{
    let (bits, most) = (task.blur, most_chains(task, blocks.len()));
    match task.way {
        Way::Rings => recover(alloc, blocks, bits, most),
        Way::Robust => recover_robust(alloc, blocks, bits, most),
        Way::Chains => recover_open(alloc, blocks, bits, most),
    }
}

/// The objects that the archives give. No block is left in memory then.
///
/// # Errors
/// `RoomFault` only where the room itself failed or one of the archives did.
fn find_objects<R: Room>(alloc: Global, task: &Recover, room: &mut R) -> Result<Recovered, Stop>
    requires task { IsRecovery task.now }
    requires home { IsHome (R.meaning room.old) }
    ensures finds { FindsObjects task.now
        (room_transition R.A.account R.meaning room.old room.new) result }
    ensures read { IsTrue R.A.account.tells
        → WereRead task.now.archives (R.meaning room.old) (R.meaning room.new) }
    ensures home { IsHome (R.meaning room.new) }
    ensures others { (n : ℕ) → task.now.archives ≤ n
        → (R.meaning room.new).means n ≡ (R.meaning room.old).means n }
    ensures cause { Caused (R.meaning room.old).faults (R.meaning room.new).faults
        (IsErrOf result Stop.RoomFault) }
    ensures own { FailsOr (room_transition R.A.account R.meaning room.old room.new)
        (SomeFailed task.now.archives (R.meaning room.old) (R.meaning room.new))
        (IsErrOf result Stop.RoomFault) }
{
    match read_archives(alloc, task, room) {
        Ok(blocks) => match objects_in(alloc, &blocks, task) {
            Ok(objects) => Ok(objects),
            Err(RecoverFault::Wide { .. }) => Err(Stop::TooWide),
            Err(RecoverFault::NoMemory) => Err(Stop::NoMemory),
        },
        Err(RoomFault::Failed) => Err(Stop::RoomFault),
        Err(RoomFault::NoMemory) => Err(Stop::NoMemory),
    }
}

/// Recovers what the first archives hold in their first slots, and lists it.
///
/// The blocks are read once and not copied: they take 1,024 bytes each, in one vector that doubles
/// as it grows, until the objects are found.
pub(crate) fn recover_files<K: Sink, R: Room>(
    alloc: Global,
    task: &Recover,
    sink: &mut K,
    room: &mut R,
) -> Status
    requires task { IsRecovery task.now }
    requires home { IsHome (R.meaning room.old) }
    ensures recovers { Recovers task.now (room_transition R.A.account R.meaning room.old room.new)
        (transition K.account sink.old sink.new) result }
    ensures home { IsHome (R.meaning room.new) }
    ensures sink { Faults K.account sink.old sink.new (result ≡ Status.SinkFault) }
    ensures room { Caused (R.meaning room.old).faults (R.meaning room.new).faults
        (result ≡ Status.RoomFault) }
    ensures own { FailsOr (room_transition R.A.account R.meaning room.old room.new)
        (SomeFailed task.now.archives (R.meaning room.old) (R.meaning room.new))
        (result ≡ Status.RoomFault) }
{
    match find_objects(alloc, task, room) {
        Ok(objects) => list_objects(alloc, &objects, sink),
        Err(stop) => refuse(alloc, stop, sink),
    }
}
