//! Archives in memory that are called by their numbers. The blocks repeat one byte.
use pot_bytes::Block;
use pot_doubles::LossyArchive;
use pot_outside::{Archive, Failed, Held, Shelf};
use pot_shelves::*;
use std::alloc::{AllocError, Global};
use std::test::Fail;

const A: u8 = 0x11;

const B: u8 = 0x22;

const C: u8 = 0x44;

/// A XOR B.
const AB: u8 = 0x33;

/// The block that repeats a byte.
fn block(byte: u8) -> Block {
    Block::from_bytes([byte; 1024])
}

/// The byte that a block repeats, if it does.
fn repeated(block: &Block) -> Option<u8> {
    let bytes = block.bytes();
    let first = bytes[0];
    if bytes.iter().all(|byte| *byte == first) {
        Some(first)
    } else {
        None
    }
}

/// An archive of this number without blocks, of which these calls fail.
fn shelf(alloc: Global, number: u32, fails: &[u32]) -> Result<Shelf<LossyArchive>, AllocError> {
    let fails = fails.to_vec(alloc)?;
    let archive = LossyArchive::new(alloc, fails, Vec::new(alloc));
    Ok(Shelf { number, archive })
}

fn take(alloc: Global, shelves: Vec<Shelf<LossyArchive>>) -> Result<Archives<LossyArchive>, Fail> {
    match Archives::take(alloc, shelves) {
        Ok(archives) => Ok(archives),
        Err(_) => Err(Fail::from("no memory")),
    }
}

/// A call of the archive of a number.
#[derive(Clone, Copy)]
enum Call {
    Has(u32),
    /// Of a slot.
    Read(u32, u32),
    /// Of a slot, the block that repeats a byte.
    Write(u32, u32, u8),
    /// Of a slot, times a weight, into the sum that repeats a byte.
    Fold(u32, u32, u8, u8),
    /// Of an archive without blocks.
    Bring(u32),
}

/// What a call answered.
#[derive(Clone, Copy, PartialEq, Eq, Debug)]
enum Answer {
    Has(bool),
    /// With the byte that the block repeats, which was of zeros before.
    Read(Result<Held, Failed>, Option<u8>),
    Write(Result<(), Failed>),
    /// With the byte that the sum repeats then.
    Fold(Result<Held, Failed>, Option<u8>),
    Brought(bool),
    /// No archive has the number, or one has it that is to come.
    Refused,
}

fn read(archives: &mut Archives<LossyArchive>, number: u32, slot: u32) -> Answer {
    if !archives.has(number) {
        return Answer::Refused;
    }
    let mut into = Block::zero();
    let held = archives.read(number, slot, &mut into);
    Answer::Read(held, repeated(&into))
}

fn write(archives: &mut Archives<LossyArchive>, number: u32, slot: u32, byte: u8) -> Answer {
    if !archives.has(number) {
        return Answer::Refused;
    }
    Answer::Write(archives.write(number, slot, &block(byte)))
}

fn fold(
    archives: &mut Archives<LossyArchive>,
    number: u32,
    slot: u32,
    weight: u8,
    byte: u8,
) -> Answer {
    if weight == 0 || !archives.has(number) {
        return Answer::Refused;
    }
    let mut sum = block(byte);
    let held = archives.fold(number, slot, weight, &mut sum);
    Answer::Fold(held, repeated(&sum))
}

fn bring(
    alloc: Global,
    archives: &mut Archives<LossyArchive>,
    number: u32,
) -> Result<Answer, AllocError> {
    let shelf = shelf(alloc, number, &[])?;
    if archives.has(shelf.number) {
        return Ok(Answer::Refused);
    }
    Ok(Answer::Brought(archives.bring(shelf).is_ok()))
}

/// Makes a call.
fn make(
    alloc: Global,
    archives: &mut Archives<LossyArchive>,
    call: Call,
) -> Result<Answer, AllocError> {
    match call {
        Call::Has(number) => Ok(Answer::Has(archives.has(number))),
        Call::Read(number, slot) => Ok(read(archives, number, slot)),
        Call::Write(number, slot, byte) => Ok(write(archives, number, slot, byte)),
        Call::Fold(number, slot, weight, byte) => Ok(fold(archives, number, slot, weight, byte)),
        Call::Bring(number) => bring(alloc, archives, number),
    }
}

/// Each call reaches the archive of its number alone, one that comes too, and all are handed out in
/// the order in which they came. Twice 0x80 is 0x1b.
#[test]
fn archives_by_number(rt: HostRuntime) -> Result<(), Fail> {
    let alloc = rt.alloc();
    let mut shelves = Vec::new(alloc);
    shelves.push(shelf(alloc, 7, &[])?)?;
    shelves.push(shelf(alloc, 4, &[3])?)?;
    let mut archives = take(alloc, shelves)?;
    let calls = [
        (Call::Has(7), Answer::Has(true)),
        (Call::Has(9), Answer::Has(false)),
        (Call::Write(7, 2, A), Answer::Write(Ok(()))),
        (Call::Write(4, 2, 0x80), Answer::Write(Ok(()))),
        (Call::Read(7, 2), Answer::Read(Ok(Held::Held), Some(A))),
        (Call::Read(4, 2), Answer::Read(Ok(Held::Held), Some(0x80))),
        (Call::Read(7, 3), Answer::Read(Ok(Held::Absent), Some(0))),
        (
            Call::Fold(4, 2, 2, 0),
            Answer::Fold(Ok(Held::Held), Some(0x1b)),
        ),
        (
            Call::Fold(7, 2, 1, B),
            Answer::Fold(Ok(Held::Held), Some(AB)),
        ),
        (
            Call::Fold(7, 0, 1, B),
            Answer::Fold(Ok(Held::Absent), Some(B)),
        ),
        (Call::Read(4, 2), Answer::Read(Err(Failed), Some(0))),
        (Call::Bring(4), Answer::Refused),
        (Call::Read(9, 2), Answer::Refused),
        (Call::Bring(9), Answer::Brought(true)),
        (Call::Has(9), Answer::Has(true)),
        (Call::Write(9, 2, C), Answer::Write(Ok(()))),
        (Call::Read(9, 2), Answer::Read(Ok(Held::Held), Some(C))),
    ];
    for (call, answer) in &calls {
        assert_eq!(rt; make(alloc, &mut archives, *call)?, *answer);
    }
    let mut found = Vec::new(alloc);
    for shelf in &archives.hand_out() {
        let byte = shelf.archive.block(2).and_then(|block| repeated(block));
        found.push((shelf.number, byte, shelf.archive.marks().faults))?;
    }
    let wanted = [(7, Some(A), 0), (4, Some(0x80), 1), (9, Some(C), 0)];
    assert_eq!(rt; found.as_slice(), wanted.as_slice());
    Ok(())
}
