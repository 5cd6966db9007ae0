//! Looks at the archives and at the length of the desk's image.
use crate::blocks::SLOTS;
use crate::fault::Fault;
use crate::outside::{ARCHIVES, Outside};
use crate::told::Told;
use crate::words::mark_of;
use pot_bytes::Block;
use pot_doubles::{LossyArchive, MemRoom};
use std::alloc::{AllocError, Global};

/// Puts a block behind the numbers of its archive and its slot.
fn append(bytes: &mut Vec<u8>, archive: u32, slot: u32, block: &Block) -> Result<(), AllocError> {
    bytes.extend_from_slice(&archive.to_be_bytes())?;
    bytes.extend_from_slice(&slot.to_be_bytes())?;
    bytes.extend_from_slice(block.bytes())
}

/// The blocks of an archive, each behind the numbers of its archive and its slot.
fn append_blocks(
    bytes: &mut Vec<u8>,
    number: u32,
    archive: &LossyArchive,
) -> Result<(), AllocError> {
    for slot in 0..SLOTS {
        if let Some(block) = archive.block(slot) {
            append(bytes, number, slot, block)?;
        }
    }
    Ok(())
}

/// The sums that an archive heard, each behind the numbers of its archive and its slot.
fn append_heard(
    bytes: &mut Vec<u8>,
    number: u32,
    archive: &LossyArchive,
) -> Result<(), AllocError> {
    for heard in archive.heard() {
        append(bytes, number, heard.slot, &heard.sum)?;
    }
    Ok(())
}

/// All blocks of a room.
fn blocks(alloc: Global, room: &MemRoom) -> Result<Vec<u8>, AllocError> {
    let mut bytes = Vec::new(alloc);
    for number in 0..ARCHIVES {
        if let Some(archive) = room.archive(number) {
            append_blocks(&mut bytes, number, archive)?;
        }
    }
    Ok(bytes)
}

/// All sums that the archives of a room heard.
fn heard(alloc: Global, room: &MemRoom) -> Result<Vec<u8>, AllocError> {
    let mut bytes = Vec::new(alloc);
    for number in 0..ARCHIVES {
        if let Some(archive) = room.archive(number) {
            append_heard(&mut bytes, number, archive)?;
        }
    }
    Ok(bytes)
}

/// How many blocks an archive holds.
fn count_blocks(archive: &LossyArchive) -> usize {
    (0..SLOTS)
        .filter(|slot| archive.block(*slot).is_some())
        .count()
}

/// The archives that hold blocks, each with how many.
fn holders(alloc: Global, room: &MemRoom) -> Result<String, AllocError> {
    let mut text = String::from_str(alloc, "room")?;
    for number in 0..ARCHIVES {
        if let Some(archive) = room.archive(number) {
            let count = count_blocks(archive);
            if 0 < count {
                text.push_str(&format!(in alloc; " {number}:{count}")?)?;
            }
        }
    }
    if text.as_str() == "room" {
        text.push_str(" empty")?;
    }
    Ok(text)
}

/// The length and the mark of some bytes.
fn measure(alloc: Global, word: &str, bytes: &[u8]) -> Result<String, AllocError> {
    let count = bytes.len();
    let mark = mark_of(alloc, bytes)?;
    format!(in alloc; "{word} {count} {mark}")
}

/// Tells what a look sees.
pub fn tell_look(
    alloc: Global,
    outside: &Outside,
    word: &str,
    told: &mut Told,
) -> Result<(), Fault> {
    match (word, &outside.image) {
        ("image", Some(image)) => told.outcome(&measure(alloc, word, image)?),
        ("image", None) => told.outcome("no image"),
        ("blocks", _) => told.outcome(&measure(alloc, word, &blocks(alloc, &outside.room)?)?),
        ("heard", _) => told.outcome(&measure(alloc, word, &heard(alloc, &outside.room)?)?),
        ("room", _) => told.outcome(&holders(alloc, &outside.room)?),
        _ => Err(Fault::NoStep),
    }
}
