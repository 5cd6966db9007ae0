//! Lost blocks are found again.
ghost use Rattle.std.specs.Prelude.{IfOk, OnOk};
ghost use Rattle.pot_image.specs.Images.{contents};
ghost use Rattle.pot_image.specs.Rules.{FitsTogether};
ghost use Rattle.pot_recheck.specs.Rechecking.{ImageWasRead};
ghost use Rattle.pots_rescue.specs.Finding.{FindsIn, IsImageWritten, KeepsRules};

use crate::bringing::read_sound;
use crate::opening::open_to_look;
use pot_bytes::{Block, NoMemory};
use pot_files::FileArchive;
use pot_image::{Image, ImageFault, read_image, write_image};
use pot_outside::{Desk, Failed};
use pot_recheck::{Unsound, find_again, unsound_slots};
use pots_vault::{MOST_ARCHIVES, Stop, Visit, image, image_bytes};
use std::alloc::{AllocError, Global};

/// Looks at each slot that the image calls Lost or Broken. Where an archive holds the block of such
/// a slot's digest, the slot is Live in the image that is answered and that the desk then has, and
/// it is told of how many and in which archives. Where none is found the desk stays as it is.
pub fn find_lost(visit: &mut Visit, old: Image) -> Result<Image, Stop> {
    let lost = unsound_slots(visit.alloc(), &old)?;
    if lost.is_empty() {
        return Ok(old);
    }
    let found = found_among(visit, &lost)?;
    if found.is_empty() {
        return Ok(old);
    }
    drop(old);
    replace_desk(visit, &found)?;
    tell_found(visit, &found)?;
    image(visit)
}

/// The bytes of the image that bytes are, in which these slots are Live again that were Lost or
/// Broken. None where the bytes are no image.
///
/// # Errors
/// Want of memory alone.
pub fn found_bytes(
    alloc: Global,
    bytes: &[u8],
    found: &[Unsound],
) -> Result<Option<Vec<u8>>, NoMemory>
    ensures { IfOk result (FindsIn bytes.now found.now) }
{
    match read_image(alloc, bytes) {
        Ok(image) => Ok(Some(write_found(alloc, image, found)?)),
        Err(ImageFault::NoMemory) => Err(NoMemory),
        Err(_) => Ok(None),
    }
}

/// The bytes of the image in which these slots are Live again.
fn write_found(alloc: Global, image: Image, found: &[Unsound]) -> Result<Vec<u8>, NoMemory>
    requires fits { FitsTogether (contents image) }
    requires read { ImageWasRead image }
    ensures bytes { IfOk result (λ bytes. IsImageWritten found.now image bytes.items) }
    ensures rules { OnOk result (KeepsRules found.now image) }
{
    let mut image = image;
    find_again(alloc, &mut image, found)?;
    write_image(alloc, &image)
}

// Those of the slots whose archives hold the blocks of their digests, by archive.
fn found_among(visit: &Visit, lost: &[Unsound]) -> Result<Vec<Unsound>, AllocError> {
    let mut found = Vec::new(visit.alloc());
    for number in 0..MOST_ARCHIVES {
        if lost.iter().any(|slot| slot.archive == number) {
            append_found(visit, lost, number, &mut found)?;
        }
    }
    Ok(found)
}

// Those of an archive.
fn append_found(
    visit: &Visit,
    lost: &[Unsound],
    number: u32,
    found: &mut Vec<Unsound>,
) -> Result<(), AllocError> {
    let Some(mut blocks) = open_to_look(visit, number)? else {
        return Ok(());
    };
    for slot in lost {
        if slot.archive == number && holds(&mut blocks, slot) {
            found.push(*slot)?;
        }
    }
    Ok(())
}

// Whether the archive holds the block of the slot's digest.
fn holds(blocks: &mut FileArchive, slot: &Unsound) -> bool {
    let mut block = Block::zero();
    matches!(
        read_sound(blocks, slot.stripe, slot.digest, &mut block),
        Ok(true)
    )
}

// Puts the image in which these slots are Live in the place of the desk's.
fn replace_desk(visit: &mut Visit, found: &[Unsound]) -> Result<(), Stop> {
    let bytes = image_bytes(visit)?;
    let Some(bytes) = found_bytes(visit.alloc(), &bytes, found)? else {
        return Ok(());
    };
    match visit.desk.replace(&bytes) {
        Ok(()) => Ok(()),
        Err(Failed) => Err(visit.refuse(
            6,
            "lost blocks were found again, and the desk could not be replaced: see that desk.pss can be written and that its disk has room",
        )),
    }
}

// Tells how many blocks were found again, and in which archives.
fn tell_found(visit: &Visit, found: &[Unsound]) -> Result<(), Stop> {
    let rt = &visit.rt;
    let count = found.len();
    let archives = archives_of(visit.alloc(), found)?;
    let _ = eprintln!(rt; "pots: {count} blocks that counted as lost were found again:{archives}");
    Ok(())
}

// The names of the archives of slots that stand by archive.
fn archives_of(alloc: Global, found: &[Unsound]) -> Result<String, AllocError> {
    let mut text = String::new(alloc);
    let mut last = None;
    for slot in found {
        if last != Some(slot.archive) {
            let number = slot.archive;
            text.push_str(format!(in alloc; " archive-{number}")?.as_str())?;
        }
        last = Some(slot.archive);
    }
    Ok(text)
}
