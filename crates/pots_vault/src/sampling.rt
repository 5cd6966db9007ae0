//! Whether an archive's file gives what it holds, and not the blocks of another archive, as where
//! links were mixed up: some of its blocks are read, and compared with what the desk knows of them.

ghost use Rattle.std.specs.Prelude.{◌<◌};
ghost use Rattle.pot_machine.specs.Table.{width};

use crate::archives::{archive_name, named};
use crate::new_file::open_to_read;
use crate::stop::Stop;
use crate::visit::Visit;
use pot_bytes::{Digest, digest_of};
use pot_image::Image;
use pot_machine::{GroupTable, SlotState};
use pot_report::Holding;
use std::alloc::{AllocError, Global};
use std::fs::File;
use std::io;
use std::io::ErrorKind;
use std::os::unix::fs::FileExt;

/// The bytes of a slot: one that is 1 where a block is held, and the block.
const SLOT: u64 = 1025;

/// How many blocks of an archive are compared at most.
const COMPARED: usize = 8;

/// A block that the desk knows: its slot, and its digest.
#[derive(Clone, Copy)]
struct KnownBlock {
    slot: u32,
    digest: Digest,
}

/// Ends the command where archives are silent: not one of the blocks that are looked at in them
/// could be read, as where a disk has died or a mount does not answer. A session would count all
/// that they hold as lost. Those that the command goes on without are passed over.
pub fn look_for_silent(visit: &Visit, image: &Image, all: &[Holding]) -> Result<(), Stop> {
    let mut list = String::new(visit.alloc());
    for holding in all.iter() {
        if visit.without.contains(&holding.archive) {
            continue;
        }
        if let Some(why) = silence_of(visit, image, holding)? {
            tell_silent(visit, holding.archive, &why, &mut list)?;
        }
    }
    if list.is_empty() {
        return Ok(());
    }
    let line = format!(in visit.alloc();
        "nothing was written: see that their disks and mounts answer, and give the command once more; only where these are gone for good give --without {list}: what they held counts as lost from then on, until it is mended as far as parity goes"
    )?;
    Err(visit.refuse(8, line.as_str()))
}

// Tells of an archive that is silent, and lists it.
fn tell_silent(visit: &Visit, number: u32, why: &io::Error, list: &mut String) -> Result<(), Stop> {
    let rt = &visit.rt;
    let name = named(visit, number)?;
    let _ = eprintln!(rt; "pots: {name} is there, and no block of it could be read: {why}");
    if !list.is_empty() {
        list.push_str(",")?;
    }
    list.push_str(format!(in visit.alloc(); "{number}")?.as_str())?;
    Ok(())
}

// Why the first read of an archive failed, where not one of them worked. A block that is not there
// was read.
fn silence_of(visit: &Visit, image: &Image, holding: &Holding) -> Result<Option<io::Error>, Stop> {
    let name = archive_name(visit.alloc(), holding.archive)?;
    let Some(file) = open_to_read(&visit.rt, name.as_str()) else {
        return Ok(None);
    };
    let blocks = blocks_of(visit.alloc(), image, holding)?;
    let step = blocks.len().div_ceil(COMPARED).max(1);
    let mut first = None;
    for part in blocks.chunks(step) {
        let Some(block) = part.first() else {
            continue;
        };
        match failure_at(&file, block.slot) {
            Some(why) => first = first.or(Some(why)),
            None => return Ok(None),
        }
    }
    Ok(first)
}

// Why a slot of a file could not be read. None where it could, or the file ends before it.
fn failure_at(file: &File, slot: u32) -> Option<io::Error> {
    let mut bytes = [0u8; SLOT as usize];
    match file.read_exact_at(&mut bytes, u64::from(slot) * SLOT) {
        Err(e) if e.kind() != ErrorKind::UnexpectedEof => Some(e),
        _ => None,
    }
}

/// Ends the command where the file of an archive has none of the blocks that are compared, and one
/// of another archive in the place of some. Those that the command goes on without are passed over.
pub fn look_for_strangers(visit: &Visit, image: &Image, all: &[Holding]) -> Result<(), Stop> {
    for holding in all.iter() {
        if visit.without.contains(&holding.archive) {
            continue;
        }
        if let Some(other) = stranger_in(visit, image, holding)? {
            return Err(mixed_up(visit, holding.archive, other)?);
        }
    }
    Ok(())
}

// The end of the command where an archive has the blocks of another one.
fn mixed_up(visit: &Visit, number: u32, other: u32) -> Result<Stop, Stop> {
    let name = named(visit, number)?;
    let line = format!(in visit.alloc();
        "{name} looks like archive-{other}, by its blocks: see where the links lead and which disk is mounted where; nothing was written"
    )?;
    Ok(visit.refuse(8, line.as_str()))
}

// The number of the archive whose blocks the file of another one has.
fn stranger_in(visit: &Visit, image: &Image, holding: &Holding) -> Result<Option<u32>, Stop> {
    let name = archive_name(visit.alloc(), holding.archive)?;
    let Some(file) = open_to_read(&visit.rt, name.as_str()) else {
        return Ok(None);
    };
    let blocks = blocks_of(visit.alloc(), image, holding)?;
    let step = blocks.len().div_ceil(COMPARED).max(1);
    let mut other = None;
    for part in blocks.chunks(step) {
        let Some(block) = part.first() else {
            continue;
        };
        let Some(digest) = digest_in(&file, block.slot) else {
            continue;
        };
        if digest == block.digest {
            return Ok(None);
        }
        if other.is_none() {
            other = archive_with(image, &digest);
        }
    }
    Ok(other)
}

// The digest of the block that a slot of a file holds, where it holds one.
fn digest_in(file: &File, slot: u32) -> Option<Digest> {
    let mut bytes = [0u8; SLOT as usize];
    file.read_exact_at(&mut bytes, u64::from(slot) * SLOT).ok()?;
    match bytes.as_slice() {
        [1, block @ ..] => Some(digest_of(block)),
        _ => None,
    }
}

// The blocks that should be in the file of an archive.
fn blocks_of(
    alloc: Global,
    image: &Image,
    holding: &Holding,
) -> Result<Vec<KnownBlock>, AllocError> {
    let Some(table) = image.tables.get(usize::from(holding.group)) else {
        return Ok(Vec::new(alloc));
    };
    let width = table.data_columns() + table.parity();
    if holding.column < width {
        blocks_in(alloc, table, holding.column, holding.archive)
    } else {
        Ok(Vec::new(alloc))
    }
}

// The blocks of a column that should be in the file of this archive.
fn blocks_in(
    alloc: Global,
    table: &GroupTable,
    column: u8,
    archive: u32,
) -> Result<Vec<KnownBlock>, AllocError>
    requires { column < width table.now }
{
    let mut blocks = Vec::new(alloc);
    for slot in 0..table.stripes() {
        if table.archive_of(slot, column) == archive {
            if let SlotState::Live(digest) = table.slot(slot, column) {
                blocks.push(KnownBlock { slot, digest })?;
            }
        }
    }
    Ok(blocks)
}

// The archive that has a block of this digest by the desk.
fn archive_with(image: &Image, digest: &Digest) -> Option<u32> {
    image
        .tables
        .iter()
        .find_map(|table| archive_in(table, digest))
}

fn archive_in(table: &GroupTable, digest: &Digest) -> Option<u32> {
    let width = table.data_columns() + table.parity();
    for column in 0..width {
        if let Some(archive) = archive_of_column(table, column, digest) {
            return Some(archive);
        }
    }
    None
}

fn archive_of_column(table: &GroupTable, column: u8, digest: &Digest) -> Option<u32>
    requires { column < width table.now }
{
    for stripe in 0..table.stripes() {
        if table.slot(stripe, column) == SlotState::Live(*digest) {
            return Some(table.archive_of(stripe, column));
        }
    }
    None
}
