//! The file of a record, from the blocks that can be read.
ghost use Rattle.std.specs.Prelude.{◌<◌, IfOk};
ghost use Rattle.pot_machine.specs.Table.{width};
ghost use Rattle.pots_readings.specs.Readings.{IsOfRecord};

use crate::shares::Shares;
use crate::shelf::Shelf;
use pot_bytes::{Block, Digest, Place, digest_of, xor_into};
use pot_index::Record;
use pot_machine::{GroupTable, SlotState};
use pot_object::{CONTENT, OBJECT, PIECE};
use std::alloc::{AllocError, Global};

/// Why a file was not read.
#[derive(Clone, Copy, PartialEq, Eq, Debug)]
pub enum ReadFault {
    /// Of this fragment, from 1, of this piece, from 0, too few shares are here.
    Lost {
        piece: u32,
        fragment: u8,
        have: u8,
        need: u8,
    },
    /// What was read has this digest, or another length than the record.
    Odd {
        found: Digest,
    },
    NoMemory,
}

impl From<AllocError> for ReadFault {
    fn from(_: AllocError) -> ReadFault {
        ReadFault::NoMemory
    }
}

/// Reads the file of a record: of each fragment as many blocks as give it back, each compared with
/// the digest that its group's table has for its place. A block that is not there is made anew from
/// the others of its stripe and the first parity block, where these are there.
///
/// # Errors
/// `Lost` at the first fragment of which too few shares are here. `Odd` where what was read is not
/// the file of the record.
pub fn read_file<S: Shelf>(
    alloc: Global,
    shelf: &S,
    tables: &[GroupTable],
    record: &Record,
) -> Result<Vec<u8>, ReadFault>
    ensures { IfOk result (λ bytes. IsOfRecord record.now bytes.items) }
{
    let mut bytes = Vec::new(alloc);
    read_pieces(alloc, shelf, tables, record, &mut bytes)?;
    let found = digest_of(&bytes);
    if bytes.len() as u64 == record.length && found.bytes == record.digest.bytes {
        Ok(bytes)
    } else {
        Err(ReadFault::Odd { found })
    }
}

/// Reads the pieces one after another, and cuts the last one to the length of the file.
fn read_pieces<S: Shelf>(
    alloc: Global,
    shelf: &S,
    tables: &[GroupTable],
    record: &Record,
    bytes: &mut Vec<u8>,
) -> Result<(), ReadFault> {
    let mut shares = Shares::none(alloc);
    let mut left = record.length;
    for piece in 0..record.length.div_ceil(PIECE).max(1) {
        let object = read_piece(shelf, tables, record, piece, &mut shares)?;
        let part = usize::try_from(left.min(PIECE)).unwrap_or(0);
        bytes.extend_from_slice(object.get(64..64 + part).unwrap_or(b""))?;
        left = left.saturating_sub(PIECE);
    }
    Ok(())
}

/// The object of a piece, from 0: its fragments, XORed.
fn read_piece<S: Shelf>(
    shelf: &S,
    tables: &[GroupTable],
    record: &Record,
    piece: u64,
    shares: &mut Shares,
) -> Result<[u8; OBJECT], ReadFault> {
    let mut object = [0; OBJECT];
    for fragment in 0..record.geometry.fragments {
        let content = read_fragment(shelf, tables, record, (piece, fragment), shares)?;
        xor_into(&mut object, &content[64..]);
    }
    Ok(object)
}

/// The content of a fragment, from 0, of a piece, from 0.
fn read_fragment<S: Shelf>(
    shelf: &S,
    tables: &[GroupTable],
    record: &Record,
    at: (u64, u8),
    shares: &mut Shares,
) -> Result<[u8; CONTENT], ReadFault> {
    shares.clear();
    for x in 0..record.geometry.shards {
        if shares.count() >= usize::from(record.geometry.need) {
            break;
        }
        let Some(block) = block_at_point(shelf, tables, record, at, x) else {
            continue;
        };
        let mut share = [0; CONTENT];
        share.copy_from_slice(&block.bytes()[32..]);
        shares.keep(x.saturating_add(1), &share)?;
    }
    if shares.count() < usize::from(record.geometry.need) {
        return Err(lost(record, at, shares));
    }
    let mut content = [0; CONTENT];
    shares.join(&mut content);
    Ok(content)
}

// Which fragment was not had.
fn lost(record: &Record, (piece, fragment): (u64, u8), shares: &Shares) -> ReadFault {
    ReadFault::Lost {
        piece: u32::try_from(piece).unwrap_or(u32::MAX),
        fragment: fragment.saturating_add(1),
        have: u8::try_from(shares.count()).unwrap_or(u8::MAX),
        need: record.geometry.need,
    }
}

// The block of a point, from 0, of a fragment.
fn block_at_point<S: Shelf>(
    shelf: &S,
    tables: &[GroupTable],
    record: &Record,
    (piece, fragment): (u64, u8),
    x: u8,
) -> Option<Block> {
    let number = piece
        .saturating_mul(u64::from(record.geometry.fragments))
        .saturating_add(u64::from(fragment))
        .saturating_mul(u64::from(record.geometry.shards))
        .saturating_add(u64::from(x));
    let number = usize::try_from(number).ok()?;
    let place = record.places.as_slice().get(number)?;
    let table = tables.get(usize::from(place.group))?;
    block_at_place(shelf, table, place)
}

// The block of a place, from its archive or from the others of its stripe.
fn block_at_place<S: Shelf>(shelf: &S, table: &GroupTable, place: &Place) -> Option<Block> {
    let Place { column, stripe, .. } = *place;
    if stripe >= table.stripes() || column >= table.data_columns() + table.parity() {
        return None;
    }
    match seen_at(shelf, table, stripe, column) {
        Seen::Block(block) => Some(block),
        Seen::Nothing => None,
        Seen::Missing(digest) => made_anew(shelf, table, stripe, column, digest),
    }
}

// What is seen at a slot.
#[derive(Clone, Copy)]
enum Seen {
    /// The block that was put there.
    Block(Block),
    /// Nothing was ever put there.
    Nothing,
    /// The block of this digest was put there, and it is not here.
    Missing(Digest),
}

// Looks at a slot. Whether the table calls the block lost makes no difference: its digest stays.
fn seen_at<S: Shelf>(shelf: &S, table: &GroupTable, stripe: u32, column: u8) -> Seen
    requires stripe { stripe < table.now.stripes }
    requires column { column < width table.now }
{
    let digest = match table.slot(stripe, column) {
        SlotState::Void => return Seen::Nothing,
        SlotState::Live(digest) => digest,
        SlotState::Lost(digest) => digest,
        SlotState::Broken(digest) => digest,
    };
    match shelf.block(table.archive_of(stripe, column), stripe) {
        Some(block) if digest_of(block.bytes()) == digest => Seen::Block(block),
        _ => Seen::Missing(digest),
    }
}

// The block of this digest, from the other data blocks of its stripe and the first parity block.
// None where one of these is not here, or where they give another block.
fn made_anew<S: Shelf>(
    shelf: &S,
    table: &GroupTable,
    stripe: u32,
    column: u8,
    digest: Digest,
) -> Option<Block>
    requires { stripe < table.now.stripes }
{
    let mut sum = Block::zero();
    let width = table.data_columns() + table.parity();
    for other in 0..width {
        if other == column || other > table.data_columns() {
            continue;
        }
        match seen_at(shelf, table, stripe, other) {
            Seen::Block(block) => sum.xor(&block),
            Seen::Nothing => {}
            Seen::Missing(_) => return None,
        }
    }
    if digest_of(sum.bytes()) == digest {
        Some(sum)
    } else {
        None
    }
}
