//! The blocks of a split under way, one at a time.
ghost use Rattle.std.specs.Prelude.{◌≡◌, ◌<◌, ◌≤◌, ◌*◌, ◌↔◌, Some, IfOk, IsTrue, length, slice_get};
ghost use Rattle.pot_bytes.specs.Lists.{AreBytes};
ghost use Rattle.pot_bytes.specs.Rack.{IsGeometry};
ghost use Rattle.pot_object.specs.Pieces.{pieces_of};
ghost use Rattle.pot_shard.specs.FileBlocks.{blocks_at};
ghost use Rattle.pot_shard.specs.FileLaws.{IsStore};
ghost use Rattle.pot_world.specs.World.{blocks_of};
ghost use Rattle.pot_actors.specs.Splits.{under_way_of};

use crate::split::OpenSplit;
use pot_bytes::{Block, Bytes, Geometry, NoMemory};
use pot_object::{count_pieces, cut_file};
use pot_shard::{id_in, piece_blocks, piece_len, random_len};
use std::alloc::Global;

/// Each of these is a byte. It does nothing.
fn are_bytes(bytes: &[u8])
    ensures { AreBytes bytes.now }
{
    let _first = bytes.first();
}

/// Whether a file and random bytes may be stored so.
pub(crate) fn is_store(geometry: &Geometry, file: &Bytes, random: &Bytes) -> bool
    requires { IsGeometry geometry.now }
    ensures { IsTrue result ↔ IsStore geometry.now file.now random.now }
{
    are_bytes(file.as_slice());
    are_bytes(random.as_slice());
    match cut_file(file.as_slice().len() as u64) {
        Ok(pieces) => random.as_slice().len() as u64 == random_len(pieces, geometry),
        Err(_) => false,
    }
}

/// How many blocks a split has.
pub(crate) fn count_blocks(split: &OpenSplit) -> usize
    requires { IsStore split.now.geometry split.now.file split.now.random }
    ensures value { result ≡ length (blocks_of (under_way_of split.now)) }
    ensures few { result ≤ 131072 }
{
    let pieces = count_pieces(split.file.as_slice().len() as u64) as usize;
    pieces * (usize::from(split.geometry.fragments) * usize::from(split.geometry.shards))
}

/// The blocks of one piece of a split.
fn piece_at(split: &OpenSplit, piece: usize, out: &mut [Block])
    requires store { IsStore split.now.geometry split.now.file split.now.random }
    requires exists { piece < pieces_of (length split.now.file) }
    requires room { length out.old ≡ split.now.geometry.fragments * split.now.geometry.shards }
    ensures { out.new ≡ blocks_at split.now.geometry split.now.file split.now.random piece }
{
    let random = split.random.as_slice();
    let size = piece_len(&split.geometry);
    let from = 16 + piece * size;
    let id = id_in(random);
    piece_blocks(
        &id,
        split.file.as_slice(),
        piece as u32,
        &split.geometry,
        &random[from..from + size],
        out,
    );
}

/// The block of this number.
pub(crate) fn block_at(alloc: Global, split: &OpenSplit, at: usize) -> Result<Block, NoMemory>
    requires store { IsStore split.now.geometry split.now.file split.now.random }
    requires within { at < length (blocks_of (under_way_of split.now)) }
    ensures { IfOk result (λ b. slice_get (blocks_of (under_way_of split.now)) at ≡ Some b) }
{
    let count = usize::from(split.geometry.fragments) * usize::from(split.geometry.shards);
    let mut blocks = vec![in alloc; Block::zero(); count]?;
    piece_at(split, at / count, &mut blocks);
    Ok(blocks[at % count])
}
