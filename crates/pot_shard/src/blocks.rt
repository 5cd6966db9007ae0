//! The shard blocks of a file, piece by piece.
ghost use Rattle.std.specs.Prelude.{◌≡◌, ◌≤◌, ◌<◌, ◌+◌, ◌-◌, ◌*◌, ◌%◌, ◌^◌, ◌++◌, length, map};
ghost use Rattle.std.specs.Prelude.{take, IfOk};
ghost use Rattle.pot_bytes.specs.Sums.{xor};
ghost use Rattle.pot_split.specs.Secrecy.{meaning, IsRows};
ghost use Rattle.pot_bytes.specs.Rack.{IsGeometry};
ghost use Rattle.pot_object.specs.Pieces.{content_size, longest, object_size, pieces_of};
ghost use Rattle.pot_shard.specs.FileBlocks.{content_of, content_shards, file_blocks, fragment_len};
ghost use Rattle.pot_shard.specs.FileBlocks.{fragment_shards, fragments_of, object_shards, pads_in};
ghost use Rattle.pot_shard.specs.FileBlocks.{part_at, piece_blocks, piece_len, random_len};
ghost use Rattle.pot_shard.specs.FileBlocks.{shard_of};
ghost use Rattle.pot_shard.specs.Shards.{shard_bytes};

use crate::random::{fragment_len, head_len, piece_len, read_names, rows_len};
use crate::ring::ring_of;
use crate::shard::{Shard, encode_shard};
use pot_bytes::{Block, Geometry, NoMemory};
use pot_object::{CONTENT, OBJECT, count_pieces, write_content, write_object};
use pot_split::{secrecy_split, share_out};
use std::alloc::Global;

/// The blocks of one piece of a file, by fragment and point. `random` is the random bytes of the
/// piece.
///
/// A store that puts a file piece by piece holds the blocks of one piece alone. It takes no memory.
pub fn piece_blocks(
    file_id: &[u8; 16],
    file: &[u8],
    piece: u32,
    geometry: &Geometry,
    random: &[u8],
    out: &mut [Block],
)
    requires fits { length file.now ≤ longest }
    requires exists { piece < pieces_of (length file.now) }
    requires geometry { IsGeometry geometry.now }
    requires random { length random.now ≡ piece_len geometry.now }
    requires room { length out.old ≡ geometry.now.fragments * geometry.now.shards }
    ensures { out.new ≡ piece_blocks geometry.now file_id.now file.now piece random.now }
{
    let mut object = [0; OBJECT];
    write_object(file_id, file, piece, &mut object);
    object_blocks(&object, geometry, random, out);
}

/// The blocks of a file, by piece, fragment and point. `random` is the random bytes of its store.
pub fn blocks_of(
    alloc: Global,
    file: &[u8],
    geometry: &Geometry,
    random: &[u8],
) -> Result<Vec<Block>, NoMemory>
    requires fits { length file.now ≤ longest }
    requires geometry { IsGeometry geometry.now }
    requires random { length random.now ≡ random_len (pieces_of (length file.now)) geometry.now }
    ensures { IfOk result (λ v. v.items ≡ file_blocks geometry.now file.now random.now) }
{
    let count = count_pieces(file.len() as u64) as usize * count_blocks(geometry);
    let mut blocks = vec![in alloc; Block::zero(); count]?;
    file_blocks(file, geometry, random, &mut blocks);
    Ok(blocks)
}

/// The blocks of all pieces of a file, one after another.
fn file_blocks(file: &[u8], geometry: &Geometry, random: &[u8], out: &mut [Block])
    requires fits { length file.now ≤ longest }
    requires geometry { IsGeometry geometry.now }
    requires random { length random.now ≡ random_len (pieces_of (length file.now)) geometry.now }
    requires room { length out.old
        ≡ pieces_of (length file.now) * (geometry.now.fragments * geometry.now.shards) }
    ensures { out.new ≡ file_blocks geometry.now file.now random.now }
{
    let id = id_in(random);
    let count = count_blocks(geometry);
    let size = piece_len(geometry);
    for piece in 0..count_pieces(file.len() as u64) {
        let at = piece as usize * count;
        let from = 16 + piece as usize * size;
        let own = &random[from..from + size];
        piece_blocks(&id, file, piece, geometry, own, &mut out[at..at + count]);
    }
}

/// The id that stands first in the random bytes of a file or a piece: their first 16 bytes, which
/// are the id of the file or of the object of the piece.
pub fn id_in(random: &[u8]) -> [u8; 16]
    requires { 16 ≤ length random.now }
    ensures { result ≡ take 16 random.now }
{
    let mut id = [0; 16];
    id.copy_from_slice(&random[..16]);
    id
}

/// How many blocks a piece has.
fn count_blocks(geometry: &Geometry) -> usize
    requires { IsGeometry geometry.now }
    ensures value { result ≡ geometry.now.fragments * geometry.now.shards }
    ensures few { result ≤ 128 }
{
    usize::from(geometry.fragments) * usize::from(geometry.shards)
}

/// The blocks of an object, by fragment and point.
fn object_blocks(object: &[u8; OBJECT], geometry: &Geometry, random: &[u8], out: &mut [Block])
    requires geometry { IsGeometry geometry.now }
    requires random { length random.now ≡ piece_len geometry.now }
    requires room { length out.old ≡ geometry.now.fragments * geometry.now.shards }
    ensures { out.new ≡ map shard_bytes (object_shards geometry.now object.now random.now) }
{
    let last = last_fragment(object, &random[16..head_len(geometry)]);
    let count = usize::from(geometry.shards);
    for number in 0..geometry.fragments {
        let at = usize::from(number) * count;
        fragment_blocks(&last, geometry, random, number, &mut out[at..at + count]);
    }
}

/// The content of the fragment of this number, from 0, of an object. `random` is the random bytes
/// of its piece.
pub fn fragment_content(
    object: &[u8; OBJECT],
    geometry: &Geometry,
    random: &[u8],
    number: u8,
) -> [u8; CONTENT]
    requires geometry { IsGeometry geometry.now }
    requires random { length random.now ≡ piece_len geometry.now }
    requires exists { number < geometry.now.fragments }
    ensures { result
        ≡ content_of geometry.now (fragments_of geometry.now object.now random.now) random.now
        number }
{
    let last = last_fragment(object, &random[16..head_len(geometry)]);
    content_at(&last, geometry, random, number)
}

/// The fragment of an object that is no pad.
fn last_fragment(object: &[u8; OBJECT], pads: &[u8]) -> [u8; OBJECT]
    requires { IsRows object_size pads.now }
    ensures { result ≡ xor object.now (meaning object_size pads.now) }
{
    let mut last = [0; OBJECT];
    secrecy_split(object, pads, &mut last);
    last
}

/// The blocks of the fragment of this number, from 0, by point. `last` is the fragment that is no
/// pad.
fn fragment_blocks(
    last: &[u8; OBJECT],
    geometry: &Geometry,
    random: &[u8],
    number: u8,
    out: &mut [Block],
)
    requires geometry { IsGeometry geometry.now }
    requires random { length random.now ≡ piece_len geometry.now }
    requires exists { number < geometry.now.fragments }
    requires room { length out.old ≡ geometry.now.shards }
    ensures { out.new
        ≡ map shard_bytes (fragment_shards geometry.now
        (pads_in geometry.now random.now ++ last.now) random.now number) }
{
    let content = content_at(last, geometry, random, number);
    let size = fragment_len(geometry);
    let from = head_len(geometry) + usize::from(number) * size;
    content_blocks(&content, geometry, &random[from..from + size], out);
}

/// The content of the fragment of this number, from 0.
fn content_at(last: &[u8; OBJECT], geometry: &Geometry, random: &[u8], number: u8) -> [u8; CONTENT]
    requires geometry { IsGeometry geometry.now }
    requires random { length random.now ≡ piece_len geometry.now }
    requires exists { number < geometry.now.fragments }
    ensures { result
        ≡ content_of geometry.now (pads_in geometry.now random.now ++ last.now) random.now number }
{
    let id = id_in(random);
    let fragment = fragment_at(&random[16..head_len(geometry)], last, number);
    let mut content = [0; CONTENT];
    write_content(&id, number + 1, geometry.fragments, &fragment, &mut content);
    content
}

/// A pad, or the last fragment behind them.
fn fragment_at(pads: &[u8], last: &[u8; OBJECT], number: u8) -> [u8; OBJECT]
    requires rows { IsRows object_size pads.now }
    requires exists { number * object_size ≤ length pads.now }
    ensures { result ≡ part_at 0 object_size number (pads.now ++ last.now) }
{
    let mut fragment = *last;
    let at = usize::from(number) * OBJECT;
    if at < pads.len() {
        fragment.copy_from_slice(&pads[at..at + OBJECT]);
    }
    fragment
}

/// The blocks of the shards of a content, by point. `random` is the random bytes of its fragment.
fn content_blocks(content: &[u8; CONTENT], geometry: &Geometry, random: &[u8], out: &mut [Block])
    requires geometry { IsGeometry geometry.now }
    requires random { length random.now ≡ fragment_len geometry.now }
    requires room { length out.old ≡ geometry.now.shards }
    ensures { out.new ≡ map shard_bytes (content_shards geometry.now content.now random.now) }
{
    let count = usize::from(geometry.shards);
    let (rows, named) = random.split_at(rows_len(geometry));
    let mut names = [0; 16];
    read_names(named, &mut names[..count]);
    let mut pointers = [0; 16];
    ring_of(&names[..count], geometry.blur, &mut pointers[..count]);
    for place in 0..geometry.shards {
        let at = usize::from(place);
        out[at] = shard_block(content, geometry, rows, place, names[at], pointers[at]);
    }
}

/// The block of the shard of a content at the point after `place`.
fn shard_block(
    content: &[u8; CONTENT],
    geometry: &Geometry,
    rows: &[u8],
    place: u8,
    name: u64,
    pointer: u64,
) -> Block
    requires geometry { IsGeometry geometry.now }
    requires rows { length rows.now ≡ (geometry.now.need - 1) * content_size }
    requires exists { place < geometry.now.shards }
    requires cleared { pointer % 2 ^ geometry.now.blur ≡ 0 }
    ensures { result ≡ shard_bytes (shard_of geometry.now content.now rows.now place name pointer) }
{
    let mut share = [0; CONTENT];
    share_out(content, rows, place + 1, &mut share);
    let shard = Shard {
        x: place + 1,
        m: geometry.need,
        n: geometry.shards,
        blur: geometry.blur,
        name,
        pointer,
        share,
    };
    let mut block = Block::zero();
    encode_shard(&shard, &mut block);
    block
}
