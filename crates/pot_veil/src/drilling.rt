//! Two files of one length, of which the second gives all that is seen of the first, under other
//! random bytes.
ghost use Rattle.std.specs.Prelude.{◌≡◌, ◌≤◌, ◌<◌, ◌-◌, ◌*◌, ◌++◌, [], List, ℕ, length};
ghost use Rattle.std.specs.Prelude.{slice_index_or, true, IfOk, IfErr, if◌then◌else◌};
ghost use Rattle.sha2.specs.Hashers.{Holds256};
ghost use Rattle.pot_bytes.specs.Lists.{AreBytes};
ghost use Rattle.pot_bytes.specs.Rack.{IsGeometry};
ghost use Rattle.pot_object.specs.Objects.{object};
ghost use Rattle.pot_object.specs.Pieces.{longest, pieces_of};
ghost use Rattle.pot_shard.specs.FileBlocks.{piece_blocks, piece_len, random_len};
ghost use Rattle.pot_veil.specs.Drills.{is_seen_at, seen_in, seen_upto, text_of, IsDrillFault};
ghost use Rattle.pot_veil.specs.Drills.{IsReport};
ghost use Rattle.pot_veil.specs.Explained.{explained, explained_file};
ghost use Rattle.pot_veil.specs.Seen.{AreSeen};

use crate::explaining::explain;
use pot_bytes::{Block, Digest, Geometry};
use pot_object::{OBJECT, count_pieces, write_object};
use pot_shard::{id_in, piece_blocks, piece_len};
use sha2::{Digest as Hash, Sha256};
use std::alloc::{AllocError, Global};

/// What a drill saw.
#[derive(Clone, Copy, PartialEq, Eq, Debug)]
pub struct DrillReport {
    /// The number of pieces that were explained.
    pub pieces: u32,
    /// The number of seen blocks, each of which both files give.
    pub blocks: u32,
    /// The digest of these blocks one after another, by piece, fragment and point.
    pub digest: Digest,
}

/// Why nothing was explained.
#[derive(Clone, Copy, PartialEq, Eq, Debug)]
pub enum DrillFault {
    /// As many points of the fragment are seen as are needed, or more.
    Exposed { fragment: u8, have: u8, need: u8 },
    NoMemory,
}

impl From<AllocError> for DrillFault {
    ghost use Rattle.pot_veil.specs.declared.drilling.DrillFault.TheVariants.{NoMemory};

    ghost from_gives = { λ _ e. e ≡ NoMemory };

    fn from(_: AllocError) -> Self {
        DrillFault::NoMemory
    }
}

/// Explains every piece of a file by that of another file of its length, and counts and digests all
/// seen blocks, which both files give: those of every other fragment, and those of this one at the
/// seen points. The fragment's number is from 1.
///
/// With the files exchanged it gives the random bytes back (`file_laws`).
///
/// # Errors
/// `Exposed` exactly where as many points are seen as are needed or more, else `NoMemory`. The
/// random bytes are then as they were.
pub fn drill(
    alloc: Global,
    file: &[u8],
    other: &[u8],
    geometry: &Geometry,
    fragment: u8,
    seen: &[u8],
    random: &mut [u8],
) -> Result<DrillReport, DrillFault>
    requires fits { length file.now ≤ longest }
    requires same_length { length other.now ≡ length file.now }
    requires geometry { IsGeometry geometry.now }
    requires random { length random.old ≡ random_len (pieces_of (length file.now)) geometry.now }
    requires first { 1 ≤ fragment }
    requires last { fragment ≤ geometry.now.fragments }
    requires seen { AreSeen geometry.now.shards seen.now }
    ensures report { IfOk result (λ r. IsReport geometry.now file.now other.now (fragment - 1)
        seen.now random.old random.new r) }
    ensures fault { IfErr result (λ e. IsDrillFault geometry.now fragment seen.now random.old
        random.new
        e) }
{
    if seen.len() >= usize::from(geometry.need) {
        return Err(DrillFault::Exposed {
            fragment,
            have: seen.len() as u8,
            need: geometry.need,
        });
    }
    let count = usize::from(geometry.fragments) * usize::from(geometry.shards);
    let mut before = vec![in alloc; Block::zero(); count]?;
    let mut after = vec![in alloc; Block::zero(); count]?;
    let mut taken = Sha256::new();
    let blocks = drill_pieces(
        file,
        other,
        geometry,
        fragment,
        seen,
        random,
        &mut before,
        &mut after,
        &mut taken,
    );
    Ok(DrillReport {
        pieces: count_pieces(file.len() as u64),
        blocks,
        digest: Digest {
            bytes: taken.finalize(),
        },
    })
}

/// Explains all pieces one after another, and takes their seen blocks. The number is how many they
/// are.
fn drill_pieces(
    file: &[u8],
    other: &[u8],
    geometry: &Geometry,
    fragment: u8,
    seen: &[u8],
    random: &mut [u8],
    before: &mut [Block],
    after: &mut [Block],
    taken: &mut Sha256,
) -> u32
    requires fits { length file.now ≤ longest }
    requires same_length { length other.now ≡ length file.now }
    requires geometry { IsGeometry geometry.now }
    requires random { length random.old ≡ random_len (pieces_of (length file.now)) geometry.now }
    requires first { 1 ≤ fragment }
    requires last { fragment ≤ geometry.now.fragments }
    requires seen { AreSeen geometry.now.shards seen.now }
    requires few { length seen.now < geometry.now.need }
    requires room { length before.old ≡ geometry.now.fragments * geometry.now.shards }
    requires room_after { length after.old ≡ geometry.now.fragments * geometry.now.shards }
    ensures explained { random.new
        ≡ explained_file geometry.now file.now other.now (λ i. fragment - 1) (λ i. seen.now)
        random.old }
    ensures count { result
        ≡ length (seen_upto geometry.now file.now random.old (fragment - 1) seen.now
        (pieces_of (length file.now))) }
    ensures text { (m : List ℕ) → Holds256 taken.old m
        → Holds256 taken.new
        (m ++ text_of (seen_upto geometry.now file.now random.old (fragment - 1) seen.now
        (pieces_of (length file.now)))) }
{
    are_bytes(random);
    let id = id_in(random);
    let size = piece_len(geometry);
    let mut blocks = 0;
    for piece in 0..count_pieces(file.len() as u64) {
        let from = 16 + piece as usize * size;
        let own = &mut random[from..from + size];
        blocks += drill_piece(
            &id, file, other, piece, geometry, fragment, seen, own, before, after, taken,
        );
    }
    blocks
}

/// Whether the block at this place of a piece is seen.
fn is_seen(geometry: &Geometry, number: u8, seen: &[u8], place: usize) -> bool
    requires some { 1 ≤ geometry.now.shards }
    requires few { geometry.now.shards ≤ 16 }
    ensures { result ≡ is_seen_at geometry.now number seen.now place }
{
    let shards = usize::from(geometry.shards);
    let point = (place % shards) as u8 + 1;
    place / shards != usize::from(number) || seen.contains(&point)
}

/// Takes the bytes of a seen block that is the same in both. The number is how many were taken.
fn take_block(seen: bool, before: &Block, after: &Block, taken: &mut Sha256) -> u32
    requires kept { seen ≡ true → after.now ≡ before.now }
    ensures count { result ≡ (if seen then 1 else 0) }
    ensures text { (m : List ℕ) → Holds256 taken.old m
        → Holds256 taken.new (m ++ (if seen then before.now else [])) }
{
    if !seen || before.bytes() != after.bytes() {
        return 0;
    }
    taken.update(before.bytes());
    1
}

/// Compares the blocks of a piece that are seen, and takes those that are the same. The number is
/// how many they are.
fn compare(
    before: &[Block],
    after: &[Block],
    geometry: &Geometry,
    number: u8,
    seen: &[u8],
    taken: &mut Sha256,
) -> u32
    requires geometry { IsGeometry geometry.now }
    requires whole { length before.now ≡ geometry.now.fragments * geometry.now.shards }
    requires paired { length after.now ≡ length before.now }
    requires kept { (place : ℕ) → place < length before.now
        → is_seen_at geometry.now number seen.now place ≡ true
        → slice_index_or after.now place [] ≡ slice_index_or before.now place [] }
    ensures count { result ≡ length (seen_in geometry.now number seen.now before.now) }
    ensures few { result ≤ 128 }
    ensures text { (m : List ℕ) → Holds256 taken.old m
        → Holds256 taken.new (m ++ text_of (seen_in geometry.now number seen.now before.now)) }
{
    let mut same = 0;
    for place in 0..before.len() {
        let seen_here = is_seen(geometry, number, seen, place);
        same += take_block(seen_here, &before[place], &after[place], taken);
    }
    same
}

/// Explains the object of a piece by that of the other file.
fn explain_piece(
    id: &[u8; 16],
    file: &[u8],
    other: &[u8],
    piece: u32,
    geometry: &Geometry,
    fragment: u8,
    seen: &[u8],
    random: &mut [u8],
)
    requires fits { length file.now ≤ longest }
    requires same_length { length other.now ≡ length file.now }
    requires exists { piece < pieces_of (length file.now) }
    requires geometry { IsGeometry geometry.now }
    requires random { length random.old ≡ piece_len geometry.now }
    requires first { 1 ≤ fragment }
    requires last { fragment ≤ geometry.now.fragments }
    requires seen { AreSeen geometry.now.shards seen.now }
    requires few { length seen.now < geometry.now.need }
    ensures { random.new
        ≡ explained geometry.now (object id.now file.now piece) (object id.now other.now piece)
        (fragment - 1) seen.now random.old }
{
    let mut from = [0; OBJECT];
    write_object(id, file, piece, &mut from);
    let mut to = [0; OBJECT];
    write_object(id, other, piece, &mut to);
    explain(&from, &to, geometry, fragment, seen, random);
}

/// Each of these is a byte. It does nothing.
fn are_bytes(bytes: &[u8])
    ensures { AreBytes bytes.now }
{
    let _first = bytes.first();
}

/// Explains a piece, and compares its seen blocks before and after. The number is how many they
/// are.
fn drill_piece(
    id: &[u8; 16],
    file: &[u8],
    other: &[u8],
    piece: u32,
    geometry: &Geometry,
    fragment: u8,
    seen: &[u8],
    random: &mut [u8],
    before: &mut [Block],
    after: &mut [Block],
    taken: &mut Sha256,
) -> u32
    requires fits { length file.now ≤ longest }
    requires same_length { length other.now ≡ length file.now }
    requires exists { piece < pieces_of (length file.now) }
    requires geometry { IsGeometry geometry.now }
    requires random { length random.old ≡ piece_len geometry.now }
    requires first { 1 ≤ fragment }
    requires last { fragment ≤ geometry.now.fragments }
    requires seen { AreSeen geometry.now.shards seen.now }
    requires few { length seen.now < geometry.now.need }
    requires room { length before.old ≡ geometry.now.fragments * geometry.now.shards }
    requires room_after { length after.old ≡ geometry.now.fragments * geometry.now.shards }
    ensures explained { random.new
        ≡ explained geometry.now (object id.now file.now piece) (object id.now other.now piece)
        (fragment - 1) seen.now random.old }
    ensures count { result
        ≡ length (seen_in geometry.now (fragment - 1) seen.now
        (piece_blocks geometry.now id.now file.now piece random.old)) }
    ensures few { result ≤ 128 }
    ensures text { (m : List ℕ) → Holds256 taken.old m
        → Holds256 taken.new
        (m ++ text_of (seen_in geometry.now (fragment - 1) seen.now
        (piece_blocks geometry.now id.now file.now piece random.old))) }
{
    are_bytes(random);
    piece_blocks(id, file, piece, geometry, random, before);
    explain_piece(id, file, other, piece, geometry, fragment, seen, random);
    piece_blocks(id, other, piece, geometry, random, after);
    compare(before, after, geometry, fragment - 1, seen, taken)
}
