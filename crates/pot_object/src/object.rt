ghost use Rattle.std.specs.Prelude.{◌≡◌, ◌≤◌, ◌<◌, ◌↔◌, ◌-◌, ◌++◌, ℕ, List, length, take, drop};
ghost use Rattle.std.specs.Prelude.{replicate, IsTrue, MatchOption};
ghost use Rattle.pot_object.specs.Pieces.{longest, object_size, part_of, pieces_of};
ghost use Rattle.pot_object.specs.Objects.{head_at, head_bytes, head_of, object, part_length};
ghost use Rattle.pot_object.specs.Objects.{IsObjectHead, IsObject};

use crate::pieces::{LONGEST, OBJECT, PIECE, count_pieces};
use crate::sealing::{is_sealed, is_zeros, seal};
use byteorder::{BigEndian, ByteOrder};

/// What an object says of the piece that it carries.
#[derive(Clone, Copy, PartialEq, Eq, Debug)]
pub struct ObjectHead {
    pub file_id: [u8; 16],
    /// The piece's number, from 0.
    pub piece: u32,
    /// The number of pieces of the file.
    pub pieces: u32,
    /// The length of the file in bytes.
    pub length: u64,
}

/// The laws of objects: what is written is an object of its head, with its part of the file; an
/// object has one head, and a head and a part have one object.
pub fn object_laws()
    ensures written { (id file : List ℕ) (piece : ℕ) → length id ≡ 16 → length file ≤ longest
        → piece < pieces_of (length file)
        → IsObject (head_of id file piece) (object id file piece) }
    ensures part { (id file : List ℕ) (piece : ℕ) → length id ≡ 16
        → take (part_length (head_of id file piece)) (drop 64 (object id file piece))
        ≡ part_of file piece }
    ensures bytes { (id file : List ℕ) (piece : ℕ) → length id ≡ 16
        → length (object id file piece) ≡ object_size }
    ensures one_head { (h g : ObjectHead) (bytes : List ℕ) → IsObject h bytes → IsObject g bytes
        → h ≡ g }
    ensures one_spelling { (h : ObjectHead) (a b : List ℕ) → IsObject h a → IsObject h b
        → take (part_length h) (drop 64 a) ≡ take (part_length h) (drop 64 b) → a ≡ b }
{}

/// Writes the object of one piece of a file.
pub fn write_object(file_id: &[u8; 16], file: &[u8], piece: u32, out: &mut [u8; OBJECT])
    requires fits { length file.now ≤ longest }
    requires exists { piece < pieces_of (length file.now) }
    ensures { out.new ≡ object file_id.now file.now piece }
{
    let length = file.len() as u64;
    let head = ObjectHead {
        file_id: *file_id,
        piece,
        pieces: count_pieces(length),
        length,
    };
    let from = piece as usize * PIECE as usize;
    let part = &file[from..file.len().min(from + PIECE as usize)];
    put_head(&head, out);
    put_part(part, &mut out[64..]);
    seal(out);
}

/// Reads an object. None exactly where the bytes are none.
pub fn read_object(bytes: &[u8; OBJECT]) -> Option<ObjectHead>
    ensures { MatchOption result ((h : ObjectHead) → ¬ IsObject h bytes.now)
        (λ h. IsObject h bytes.now) }
{
    let head = head_in(bytes);
    if !is_head(&head) {
        return None;
    }
    let end = 64 + part_len(&head);
    if is_sealed(bytes) && is_zeros(&bytes[end..]) {
        Some(head)
    } else {
        None
    }
}

/// The head that stands in bytes 0..32.
pub fn head_in(bytes: &[u8]) -> ObjectHead
    requires { 32 ≤ length bytes.now }
    ensures { result ≡ head_at bytes.now }
{
    let mut file_id = [0; 16];
    file_id.copy_from_slice(&bytes[..16]);
    ObjectHead {
        file_id,
        piece: BigEndian::read_u32(&bytes[16..]),
        pieces: BigEndian::read_u32(&bytes[20..]),
        length: BigEndian::read_u64(&bytes[24..]),
    }
}

/// Whether some file has this head.
fn is_head(head: &ObjectHead) -> bool
    ensures { IsTrue result ↔ IsObjectHead head.now }
{
    head.length <= LONGEST && head.pieces == count_pieces(head.length) && head.piece < head.pieces
}

/// How many bytes of the file the piece carries.
pub fn part_len(head: &ObjectHead) -> usize
    requires { IsObjectHead head.now }
    ensures { result ≡ part_length head.now }
{
    (head.length - u64::from(head.piece) * PIECE).min(PIECE) as usize
}

/// Writes a head into bytes 0..32.
fn put_head(head: &ObjectHead, out: &mut [u8])
    requires { 32 ≤ length out.old }
    ensures { out.new ≡ head_bytes head.now ++ drop 32 out.old }
{
    out[..16].copy_from_slice(&head.file_id);
    BigEndian::write_u32(&mut out[16..], head.piece);
    BigEndian::write_u32(&mut out[20..], head.pieces);
    BigEndian::write_u64(&mut out[24..], head.length);
}

/// Writes a part and zeros behind it.
fn put_part(part: &[u8], out: &mut [u8])
    requires { length part.now ≤ length out.old }
    ensures { out.new ≡ part.now ++ replicate (length out.old - length part.now) 0 }
{
    out[..part.len()].copy_from_slice(part);
    out[part.len()..].fill(0);
}
