ghost use Rattle.std.specs.Prelude.{◌≡◌, ◌≤◌, ◌↔◌, ◌∷◌, ◌++◌, ℕ, List, length, take, drop};
ghost use Rattle.std.specs.Prelude.{replicate, IsTrue, MatchOption};
ghost use Rattle.pot_object.specs.Contents.{content, content_bytes, fragment_head_at};
ghost use Rattle.pot_object.specs.Contents.{fragment_head_bytes, IsContent, IsFragmentHead};
ghost use Rattle.pot_object.specs.Pieces.{object_size};

use crate::pieces::{CONTENT, OBJECT};
use crate::sealing::{is_sealed, is_zeros, seal};

/// What a content says of the fragment that it carries.
#[derive(Clone, Copy, PartialEq, Eq, Debug)]
pub struct FragmentHead {
    pub object_id: [u8; 16],
    /// The fragment's number, from 1.
    pub number: u8,
    /// The number of fragments of the object.
    pub count: u8,
}

/// The laws of contents: what is written is a content of its head, with its fragment; a content has
/// one head, and a head and a fragment have one content.
pub fn content_laws()
    ensures written { (h : FragmentHead) (part : List ℕ) → IsFragmentHead h
        → length part ≡ object_size → IsContent h (content_bytes h part) }
    ensures part { (h : FragmentHead) (part : List ℕ) → IsFragmentHead h
        → drop 64 (content_bytes h part) ≡ part }
    ensures one_head { (h g : FragmentHead) (bytes : List ℕ) → IsContent h bytes → IsContent g bytes
        → h ≡ g }
    ensures one_spelling { (h : FragmentHead) (a b : List ℕ) → IsContent h a → IsContent h b
        → drop 64 a ≡ drop 64 b → a ≡ b }
{}

/// Writes the content of one fragment of an object.
pub fn write_content(
    object_id: &[u8; 16],
    number: u8,
    count: u8,
    part: &[u8; OBJECT],
    out: &mut [u8; CONTENT],
)
    requires first { 1 ≤ number }
    requires last { number ≤ count }
    requires two { 2 ≤ count }
    requires eight { count ≤ 8 }
    ensures { out.new ≡ content object_id.now number count part.now }
{
    let head = FragmentHead {
        object_id: *object_id,
        number,
        count,
    };
    put_head(&head, out);
    out[64..].copy_from_slice(part);
    seal(out);
}

/// Reads a content. None exactly where the bytes are none.
pub fn read_content(bytes: &[u8; CONTENT]) -> Option<FragmentHead>
    ensures { MatchOption result ((h : FragmentHead) → ¬ IsContent h bytes.now)
        (λ h. IsContent h bytes.now) }
{
    let head = head_in(bytes);
    if is_head(&head) && is_zeros(&bytes[18..32]) && is_sealed(bytes) {
        Some(head)
    } else {
        None
    }
}

/// The head that stands in bytes 0..18.
fn head_in(bytes: &[u8]) -> FragmentHead
    requires { 18 ≤ length bytes.now }
    ensures { result ≡ fragment_head_at bytes.now }
{
    let mut object_id = [0; 16];
    object_id.copy_from_slice(&bytes[..16]);
    FragmentHead {
        object_id,
        number: bytes[16],
        count: bytes[17],
    }
}

/// Whether some fragment has this head.
fn is_head(head: &FragmentHead) -> bool
    ensures { IsTrue result ↔ IsFragmentHead head.now }
{
    head.count >= 2 && head.count <= 8 && head.number >= 1 && head.number <= head.count
}

/// Writes a head into bytes 0..32.
fn put_head(head: &FragmentHead, out: &mut [u8])
    requires { 32 ≤ length out.old }
    ensures { out.new ≡ fragment_head_bytes head.now ++ drop 32 out.old }
{
    out[..16].copy_from_slice(&head.object_id);
    out[16..18].copy_from_slice(&[head.number, head.count]);
    out[18..32].fill(0);
}
