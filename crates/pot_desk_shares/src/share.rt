//! A share: its head, its values, and how it is read.
ghost use Rattle.std.specs.Prelude.{◌≡◌, ◌≤◌, ◌↔◌, ℕ, List, length, IsTrue, IfOk, MatchOption};
ghost use Rattle.pot_desk_shares.specs.Shares.{head_at, share_bytes, with_digest};
ghost use Rattle.pot_desk_shares.specs.Shares.{HasShareFrame, IsShareHead, IsShare};
ghost use Rattle.pot_desk_shares.specs.declared.share.ShareHead.{ShareHead};

use crate::making::LONGEST;
use pot_bytes::{NoMemory, digest_of, read_be64};
use std::alloc::Global;

/// The first bytes of a share, with the number of the format.
const MAGIC: [u8; 5] = *b"PDSH\x01";

/// What a share says of its set, and of its place in it.
#[derive(Clone, Copy, PartialEq, Eq, Debug)]
pub struct ShareHead {
    /// How many shares give the text.
    pub need: u8,
    /// How many shares the set has.
    pub count: u8,
    /// The point of the share, from 1 to `count`.
    pub point: u8,
    /// How new the text is: the greater the newer.
    pub generation: u64,
    /// The random number of the set.
    pub set: u64,
    /// The length of the text in bytes.
    pub length: u64,
}

/// A share as it is read. Its values lie in its bytes.
#[derive(Clone, Copy, Debug, Drop)]
pub struct DeskShare<'a> {
    pub head: ShareHead,
    /// The values at its point, 32 more than bytes of the text.
    pub body: &'a [u8],
}

/// Reads a share. None exactly where the bytes are that of none: also where the digest behind them
/// is another.
pub fn read_share<'a>(bytes: &'a [u8]) -> Option<DeskShare<'a>>
    ensures { MatchOption result
        ((h : ShareHead) (body : List ℕ) → ¬ IsShare h body bytes.now)
        (λ s. IsShare s.head s.body.now bytes.now) }
{
    if bytes.len() < 64 {
        return None;
    }
    let head = head_in(bytes);
    let end = bytes.len() - 32;
    let body = &bytes[32..end];
    if is_head(&head) && body.len() as u64 == head.length + 32 && is_framed(bytes) {
        Some(DeskShare { head, body })
    } else {
        None
    }
}

/// The bytes of the share of this head and these values.
pub(crate) fn share_bytes(alloc: Global, head: &ShareHead, body: &[u8]) -> Result<Vec<u8>, NoMemory>
    ensures { IfOk result (λ v. v.items ≡ share_bytes head.now body.now) }
{
    let mut bytes = Vec::new(alloc);
    bytes.extend_from_slice(&MAGIC)?;
    bytes.extend_from_slice(&[head.need, head.count, head.point])?;
    bytes.extend_from_slice(&head.generation.to_be_bytes())?;
    bytes.extend_from_slice(&head.set.to_be_bytes())?;
    bytes.extend_from_slice(&head.length.to_be_bytes())?;
    bytes.extend_from_slice(body)?;
    append_digest(bytes)
}

/// These bytes with their digest behind them.
pub(crate) fn append_digest(bytes: Vec<u8>) -> Result<Vec<u8>, NoMemory>
    ensures { IfOk result (λ v. v.items ≡ with_digest bytes.items) }
{
    let mut whole = bytes;
    let digest = digest_of(&whole);
    whole.extend_from_slice(&digest.bytes)?;
    Ok(whole)
}

/// The head that stands in bytes 5..32.
fn head_in(bytes: &[u8]) -> ShareHead
    requires { 32 ≤ length bytes.now }
    ensures { result ≡ head_at bytes.now }
{
    ShareHead {
        need: bytes[5],
        count: bytes[6],
        point: bytes[7],
        generation: read_be64(bytes, 8),
        set: read_be64(bytes, 16),
        length: read_be64(bytes, 24),
    }
}

/// Whether some share has this head.
pub(crate) fn is_head(head: &ShareHead) -> bool
    ensures { IsTrue result ↔ IsShareHead head.now }
{
    let known = *head;
    known.need >= 1
        && known.need <= known.count
        && known.count <= 16
        && known.point >= 1
        && known.point <= known.count
        && known.length <= LONGEST
}

/// Whether the magic stands first, and last the digest of all that stands before it.
fn is_framed(bytes: &[u8]) -> bool
    requires { 64 ≤ length bytes.now }
    ensures { IsTrue result ↔ HasShareFrame bytes.now }
{
    let (front, digest) = bytes.split_at(bytes.len() - 32);
    &bytes[..5] == MAGIC.as_slice() && digest_of(front).bytes.as_slice() == digest
}
