//! A block of a wanted digest is brought from one slot to another.
ghost use Rattle.std.specs.Prelude.{◌≡◌, ◌↔◌, IsTrue};
ghost use Rattle.pot_bytes.specs.Digests.{digest_bytes};
ghost use Rattle.pots_rescue.specs.Bringing.{BringsBlock, ReadsSound};

use pot_bytes::{Block, Digest, digest_of};
use pot_outside::{Archive, Failed, Held};

/// What came of a block that was to be brought.
#[derive(Clone, Copy, PartialEq, Eq, Debug)]
pub enum Brought {
    /// The target held a block of the digest already.
    There,
    /// The source held one and the target none, and the target holds it now.
    Copied,
    /// Neither held one, and all is as it was.
    Nowhere,
}

/// Brings a block of this digest from a slot of one archive to a slot of another, where the other
/// does not hold one.
///
/// # Errors
/// `Failed` only where one of the counts of faults rose.
pub fn bring<A: Archive, B: Archive>(
    digest: Digest,
    from: &mut A,
    source: u32,
    to: &mut B,
    target: u32,
) -> Result<Brought, Failed>
    ensures { BringsBlock (IsTrue A.account.tells) (IsTrue B.account.tells) digest source target
        result
        (A.account.meaning from.old) (A.account.meaning from.new)
        (B.account.meaning to.old) (B.account.meaning to.new) }
{
    let mut block = Block::zero();
    if read_sound(to, target, digest, &mut block)? {
        return Ok(Brought::There);
    }
    if !read_sound(from, source, digest, &mut block)? {
        return Ok(Brought::Nowhere);
    }
    to.write(target, &block)?;
    Ok(Brought::Copied)
}

/// Whether a slot holds a block of this digest, which is then in `into`.
///
/// # Errors
/// `Failed` only where the count of faults rose.
pub fn read_sound<A: Archive>(
    archive: &mut A,
    slot: u32,
    digest: Digest,
    into: &mut Block,
) -> Result<bool, Failed>
    ensures { ReadsSound (IsTrue A.account.tells) digest slot into.new result
        (A.account.meaning archive.old) (A.account.meaning archive.new) }
{
    match archive.read(slot, into)? {
        Held::Held => Ok(has_digest(into, digest)),
        Held::Absent => Ok(false),
    }
}

/// Whether a block has this digest.
fn has_digest(block: &Block, digest: Digest) -> bool
    ensures { IsTrue result ↔ digest_bytes block.now ≡ digest.bytes }
{
    digest_of(block.bytes()).bytes == digest.bytes
}
