//! The read of a slot that is to have a digest.
ghost use Rattle.std.specs.Prelude.{◌≡◌, ◌↔◌, IsTrue, Contains};
ghost use Rattle.pot_bytes.specs.Digests.{digest_of};
ghost use Rattle.pot_shelves.specs.Shelves.{plain, OnShelves};
ghost use Rattle.pot_group.specs.Reads.{ReadsByDigest};

use crate::known::Known;
use pot_bytes::{Block, Digest};
use pot_outside::{Archive, Failed, Held};
use pot_shelves::Archives;

/// What a read that wants a block of a digest came to.
#[derive(Clone, Copy, PartialEq, Eq, Debug)]
pub(crate) enum Found {
    /// The block was read, and has the digest.
    Sound,
    /// The slot has no block, or one of another digest.
    Missing,
    /// The archive failed.
    NotRead,
}

/// Reads the block of a slot of an archive, which is to have this digest, into `into`. Some digests
/// are known.
pub(crate) fn read_sound<A: Archive>(
    archives: &mut Archives<A>,
    number: u32,
    slot: u32,
    digest: Digest,
    known: &Known,
    into: &mut Block,
) -> Found
    requires { Contains (plain A.account.meaning archives.old).numbers number }
    ensures { OnShelves A.account
        (λ told. ReadsByDigest told number slot digest into.new result) archives.old archives.new }
{
    match archives.read(number, slot, into) {
        Ok(Held::Held) => {
            if is_known(into, digest, known) {
                Found::Sound
            } else {
                Found::Missing
            }
        }
        Ok(Held::Absent) => Found::Missing,
        Err(Failed) => Found::NotRead,
    }
}

/// Whether a block has this digest, where some digests are known.
fn is_known(block: &Block, digest: Digest, known: &Known) -> bool
    ensures { IsTrue result ↔ digest_of block.now ≡ digest }
{
    known.digest(block) == digest
}
