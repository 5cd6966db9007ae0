ghost use Rattle.std.specs.Prelude.{◌≡◌, ◌++◌};
ghost use Rattle.pot_bytes.specs.Digests.{digest_bytes};

use crate::digest::Digest;
use sha2::{Digest as Hash, Sha256};

/// The SHA-256 digest of `head` and then `rest`, taken as one text.
pub fn digest_of_two(head: &[u8], rest: &[u8]) -> Digest
    ensures { result.bytes ≡ digest_bytes (head.now ++ rest.now) }
{
    let mut hasher = Sha256::new();
    hasher.update(head);
    hasher.update(rest);
    Digest {
        bytes: hasher.finalize(),
    }
}
