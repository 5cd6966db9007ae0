ghost use Rattle.std.specs.Prelude.{◌≡◌};
ghost use Rattle.pot_bytes.specs.Digests.{digest_bytes};

use sha2::{Digest as Hash, Sha256};

/// A SHA-256 digest, 32 bytes in the order in which FIPS 180-4 writes them.
#[derive(Clone, Copy, PartialEq, Eq, PartialOrd, Ord, Debug)]
pub struct Digest {
    pub bytes: [u8; 32],
}

/// The SHA-256 digest of these bytes.
pub fn digest_of(bytes: &[u8]) -> Digest
    ensures { result.bytes ≡ digest_bytes bytes.now }
{
    Digest {
        bytes: Sha256::digest(bytes),
    }
}
