//! The hexadecimal digits of digests.

ghost use Rattle.std.specs.Prelude.{◌≡◌};
ghost use Rattle.hex.specs.Hex.{encode_lower};
ghost use Rattle.pot_client.specs.ReplyTexts.{ReadsDigest};

use hex::{FromHex, encode_to_slice};
use pot_bytes::Digest;

/// The digest that these 64 hexadecimal digits of lower case write. None exactly where the word is
/// anything else.
pub fn read_digest(word: &[u8]) -> Option<Digest>
    ensures { ReadsDigest word.now result }
{
    let bytes = <[u8; 32] as FromHex>::from_hex(word).ok()?;
    let digest = Digest { bytes };
    if digits_of(&digest).as_slice() == word {
        Some(digest)
    } else {
        None
    }
}

// The 64 hexadecimal digits of lower case of a digest.
fn digits_of(digest: &Digest) -> [u8; 64]
    ensures { result ≡ encode_lower digest.now.bytes }
{
    let mut digits = [0u8; 64];
    encode_to_slice(digest.bytes, &mut digits).unwrap();
    digits
}
