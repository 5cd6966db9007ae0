ghost use Rattle.std.specs.Prelude.{◌≡◌, ◌≤◌, ◌↔◌, length, take, drop, replicate, IsTrue};
ghost use Rattle.pot_object.specs.Sealing.{sealed};

use pot_bytes::digest_of_two;

/// Writes the digest of bytes 0..32 and bytes 64.. into bytes 32..64.
pub fn seal(bytes: &mut [u8])
    requires { 64 ≤ length bytes.old }
    ensures { bytes.new ≡ sealed (take 32 bytes.old) (drop 64 bytes.old) }
{
    let whole = &bytes[..];
    let digest = digest_of_two(&whole[..32], &whole[64..]);
    bytes[32..64].copy_from_slice(&digest.bytes);
}

/// Whether bytes 32..64 are the digest of bytes 0..32 and bytes 64...
pub fn is_sealed(bytes: &[u8]) -> bool
    requires { 64 ≤ length bytes.now }
    ensures { IsTrue result ↔ (bytes.now ≡ sealed (take 32 bytes.now) (drop 64 bytes.now)) }
{
    let digest = digest_of_two(&bytes[..32], &bytes[64..]);
    digest.bytes.as_slice() == &bytes[32..64]
}

/// Whether these bytes are all zero.
pub fn is_zeros(bytes: &[u8]) -> bool
    ensures { IsTrue result ↔ (bytes.now ≡ replicate (length bytes.now) 0) }
{
    bytes.iter().all(|b| *b == 0)
}
