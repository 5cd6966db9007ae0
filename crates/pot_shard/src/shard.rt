ghost use Rattle.std.specs.Prelude.{◌≡◌, ◌≤◌, ◌↔◌, List, ℕ, length, IsTrue, MatchOption};
ghost use Rattle.pot_shard.specs.Shards.{shard_at, shard_bytes, HasWidths, HasShardFrame, IsShard};
ghost use Rattle.pot_shard.specs.Shards.{IsShardBlock};

use byteorder::{BigEndian, ByteOrder};
use pot_bytes::Block;
use pot_object::CONTENT;

/// The first bytes of the block of a shard.
const MAGIC: [u8; 4] = *b"PSH1";

/// What stands before the share.
const ZEROS: [u8; 8] = [0; 8];

/// One share of a content, with its place in a ring.
#[derive(Clone, Copy, PartialEq, Eq, Debug)]
pub struct Shard {
    /// The point of the share, from 1 to n.
    pub x: u8,
    /// How many shares are needed.
    pub m: u8,
    /// How many shards the ring has.
    pub n: u8,
    /// How many low bits of a pointer are cleared.
    pub blur: u8,
    pub name: u64,
    /// The blur of the name of the next shard of the ring.
    pub pointer: u64,
    pub share: [u8; CONTENT],
}

/// The laws of shards: what is written is the block of the shard, and a block is that of one shard
/// alone.
pub fn shard_laws()
    ensures written { (s : Shard) → HasWidths s → IsShard s → IsShardBlock s (shard_bytes s) }
    ensures one_shard { (s t : Shard) (bytes : List ℕ) → IsShardBlock s bytes → IsShardBlock t bytes
        → s ≡ t }
    ensures bytes { (s : Shard) → HasWidths s → length (shard_bytes s) ≡ 1024 }
{}

/// Writes the block of a shard.
pub fn encode_shard(shard: &Shard, out: &mut Block)
    requires { IsShard shard.now }
    ensures { out.new ≡ shard_bytes shard.now }
{
    let mut bytes = *out.bytes();
    put_shard(shard, &mut bytes);
    *out = Block::from_bytes(bytes);
}

/// Reads the block of a shard. None exactly where the block is that of none.
pub fn decode_shard(block: &Block) -> Option<Shard>
    ensures { MatchOption result ((s : Shard) → ¬ IsShardBlock s block.now)
        (λ s. IsShardBlock s block.now) }
{
    shard_of(block.bytes())
}

/// The shard whose block these bytes are.
fn shard_of(bytes: &[u8; 1024]) -> Option<Shard>
    ensures { MatchOption result ((s : Shard) → ¬ IsShardBlock s bytes.now)
        (λ s. IsShardBlock s bytes.now) }
{
    let shard = shard_in(bytes);
    if is_framed(bytes) && is_shard(&shard) {
        Some(shard)
    } else {
        None
    }
}

/// The fields that stand in a block.
fn shard_in(bytes: &[u8]) -> Shard
    requires { length bytes.now ≡ 1024 }
    ensures { result ≡ shard_at bytes.now }
{
    let mut share = [0; CONTENT];
    share.copy_from_slice(&bytes[32..]);
    Shard {
        x: bytes[4],
        m: bytes[5],
        n: bytes[6],
        blur: bytes[7],
        name: BigEndian::read_u64(&bytes[8..]),
        pointer: BigEndian::read_u64(&bytes[16..]),
        share,
    }
}

/// Whether the magic and the zeros stand round the fields.
fn is_framed(bytes: &[u8]) -> bool
    requires { 32 ≤ length bytes.now }
    ensures { IsTrue result ↔ HasShardFrame bytes.now }
{
    &bytes[..4] == MAGIC.as_slice() && &bytes[24..32] == ZEROS.as_slice()
}

/// Whether these are the fields of a shard of a ring.
fn is_shard(shard: &Shard) -> bool
    ensures { IsTrue result ↔ IsShard shard.now }
{
    shard.x >= 1
        && shard.x <= shard.n
        && shard.m >= 1
        && shard.m <= shard.n
        && shard.n <= 16
        && shard.blur <= 63
        && pot_pointer::blur(shard.pointer, shard.blur) == shard.pointer
}

/// Writes a shard into the bytes of a block.
fn put_shard(shard: &Shard, out: &mut [u8])
    requires { length out.old ≡ 1024 }
    ensures { out.new ≡ shard_bytes shard.now }
{
    out[..4].copy_from_slice(&MAGIC);
    out[4..8].copy_from_slice(&[shard.x, shard.m, shard.n, shard.blur]);
    BigEndian::write_u64(&mut out[8..], shard.name);
    BigEndian::write_u64(&mut out[16..], shard.pointer);
    out[24..32].copy_from_slice(&ZEROS);
    out[32..].copy_from_slice(&shard.share);
}
