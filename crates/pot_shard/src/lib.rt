//! Shards: shares of a content that lie in blocks of their own and name one another in a ring, and
//! the blocks of a file.
//!
//! It knows the bytes of a shard, the pointers of a ring and how random bytes are cut, and no
//! archive that holds a block and no source of random bytes. It keeps nothing, and only `blocks_of`
//! takes memory.
//!
//! 1. The block of a shard is `shard_bytes` of it, and what is read is exactly what is written:
//!    `encode_shard`, `decode_shard`.
//! 2. In a ring each shard points to the next, and the last to the first: `ring_of`.
//! 3. A piece has the blocks that its bytes and its own random bytes give, by fragment and point:
//!    `piece_blocks`.
//! 4. The blocks of a file are those of its pieces, one after another: `blocks_of`.
//! 5. Any m shards of each fragment give the file back, whatever the random bytes: `file_laws`.
//! 6. The block of each piece, fragment and point stands at its place, and what a fetch makes of
//!    those of any m points is the file: `place_laws`, `fetch_laws`.
//! 7. Fewer than m shards of one fragment of each piece are those of other files too: `veil_laws`.
#![tactic(auto)]

#[cfg(test)]
mod block_tests;
mod blocks;
#[cfg(test)]
mod corner_tests;
mod laws;
mod random;
mod ring;
mod shard;
#[cfg(test)]
mod tests;

pub use blocks::{blocks_of, fragment_content, id_in, piece_blocks};
pub use laws::{block_laws, draw_laws, fetch_laws, file_laws, place_laws, stretch_laws, veil_laws};
pub use random::{fragment_len, head_len, piece_len, random_len, rows_len};
pub use ring::ring_of;
pub use shard::{Shard, decode_shard, encode_shard, shard_laws};
