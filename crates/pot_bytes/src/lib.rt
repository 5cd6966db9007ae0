//! Plain values that every layer speaks of: blocks, digests, byte strings, names, racks and places;
//! the XOR of lists, and the product of FIPS 197 over bytes and lists.
//!
//! It knows no archive, no format and no file. Its calls take no memory and refuse nothing, but for
//! what their answers say.
//!
//! Invariants, each kept by the type that it names:
//! 1. a `Block` is 1,024 bytes;
//! 2. a `Digest` is 32 bytes;
//! 3. a `Name` is 1 to 64 bytes of `a-z`, `0-9`, `.`, `_` and `-`.
#![tactic(auto)]

mod block;
mod digest;
mod memory;
mod name;
mod numbers;
mod parts;
mod product;
mod rack;
mod sequence;
mod weighted;

pub use block::{Block, block_law, xor_into};
pub use digest::{Digest, digest_of};
pub use memory::NoMemory;
pub use name::Name;
pub use numbers::{read_be32, read_be64};
pub use parts::digest_of_two;
pub use product::{gf_times, product_laws};
pub use rack::{Geometry, LOG_BOUND, Place, Rack};
pub use sequence::{Bytes, Sequence};
pub use weighted::{add_weighted, fold_weighted, stripe_sum, weighted_laws};

#[cfg(test)]
mod tests {
    use super::*;
    use std::test::Fail;

    /// NIST's example of FIPS 180-4: the digest of `abc`.
    const ABC: [u8; 32] = [
        0xba, 0x78, 0x16, 0xbf, 0x8f, 0x01, 0xcf, 0xea, 0x41, 0x41, 0x40, 0xde, 0x5d, 0xae, 0x22,
        0x23, 0xb0, 0x03, 0x61, 0xa3, 0x96, 0x17, 0x7a, 0x9c, 0xb4, 0x10, 0xff, 0x61, 0xf2, 0x00,
        0x15, 0xad,
    ];

    #[test]
    fn digests_and_blocks(rt: HostRuntime) -> Result<(), Fail> {
        assert_eq!(rt; digest_of(b"abc").bytes, ABC);
        assert_eq!(rt; digest_of_two(b"a", b"bc").bytes, ABC);
        let mut block = Block::from_bytes([0x5a; 1024]);
        block.xor(&Block::from_bytes([0x0f; 1024]));
        assert_eq!(rt; block.bytes()[1023], 0x55);
        block_law(&block);
        assert_eq!(rt; Block::zero().bytes()[0], 0);
        let mut into = [1, 2, 255];
        xor_into(&mut into, &[1, 1, 15]);
        assert_eq!(rt; into, [0, 3, 240]);
        let kept = Bytes::from_vec([7, 8].to_vec(rt.alloc())?);
        assert_eq!(rt; kept.as_slice(), [7, 8].as_slice());
        assert_eq!(rt; kept.into_vec().len(), 2);
        Ok(())
    }

    #[test]
    fn names(rt: HostRuntime) -> Result<(), Fail> {
        let long = [b'a'; 65];
        let good: [&[u8]; 4] = [b"a", b"report.txt", b"0_-.9z", &long[..64]];
        for text in good {
            assert!(rt; Name::read(text).is_some_and(|n| n.bytes() == text));
        }
        let bad: [&[u8]; 6] = [b"", b"A", b"a b", b"a/b", b"\xe4", &long];
        for text in bad {
            assert!(rt; Name::read(text).is_none());
        }
        let (a, b) = (Name::read(b"a").ok_or("a")?, Name::read(b"ab").ok_or("ab")?);
        assert!(rt; a < b && a != b && a == a);
        Ok(())
    }
}
