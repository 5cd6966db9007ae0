ghost use Rattle.std.specs.Prelude.{◌≡◌};

use crate::*;
use pot_bytes::{Block, Geometry, digest_of};
use std::test::Fail;

// The first four bytes of the digest of each block, computed apart from this crate: the polynomials
// byte by byte, and the digests by Python's hashlib.
const OF_TWO_PIECES: [[u8; 4]; 12] = [
    [0xa6, 0x2e, 0x73, 0xbb],
    [0x79, 0x55, 0x1d, 0xb0],
    [0x4e, 0x29, 0xd7, 0x69],
    [0x65, 0xbe, 0xdc, 0x44],
    [0x62, 0xec, 0xed, 0xe9],
    [0xe5, 0xcf, 0x9a, 0xba],
    [0x42, 0x0f, 0x51, 0x20],
    [0x98, 0x8f, 0x8b, 0x71],
    [0xa4, 0x01, 0x31, 0xc8],
    [0x07, 0x62, 0x18, 0x97],
    [0x37, 0x7e, 0x11, 0xaf],
    [0xa9, 0xff, 0x56, 0x5d],
];

const OF_THE_EMPTY_FILE: [[u8; 4]; 2] = [[0x9c, 0xc1, 0x09, 0x10], [0x9a, 0x58, 0xe2, 0x82]];

const OF_THREE_FRAGMENTS: [[u8; 4]; 12] = [
    [0x08, 0x28, 0xe5, 0x29],
    [0xec, 0x4d, 0x78, 0x06],
    [0x72, 0xfa, 0xf9, 0x5c],
    [0xdf, 0xe3, 0x41, 0x54],
    [0xcb, 0x96, 0x59, 0xe4],
    [0xa2, 0x99, 0x6d, 0xe8],
    [0x27, 0x51, 0x11, 0x1f],
    [0x50, 0x0b, 0xbf, 0xf4],
    [0xbf, 0xf6, 0x7f, 0xba],
    [0x6b, 0x4d, 0x65, 0x38],
    [0x7f, 0x52, 0xcb, 0x54],
    [0xd7, 0x2d, 0x78, 0x7e],
];

/// Byte i is i^2 + 7 i modulo 251.
fn scramble(out: &mut [u8]) {
    for (place, byte) in out.iter_mut().enumerate() {
        let low = place % 251;
        *byte = ((low * low + 7 * low) % 251) as u8;
    }
}

fn split(fragments: u8, need: u8, shards: u8, blur: u8) -> Geometry
    ensures { result ≡ record { fragments = fragments; need = need; shards = shards; blur = blur } }
{
    Geometry {
        fragments,
        need,
        shards,
        blur,
    }
}

/// Whether the digests of these blocks begin so.
fn begin_so(blocks: &[Block], starts: &[[u8; 4]]) -> bool {
    blocks.len() == starts.len()
        && blocks.iter().zip(starts).all(|(block, start)| &digest_of(block.bytes()).bytes[..4]
            == start.as_slice())
}

#[test]
fn counts_random_bytes(rt: HostRuntime) {
    let usual = split(2, 2, 3, 16);
    assert_eq!(rt; piece_len(&usual), 2_976);
    assert_eq!(rt; random_len(1, &usual), 2_992);
    assert_eq!(rt; random_len(2, &usual), 5_968);
    assert_eq!(rt; random_len(116, &usual), 345_232);
    let corners = [
        (split(2, 1, 1, 0), 976, 1_936),
        (split(2, 1, 16, 0), 1_216, 2_416),
        (split(2, 16, 16, 0), 30_976, 61_936),
        (split(8, 1, 1, 63), 6_592, 13_168),
        (split(8, 1, 16, 63), 7_552, 15_088),
        (split(8, 16, 16, 63), 126_592, 253_168),
    ];
    for (corner, one, two) in corners {
        assert_eq!(rt; random_len(1, &corner), one, "one piece, {corner:?}");
        assert_eq!(rt; random_len(2, &corner), two, "two pieces, {corner:?}");
    }
    assert_eq!(rt; random_len(1_024, &split(8, 16, 16, 63)), 129_613_840);
}

#[test]
fn makes_the_blocks_of_files(rt: HostRuntime) -> Result<(), Fail> {
    let mut file = [0; 865];
    for (place, byte) in file.iter_mut().enumerate() {
        *byte = (place % 256) as u8;
    }
    let mut random = [0; 5_968];
    scramble(&mut random);
    let usual = split(2, 2, 3, 16);
    let blocks = blocks_of(rt.alloc(), &file, &usual, &random).map_err(|_| "no memory")?;
    assert!(rt; begin_so(&blocks, &OF_TWO_PIECES));
    let id = id_in(&random);
    let mut second = [Block::zero(); 6];
    piece_blocks(&id, &file, 1, &usual, &random[2_992..], &mut second);
    assert!(rt; begin_so(&second, &OF_TWO_PIECES[6..]));
    Ok(())
}

#[test]
fn makes_the_blocks_of_other_geometries(rt: HostRuntime) -> Result<(), Fail> {
    let mut random = [0; 976];
    scramble(&mut random);
    let least = split(2, 1, 1, 0);
    let blocks = blocks_of(rt.alloc(), &[], &least, &random).map_err(|_| "no memory")?;
    assert!(rt; begin_so(&blocks, &OF_THE_EMPTY_FILE));
    let mut random = [0; 7_936];
    scramble(&mut random);
    let three = split(3, 3, 4, 63);
    let blocks = blocks_of(rt.alloc(), &[0, 1, 2], &three, &random).map_err(|_| "no memory")?;
    assert!(rt; begin_so(&blocks, &OF_THREE_FRAGMENTS));
    Ok(())
}
