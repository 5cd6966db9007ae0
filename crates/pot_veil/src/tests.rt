//! Objects that explain one another.
ghost use Rattle.std.specs.Prelude.{◌≡◌, ◌≤◌, ◌<◌, length};
ghost use Rattle.pot_bytes.specs.Rack.{IsGeometry};
ghost use Rattle.pot_object.specs.Pieces.{longest, pieces_of};
ghost use Rattle.pot_shard.specs.FileBlocks.{piece_len, random_len};
ghost use Rattle.pot_veil.specs.Seen.{AreSeen};

use crate::{DrillFault, drill, explain};
use pot_bytes::{Geometry, digest_of};
use pot_object::{CONTENT, OBJECT, write_object};
use pot_shard::fragment_content;
use pot_split::share_out;
use std::alloc::Global;
use std::process::Abort;

/// The object of a file of five bytes.
fn object_of(file: &[u8; 5]) -> [u8; OBJECT] {
    let mut object = [0; OBJECT];
    write_object(&[5; 16], file, 0, &mut object);
    object
}

/// Fills the bytes with a row of numbers.
fn fill(bytes: &mut [u8])
    ensures { length bytes.new ≡ length bytes.old }
{
    for (place, byte) in bytes.iter_mut().enumerate() {
        *byte = ((place % 256) as u8).wrapping_mul(7).wrapping_add(3);
    }
}

/// The digest of the random bytes with which `world` explains `hello` begins so, and `hello`
/// explains `world` with the first ones.
fn assert_explains(
    rt: &impl Abort,
    geometry: &Geometry,
    fragment: u8,
    seen: &[u8],
    random: &mut [u8],
    start: &[u8; 8],
)
    requires geometry { IsGeometry geometry.now }
    requires random { length random.old ≡ piece_len geometry.now }
    requires first { 1 ≤ fragment }
    requires last { fragment ≤ geometry.now.fragments }
    requires seen { AreSeen geometry.now.shards seen.now }
    requires few { length seen.now < geometry.now.need }
{
    fill(random);
    let first = digest_of(random);
    let (hello, world) = (object_of(b"hello"), object_of(b"world"));
    explain(&hello, &world, geometry, fragment, seen, random);
    assert_eq!(rt; &digest_of(random).bytes[..8], start.as_slice());
    explain(&world, &hello, geometry, fragment, seen, random);
    assert_eq!(rt; digest_of(random), first);
}

/// Two fragments, of which two of three shards each give one.
const OF_TWO: Geometry = Geometry {
    fragments: 2,
    need: 2,
    shards: 3,
    blur: 16,
};

/// Three fragments, of which three of five shards each give one.
const OF_THREE: Geometry = Geometry {
    fragments: 3,
    need: 3,
    shards: 5,
    blur: 16,
};

/// The digests were computed apart from this crate, by a program in Python, which also compared all
/// blocks.
#[test]
fn explains_another_object(rt: HostRuntime) {
    let mut random = [0; 2_976];
    let start = [0x1a, 0x25, 0x54, 0x6f, 0x11, 0xfc, 0x01, 0x7f];
    assert_explains(&rt, &OF_TWO, 1, &[3], &mut random, &start);
    let mut random = [0; 2_976];
    let start = [0x5d, 0x70, 0x99, 0x2a, 0x91, 0x1f, 0xb2, 0xb8];
    assert_explains(&rt, &OF_TWO, 2, &[1], &mut random, &start);
    let mut random = [0; 7_944];
    let start = [0x2e, 0xc0, 0x9d, 0xb4, 0x63, 0x95, 0xb8, 0x3f];
    assert_explains(&rt, &OF_THREE, 2, &[2, 5], &mut random, &start);
}

/// An object of zeros behind this byte.
fn object_from(first: u8) -> [u8; OBJECT] {
    let mut object = [0; OBJECT];
    object[0] = first;
    object
}

/// The share at point 1 of the first of two fragments.
fn first_share(object: &[u8; OBJECT], random: &[u8; 2_976]) -> [u8; CONTENT] {
    let content = fragment_content(object, &OF_TWO, random, 0);
    let mut share = [0; CONTENT];
    share_out(&content, &random[944..1_936], 1, &mut share);
    share
}

/// By hand: the first byte of an object stands in its two contents at byte 64, as the pad 10 and as
/// 41 + 10 = 51. For 42 the pad is
/// 13. Its difference 03 times 1 + x, which is 1 at 0 and 0 at point 1, makes the coefficient a5
///     there a6.
#[test]
fn explains_one_byte(rt: HostRuntime) {
    let mut random = [0; 2_976];
    fill(&mut random);
    random[16] = 0x10;
    random[1_008] = 0xa5;
    let first = random;
    let (object, other) = (object_from(0x41), object_from(0x42));
    explain(&object, &other, &OF_TWO, 1, &[1], &mut random);
    assert_eq!(rt; (random[16], random[1_008]), (0x13, 0xa6));
    let share = first_share(&other, &random);
    assert_eq!(rt; share[64], 0xb5);
    assert!(rt; share == first_share(&object, &first));
    let content = fragment_content(&other, &OF_TWO, &random, 1);
    assert_eq!(rt; content[64], 0x51);
    assert!(rt; content == fragment_content(&object, &OF_TWO, &first, 1));
    // all else stays but the coefficients at the digest of the content
    let mut rest = random;
    rest[16] = 0x10;
    rest[1_008] = 0xa5;
    rest[976..1_008].copy_from_slice(&first[976..1_008]);
    assert!(rt; rest == first);
    explain(&other, &object, &OF_TWO, 1, &[1], &mut random);
    assert!(rt; random == first);
}

/// What a drill reports over these files: so many pieces and seen blocks, whose digest begins so.
#[derive(Drop)]
struct Reported {
    pieces: u32,
    blocks: u32,
    start: [u8; 8],
    /// How the digest of the random bytes begins that it leaves.
    left: [u8; 8],
}

fn assert_drills(
    rt: &impl Abort,
    alloc: Global,
    file: &[u8],
    other: &[u8],
    geometry: &Geometry,
    fragment: u8,
    seen: &[u8],
    random: &mut [u8],
    reported: &Reported,
)
    requires fits { length file.now ≤ longest }
    requires same_length { length other.now ≡ length file.now }
    requires geometry { IsGeometry geometry.now }
    requires random { length random.old ≡ random_len (pieces_of (length file.now)) geometry.now }
    requires first { 1 ≤ fragment }
    requires last { fragment ≤ geometry.now.fragments }
    requires seen { AreSeen geometry.now.shards seen.now }
{
    fill(random);
    let report = drill(alloc, file, other, geometry, fragment, seen, random).expect(rt, "memory");
    assert_eq!(rt; report.pieces, reported.pieces);
    assert_eq!(rt; report.blocks, reported.blocks);
    assert_eq!(rt; &report.digest.bytes[..8], reported.start.as_slice());
    assert_eq!(rt; &digest_of(random).bytes[..8], reported.left.as_slice());
}

/// The numbers and digests were computed apart from this crate, by a program in Python.
#[test]
fn drills_files(rt: HostRuntime) {
    let mut random = [0; 2_992];
    let reported = Reported {
        pieces: 1,
        blocks: 4,
        start: [0xa3, 0xe5, 0x38, 0x03, 0x7d, 0xb8, 0x6c, 0x94],
        left: [0x5e, 0x76, 0x0a, 0xd1, 0xc6, 0xe0, 0xc9, 0xa4],
    };
    assert_drills(
        &rt,
        rt.alloc(),
        b"hello",
        b"world",
        &OF_TWO,
        1,
        &[3],
        &mut random,
        &reported,
    );
    let fault = DrillFault::Exposed {
        fragment: 1,
        have: 2,
        need: 2,
    };
    assert_eq!(rt;
        drill(
            rt.alloc(),
            b"hello",
            b"world",
            &OF_TWO,
            1,
            &[1, 2],
            &mut random
        ),
        Err(fault)
    );
    assert_eq!(rt; &digest_of(&random).bytes[..8], reported.left.as_slice());
    let mut file = [0; 1_000];
    let mut other = [0; 1_000];
    fill(&mut file);
    other[999] = 1;
    let mut random = [0; 15_904];
    let reported = Reported {
        pieces: 2,
        blocks: 24,
        start: [0x72, 0x64, 0x09, 0x6e, 0xcf, 0x71, 0x68, 0xa2],
        left: [0x7e, 0x45, 0xc8, 0x4d, 0x13, 0xd2, 0xf1, 0x2d],
    };
    assert_drills(
        &rt,
        rt.alloc(),
        &file,
        &other,
        &OF_THREE,
        2,
        &[2, 5],
        &mut random,
        &reported,
    );
}
