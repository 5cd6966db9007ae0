//! Files, hostile blocks and wrong shares, as blocks in memory.
ghost use Rattle.std.specs.Prelude.{◌≡◌, ◌<◌, ◌≤◌, ◌*◌, ◌^◌, length};
ghost use Rattle.pot_shard.specs.Shards.{IsShard};

use pot_bytes::{Block, Geometry};
use pot_object::write_object;
use pot_recover::*;
use pot_shard::{Shard, blocks_of, encode_shard, random_len};
use std::alloc::Global;
use std::process::Abort;

/// The most chains that a call may bear.
const MOST: u32 = 4_000_000;

/// The highest bytes of a linear congruential sequence from a seed on.
fn scatter(out: &mut [u8], seed: u64) {
    let mut state = seed;
    for byte in out.iter_mut() {
        state = state
            .wrapping_mul(6_364_136_223_846_793_005)
            .wrapping_add(1_442_695_040_888_963_407);
        *byte = state.to_be_bytes()[0];
    }
}

/// The blocks of a file of five bytes: two fragments, of so many shards each, of which two are
/// needed.
fn stored(
    rt: &(impl Abort + Alloc<A = Global>),
    file: &[u8; 5],
    seed: u64,
    shards: u8,
) -> Vec<Block>
    requires some { 2 ≤ shards }
    requires few { shards ≤ 16 }
    ensures number { length result.items ≡ 2 * shards }
{
    let geometry = Geometry {
        fragments: 2,
        need: 2,
        shards,
        blur: 16,
    };
    let mut random = vec![in rt.alloc(); 0; random_len(1, &geometry) as usize].expect(rt, "memory");
    scatter(&mut random, seed);
    let blocks = blocks_of(rt.alloc(), file, &geometry, &random).expect(rt, "memory");
    assert!(rt; blocks.len() == 2 * usize::from(shards));
    blocks
}

/// The object of such a file.
fn object_of(file: &[u8; 5], seed: u64) -> [u8; 928] {
    let mut id = [0; 16];
    scatter(&mut id, seed);
    let mut object = [0; 928];
    write_object(&id, file, 0, &mut object);
    object
}

/// Whether these objects were recovered.
fn are(found: Result<Recovered, RecoverFault>, expected: &[[u8; 928]]) -> bool {
    let Ok(found) = found else {
        return false;
    };
    if found.len() != expected.len() || found.is_empty() != expected.is_empty() {
        return false;
    }
    for at in 0..expected.len() {
        if found.object(at) != &expected[at] {
            return false;
        }
    }
    true
}

/// The XOR of three blocks.
fn parity(a: &Block, b: &Block, c: &Block) -> Block {
    let mut sum = *a;
    sum.xor(b);
    sum.xor(c);
    sum
}

#[test]
fn two_files_come_back_from_all_blocks(rt: HostRuntime) {
    let (hello, world) = (stored(&rt, b"hello", 1, 3), stored(&rt, b"world", 2, 3));
    assert!(rt;
        are(
            recover(rt.alloc(), &hello, 16, MOST),
            &[object_of(b"hello", 1)]
        )
    );
    assert!(rt; are(recover(rt.alloc(), &hello, 15, MOST), &[]));
    let mut blocks = Vec::from_slice(rt.alloc(), &hello).expect(&rt, "memory");
    blocks.extend_from_slice(&world).expect(&rt, "memory");
    // Three parity blocks decode as a linked ring that does not close, and three mirror a shard.
    blocks
        .push(parity(&hello[0], &hello[3], &world[2]))
        .expect(&rt, "memory");
    blocks
        .push(parity(&hello[1], &hello[4], &world[0]))
        .expect(&rt, "memory");
    blocks
        .push(parity(&hello[2], &hello[5], &world[1]))
        .expect(&rt, "memory");
    blocks.extend_from_slice(&hello[..3]).expect(&rt, "memory");
    let (one, other) = (object_of(b"hello", 1), object_of(b"world", 2));
    assert!(rt; blocks.len() == 18);
    if one < other {
        assert!(rt; are(recover(rt.alloc(), &blocks, 16, MOST), &[one, other]));
    } else {
        assert!(rt; are(recover(rt.alloc(), &blocks, 16, MOST), &[other, one]));
    }
}

#[test]
fn nothing_comes_back_without_a_shard_or_with_one_outside_the_grammar(rt: HostRuntime) {
    let blocks = stored(&rt, b"hello", 1, 3);
    // One byte each: of the zeros before the share, of the low bits of the pointer, and x.
    for (at, byte) in [(24, 1), (31, 255), (23, 1), (4, 0), (0, 0)] {
        for lost in 0..6 {
            let mut altered = *blocks[lost].bytes();
            altered[at] = byte;
            let mut rest = Vec::from_slice(rt.alloc(), &blocks).expect(&rt, "memory");
            assert!(rt; rest.len() == 6);
            rest[lost] = Block::from_bytes(altered);
            assert!(rt; are(recover(rt.alloc(), &rest, 16, MOST), &[]));
            rest.push(blocks[lost]).expect(&rt, "memory");
            assert!(rt; rest.len() == 7);
            assert!(rt;
                are(
                    recover(rt.alloc(), &rest, 16, MOST),
                    &[object_of(b"hello", 1)]
                )
            );
        }
    }
}

/// So many shards at each of two points, each linked to each, of zero shares.
fn crowd(rt: &(impl Abort + Alloc<A = Global>), each: u64) -> Vec<Block> {
    let mut blocks = Vec::new(rt.alloc());
    for x in [1, 2] {
        for name in 0..each {
            let shard = Shard {
                x,
                m: 2,
                n: 2,
                blur: 63,
                name,
                pointer: 0,
                share: [0; 992],
            };
            let mut block = Block::zero();
            encode_shard(&shard, &mut block);
            blocks.push(block).expect(rt, "memory");
        }
    }
    blocks
}

#[test]
fn four_million_chains_are_borne_and_no_more(rt: HostRuntime) {
    let blocks = crowd(&rt, 1_999);
    assert!(rt; blocks.len() == 3_998);
    assert!(rt; are(recover(rt.alloc(), &blocks, 63, MOST), &[]));
    let blocks = crowd(&rt, 2_001);
    assert!(rt; blocks.len() == 4_002);
    assert!(rt;
        recover(rt.alloc(), &blocks, 63, MOST).is_err_and(|fault| fault
            == RecoverFault::Wide {
                chains: 4_000_001,
                choices: 0
            })
    );
}

#[test]
fn as_many_chains_are_borne_as_are_asked_for(rt: HostRuntime) {
    let blocks = crowd(&rt, 10);
    assert!(rt; blocks.len() == 20);
    for (most, are_borne) in [(110, true), (109, false), (0, false)] {
        assert!(rt; most < MOST);
        let found = recover(rt.alloc(), &blocks, 63, most);
        let wide = RecoverFault::Wide {
            chains: most + 1,
            choices: 0,
        };
        assert_eq!(rt; found.is_ok(), are_borne);
        assert!(rt; are_borne || found.is_err_and(|fault| fault == wide));
    }
}

/// The shards of half a million rings of two that do not close: of each, x = 1 is named 32·i and
/// points at 32·i + 16, and x = 2 the other way round.
fn pairs(rt: &(impl Abort + Alloc<A = Global>), count: u64) -> Vec<Block>
    requires { count < 2 ^ 32 }
{
    let mut blocks = Vec::new(rt.alloc());
    for i in 0..count {
        for (x, name, pointer) in [(1, 32 * i, 32 * i + 16), (2, 32 * i + 16, 32 * i)] {
            let shard = Shard {
                x,
                m: 2,
                n: 2,
                blur: 4,
                name,
                pointer,
                share: [0; 992],
            };
            let mut block = Block::zero();
            encode_shard(&shard, &mut block);
            blocks.push(block).expect(rt, "memory");
        }
    }
    blocks
}

#[test]
fn a_million_chains_are_followed_by_their_pointers(rt: HostRuntime) {
    let blocks = pairs(&rt, 500_000);
    assert!(rt; blocks.len() == 1_000_000);
    assert!(rt; are(recover(rt.alloc(), &blocks, 4, MOST), &[]));
}

/// A block with one byte changed by this difference.
fn changed(block: &Block, at: usize, difference: u8) -> Block
    requires { at < 1024 }
{
    let mut bytes = *block.bytes();
    bytes[at] ^= difference;
    Block::from_bytes(bytes)
}

#[test]
fn a_wrong_byte_at_any_place_of_a_share_is_borne(rt: HostRuntime) {
    let object = object_of(b"hello", 1);
    let mut blocks = stored(&rt, b"hello", 1, 4);
    let first = blocks[0];
    for at in 32..1024 {
        blocks[0] = changed(&first, at, 0x3c);
        assert!(rt; blocks.len() == 8);
        assert!(rt;
            are(recover_robust(rt.alloc(), &blocks, 16, MOST), &[object]),
            "{at}"
        );
    }
}

#[test]
fn of_four_shares_one_may_be_wrong_at_a_place(rt: HostRuntime) {
    let object = [object_of(b"hello", 1)];
    let stored = stored(&rt, b"hello", 1, 4);
    // Two bytes, each by its block, its place there and the difference, and how many objects come
    // back, by the plain recovery and by the robust one. The first four blocks are the shards of
    // one fragment. The name stands at 8, the pointer at 16 and the share at 32.
    for (a, b, plain, robust) in [
        ((0, 500, 0), (0, 500, 0), 1, 1),
        ((0, 500, 1), (0, 501, 1), 0, 1),
        ((2, 500, 1), (3, 501, 1), 0, 1),
        ((2, 500, 1), (7, 500, 1), 0, 1),
        ((2, 500, 1), (3, 500, 1), 0, 0),
        ((0, 8, 1), (0, 500, 0), 0, 0),
        ((0, 16, 1), (0, 500, 0), 0, 0),
    ] {
        let mut blocks = Vec::from_slice(rt.alloc(), &stored).expect(&rt, "memory");
        assert!(rt; blocks.len() == 8);
        blocks[a.0] = changed(&blocks[a.0], a.1, a.2);
        blocks[b.0] = changed(&blocks[b.0], b.1, b.2);
        assert!(rt;
            are(recover(rt.alloc(), &blocks, 16, MOST), &object[..plain]),
            "{} {}",
            a.1,
            b.1
        );
        let found = recover_robust(rt.alloc(), &blocks, 16, MOST);
        assert!(rt; are(found, &object[..robust]), "{} {}", a.1, b.1);
    }
}

#[test]
fn two_shards_that_follow_one_another_are_enough(rt: HostRuntime) {
    let object = [object_of(b"hello", 1)];
    let stored = stored(&rt, b"hello", 1, 4);
    assert!(rt; are(recover_open(rt.alloc(), &stored, 16, MOST), &object));
    assert!(rt; are(recover_open(rt.alloc(), &stored, 15, MOST), &[]));
    // What is left of the first fragment, by places among its four shards, and how many objects
    // come back.
    for (a, b, back) in [
        (0, 1, 1),
        (1, 2, 1),
        (2, 3, 1),
        (3, 0, 1),
        (0, 2, 0),
        (1, 3, 0),
        (2, 2, 0),
    ] {
        let mut blocks = Vec::from_slice(rt.alloc(), &stored[4..]).expect(&rt, "memory");
        assert!(rt; a < 4 && b < 4 && back < 2);
        blocks.push(stored[a]).expect(&rt, "memory");
        blocks.push(stored[b]).expect(&rt, "memory");
        assert!(rt; are(recover(rt.alloc(), &blocks, 16, MOST), &[]), "{a} {b}");
        let found = recover_open(rt.alloc(), &blocks, 16, MOST);
        assert!(rt; are(found, &object[..back]), "{a} {b}");
    }
}

#[test]
fn a_wrong_share_takes_its_own_chains_alone(rt: HostRuntime) {
    let object = [object_of(b"hello", 1)];
    let mut blocks = stored(&rt, b"hello", 1, 4);
    assert!(rt; blocks.len() == 8);
    blocks[1] = changed(&blocks[1], 500, 1);
    assert!(rt; are(recover(rt.alloc(), &blocks, 16, MOST), &[]));
    assert!(rt; are(recover_open(rt.alloc(), &blocks, 16, MOST), &object));
    blocks[3] = changed(&blocks[3], 500, 1);
    assert!(rt; are(recover_open(rt.alloc(), &blocks, 16, MOST), &[]));
}
