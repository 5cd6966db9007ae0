ghost use Rattle.pot_shard.specs.Shards.{IsShard};

use crate::*;
use pot_bytes::Block;
use pot_object::CONTENT;

fn some_shard() -> Shard
    ensures { IsShard result }
{
    Shard {
        x: 2,
        m: 2,
        n: 3,
        blur: 16,
        name: 0x0123_4567_89ab_cdef,
        pointer: 0xfedc_ba98_7654_0000,
        share: [7; CONTENT],
    }
}

#[test]
fn reads_what_it_writes(rt: HostRuntime) {
    let start = [
        0x50, 0x53, 0x48, 0x31, 2, 2, 3, 16, 0x01, 0x23, 0x45, 0x67, 0x89, 0xab, 0xcd, 0xef, 0xfe,
        0xdc, 0xba, 0x98, 0x76, 0x54, 0, 0, 0, 0, 0, 0, 0, 0, 0, 0, 7,
    ];
    let mut bytes = [7; 1024];
    bytes[..33].copy_from_slice(&start);
    let read = decode_shard(&Block::from_bytes(bytes));
    assert!(rt; read.is_some_and(|shard| shard == some_shard()));
}

/// The least and the greatest byte that may stand at a place of the block of
/// `some_shard` while the others stay.
fn allowed(place: usize) -> (u8, u8) {
    match place {
        0 => (0x50, 0x50),
        1 => (0x53, 0x53),
        2 => (0x48, 0x48),
        3 => (0x31, 0x31),
        4 | 5 => (1, 3),
        6 => (2, 16),
        7 => (0, 18),
        22..=31 => (0, 0),
        _ => (0, 255),
    }
}

#[test]
fn refuses_each_byte_outside(rt: HostRuntime) {
    let mut block = Block::zero();
    encode_shard(&some_shard(), &mut block);
    for place in 0..1024 {
        let (least, greatest) = allowed(place);
        for byte in 0..=255 {
            let mut changed = *block.bytes();
            changed[place] = byte;
            assert_eq!(rt;
                decode_shard(&Block::from_bytes(changed)).is_some(),
                least <= byte && byte <= greatest,
                "{byte} at {place}"
            );
        }
    }
}

#[test]
fn writes_a_block_and_a_ring(rt: HostRuntime) {
    let mut block = Block::zero();
    encode_shard(&some_shard(), &mut block);
    assert!(rt; decode_shard(&block).is_some_and(|shard| shard == some_shard()));
    let mut pointers = [0; 3];
    ring_of(&[0x1234, 0xffff, 0x10], 8, &mut pointers);
    assert_eq!(rt; pointers, [0xff00, 0, 0x1200]);
    let mut alone = [0];
    ring_of(&[0x1234], 4, &mut alone);
    assert_eq!(rt; alone, [0x1230]);
}
