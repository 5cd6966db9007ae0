use crate::rebuilt;
use pot_bytes::Block;
use std::test::Fail;

// The blocks of a stripe of three data columns, each of one byte, with P and Q, computed apart by
// the rules of FIPS 197: P is 57 + 83 + 13, and Q is 57 + 3 * 83 + 5 * 13.
const BYTES: [u8; 5] = [0x57, 0x83, 0x13, 0xc7, 0x96];

fn stripe() -> [Block; 5] {
    let mut blocks = [Block::zero(); 5];
    for column in 0..5 {
        blocks[column] = Block::from_bytes([BYTES[column]; 1024]);
    }
    blocks
}

// The stripe in which these two columns have another block.
fn spoilt(target: u8, out: u8) -> [Block; 5] {
    let mut blocks = stripe();
    for column in [target, out] {
        if column < 5 {
            blocks[usize::from(column)] = Block::from_bytes([0xaa; 1024]);
        }
    }
    blocks
}

#[test]
fn each_two_columns_are_made_anew(rt: HostRuntime) -> Result<(), Fail> {
    for target in 0..5u8 {
        for out in 0..5u8 {
            if out != target {
                let made = rebuilt(3, 2, target, out, &spoilt(target, out));
                assert_eq!(rt; made.bytes()[0], BYTES[usize::from(target)]);
                assert_eq!(rt; made.bytes()[1023], BYTES[usize::from(target)]);
            }
        }
    }
    Ok(())
}

#[test]
fn with_one_parity_column_each_is_made_anew(rt: HostRuntime) -> Result<(), Fail> {
    for target in 0..4u8 {
        let made = rebuilt(3, 1, target, 4, &spoilt(target, 4)[..4]);
        assert_eq!(rt; made.bytes()[0], BYTES[usize::from(target)]);
    }
    Ok(())
}
