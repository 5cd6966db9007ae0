//! The loops over bytes beside plain ones, at lengths around those of a row of lanes.
ghost use Rattle.std.specs.Prelude.{◌≡◌, ◌≤◌, ◌<◌, length};

use pot_bytes::{Block, add_weighted, digest_of, fold_weighted, stripe_sum, xor_into};
use pot_sealed::seal_four;
use pot_split::{secrecy_join, secrecy_split, share_join, share_out};

/// No byte and one, a byte less than 32 lanes, as many and one more, and a block.
const LENGTHS: [usize; 6] = [0, 1, 31, 32, 33, 1024];

/// Weights of no term, of one, and of some.
const WEIGHTS: [u8; 6] = [0x00, 0x01, 0x02, 0x57, 0x80, 0xff];

/// The product of two polynomials over two elements, divided at its end by z^8 + z^4 + z^3 + z + 1
/// (FIPS 197, 4.2).
fn product(a: u8, b: u8) -> u8 {
    let mut whole: u16 = 0;
    for bit in 0..8u32 {
        if (b >> bit) & 1 == 1 {
            whole ^= u16::from(a) << bit;
        }
    }
    for high in [14u32, 13, 12, 11, 10, 9, 8] {
        if (whole >> high) & 1 == 1 {
            whole ^= 0x11b << (high - 8);
        }
    }
    whole.to_le_bytes()[0]
}

/// 1,024 bytes, each this much above the one before modulo 251.
fn row(step: usize) -> [u8; 1024]
    ensures { length result ≡ 1024 }
{
    let mut row = [0; 1024];
    for (place, byte) in row.iter_mut().enumerate() {
        *byte = (place.wrapping_mul(step) % 251) as u8;
    }
    row
}

/// Whether each byte is the one before with this weight times one of `from` added.
fn is_sum(before: &[u8], weight: u8, from: &[u8], after: &[u8]) -> bool {
    let plain = before
        .iter()
        .zip(from)
        .map(|(a, b)| *a ^ product(*b, weight));
    before.len() == after.len() && plain.zip(after).all(|(wanted, found)| wanted == *found)
}

/// Sums of this length: by XOR, and with each weight.
fn adds(len: usize) -> bool
    requires { len ≤ 1024 }
{
    let (before, from) = (row(7), row(13));
    let mut summed = row(7);
    xor_into(&mut summed[..len], &from[..len]);
    if summed[len..] != before[len..] || !is_sum(&before[..len], 1, &from[..len], &summed[..len]) {
        return false;
    }
    for weight in WEIGHTS {
        let mut into = row(7);
        add_weighted(&mut into[..len], weight, &from[..len]);
        if !is_sum(&before[..len], weight, &from[..len], &into[..len]) {
            return false;
        }
    }
    true
}

/// Splits of this length and back: by XOR into two fragments, and by a threshold of two at two
/// points.
fn splits(len: usize) -> bool
    requires some { 0 < len }
    requires few { len ≤ 1024 }
{
    let (content, random) = (row(7), row(13));
    let mut parts = [0; 2048];
    let mut joined = [0; 1024];
    parts[..len].copy_from_slice(&random[..len]);
    secrecy_split(&content[..len], &random[..len], &mut parts[len..2 * len]);
    if !is_sum(&content[..len], 1, &random[..len], &parts[len..2 * len]) {
        return false;
    }
    secrecy_join(&parts[..2 * len], &mut joined[..len]);
    if joined[..len] != content[..len] {
        return false;
    }
    let points = [0x02, 0xff];
    share_out(
        &content[..len],
        &random[..len],
        points[0],
        &mut parts[..len],
    );
    share_out(
        &content[..len],
        &random[..len],
        points[1],
        &mut parts[len..2 * len],
    );
    joined.fill(0);
    share_join(&points, &parts[..2 * len], &mut joined[..len]);
    is_sum(&content[..len], points[0], &random[..len], &parts[..len])
        && is_sum(
            &content[..len],
            points[1],
            &random[..len],
            &parts[len..2 * len],
        )
        && joined[..len] == content[..len]
}

#[test]
fn sums_and_products(rt: HostRuntime) {
    for len in LENGTHS {
        assert!(rt; adds(len));
    }
    let (before, from) = (Block::from_bytes(row(7)), Block::from_bytes(row(13)));
    for weight in WEIGHTS {
        let mut into = before;
        fold_weighted(&mut into, weight, &from);
        assert!(rt; is_sum(before.bytes(), weight, from.bytes(), into.bytes()));
    }
    let sum = stripe_sum(&[before, from]);
    assert!(rt; is_sum(before.bytes(), 1, from.bytes(), sum.bytes()));
}

#[test]
fn splits_and_joins(rt: HostRuntime) {
    for len in [1, 31, 32, 33, 992, 1024] {
        assert!(rt; splits(len));
    }
}

/// A block of each kind beside the others: the digests taken together are those taken alone.
#[test]
fn seals(rt: HostRuntime) {
    let blocks = [7usize, 13, 29, 250].map(|step| Block::from_bytes(row(step)));
    let [a, b, c, d] = &blocks;
    let sealed = seal_four(a, b, c, d);
    for (block, seal) in blocks.iter().zip(&sealed) {
        assert!(rt; seal.is(block));
        assert!(rt; seal.digest() == digest_of(block.bytes()));
    }
}
