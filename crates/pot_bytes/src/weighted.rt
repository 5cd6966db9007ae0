ghost use Rattle.std.specs.Prelude.{◌≡◌, ℕ, length};
ghost use Rattle.pot_bytes.specs.Sums.{xor, sum_of};
ghost use Rattle.pot_bytes.specs.Weighted.{WeightedLaws, scaled};

use crate::block::Block;
use crate::product::gf_times;

/// XORs `weight` times `from` into `into`, place by place.
///
/// It branches on no byte and looks none up in a table, so that its time tells nothing of them.
pub fn add_weighted(into: &mut [u8], weight: u8, from: &[u8])
    requires { length into.old ≡ length from.now }
    ensures { into.new ≡ xor into.old (scaled weight from.now) }
{
    for i in 0..into.len() {
        into[i] ^= gf_times(from[i], weight);
    }
}

/// XORs `weight` times `from` into `into`.
pub fn fold_weighted(into: &mut Block, weight: u8, from: &Block)
    ensures value { into.new ≡ xor into.old (scaled weight from.now) }
    ensures len { length into.new ≡ 1024 }
{
    add_weighted(&mut into.bytes, weight, &from.bytes);
}

/// The XOR of the blocks, zeros for none.
pub fn stripe_sum(blocks: &[Block]) -> Block
    ensures value { result ≡ sum_of 1024 blocks.now }
    ensures len { length result ≡ 1024 }
{
    let mut sum = Block::zero();
    for block in blocks {
        sum.xor(block);
    }
    sum
}

/// A weighted sum is linear in its weights and in its lists.
pub fn weighted_laws()
    ensures { WeightedLaws }
{}

#[cfg(test)]
mod tests {
    use super::*;

    /// The examples of FIPS 197, 4.2: 57 times 83 is c1, and 57 times 13 is fe.
    #[test]
    fn products_and_sums(rt: HostRuntime) {
        assert_eq!(rt; gf_times(0x57, 0x83), 0xc1);
        assert_eq!(rt; gf_times(0x57, 0x13), 0xfe);
        let mut into = [0x00, 0x01, 0xff];
        add_weighted(&mut into, 0x83, &[0x57, 0x00, 0x57]);
        assert_eq!(rt; into, [0xc1, 0x01, 0x3e]);
        let mut block = Block::from_bytes([0x01; 1024]);
        fold_weighted(&mut block, 0x57, &Block::from_bytes([0x13; 1024]));
        assert_eq!(rt; block.bytes()[1023], 0xff);
        let sum = stripe_sum(&[block, Block::from_bytes([0xf0; 1024]), Block::zero()]);
        assert_eq!(rt; sum.bytes()[0], 0x0f);
        assert_eq!(rt; stripe_sum(&[]).bytes()[512], 0);
    }
}
