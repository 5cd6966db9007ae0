ghost use Rattle.std.specs.Prelude.{◌≡◌, ◌≤◌, ◌-◌, ◌++◌, length, drop, replicate};
ghost use Rattle.pot_bytes.specs.Lists.{AreBytes, IsBlock};
ghost use Rattle.pot_bytes.specs.Sums.{xor, zero_block};

use std::marker::Model;

/// What an archive holds in one slot: 1,024 bytes. Contracts see the list of its bytes.
#[derive(Clone, Copy)]
pub struct Block {
    pub(crate) bytes: [u8; 1024],
}

impl Model for Block {
    ghost use Rattle.std.specs.Prelude.{◌≡◌, ℕ, List, length};

    ghost Value = { List ℕ };

    ghost view = { λ b. b.bytes };

    ghost invariant = { λ b. length b.bytes ≡ 1024 };

    ghost inverse = { λ v. record { bytes = v } };
}

impl Block {
    /// The block of zeros.
    pub fn zero() -> Block
        ensures { result ≡ zero_block }
    {
        Block { bytes: [0; 1024] }
    }

    /// The block of these bytes.
    pub fn from_bytes(bytes: [u8; 1024]) -> Block
        ensures { result ≡ bytes }
    {
        Block { bytes }
    }

    /// The block of these bytes, at most 1,024, with zeros behind them.
    pub fn padded(front: &[u8]) -> Block
        requires { length front.now ≤ 1024 }
        ensures { result ≡ front.now ++ replicate (1024 - length front.now) 0 }
    {
        let mut bytes = [0u8; 1024];
        put_front(&mut bytes, front);
        Block { bytes }
    }

    /// Its bytes.
    pub fn bytes(&self) -> &[u8; 1024]
        ensures value { result.now ≡ self.now }
        ensures len { length self.now ≡ 1024 }
    {
        &self.bytes
    }

    /// XORs another block into it.
    pub fn xor(&mut self, from: &Block)
        ensures value { self.new ≡ xor self.old from.now }
        ensures len { length self.new ≡ 1024 }
    {
        xor_into(&mut self.bytes, &from.bytes);
    }
}

/// A block is 1,024 bytes. It does nothing.
pub fn block_law(block: &Block)
    ensures { IsBlock block.now }
{
    each_is_a_byte(block.bytes());
}

/// Each element of these is a byte. It does nothing.
fn each_is_a_byte(bytes: &[u8])
    ensures { AreBytes bytes.now }
{
    let _first = bytes.first();
}

/// Writes `from` over the first bytes of `into`.
pub(crate) fn put_front(into: &mut [u8], from: &[u8])
    requires { length from.now ≤ length into.old }
    ensures { into.new ≡ from.now ++ drop (length from.now) into.old }
{
    into[..from.len()].copy_from_slice(from);
}

/// XORs `from` into `into`, place by place.
pub fn xor_into(into: &mut [u8], from: &[u8])
    requires { length into.old ≡ length from.now }
    ensures { into.new ≡ xor into.old from.now }
{
    for i in 0..into.len() {
        into[i] ^= from[i];
    }
}
