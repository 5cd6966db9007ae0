//! Loops over the bytes of a row, and over its blocks.
ghost use Rattle.std.specs.Prelude.{◌≡◌, ◌<◌, ◌≤◌, ◌*◌, length, nat_eq, IfOk};
ghost use Rattle.std.specs.List.{All, IsDistinct};
ghost use Rattle.pot_bench.specs.declared.rows.TheConstants.{ROW};

use pot_bytes::{Block, digest_of, fold_weighted, xor_into};
use pot_pads::PadStream;
use pot_sealed::digests_of_four;
use pot_split::{share_join, share_out};
use std::alloc::{AllocError, Global};

/// The bytes of a row, of which 16 are a megabyte.
pub const ROW: usize = 65_536;

/// The seed of all that is computed.
pub const SEED: [u8; 32] = [7; 32];

/// What one round of a loop does.
#[derive(Clone, Copy)]
pub enum Round {
    /// XORs the content into the row.
    XorInto,
    /// Adds each block of the content, times a weight that is greater by one each round, to a
    /// block.
    FoldWeighted,
    /// The share at 3 of the content, where two of them give it.
    ShareTwo,
    /// The share at 5 of the content, where three of them give it.
    ShareThree,
    /// Joins the shares at 2 and 3.
    JoinTwo,
    /// Joins the shares at 3, 4 and 5.
    JoinThree,
    /// Digests the row, and makes the first byte of the digest the row's first.
    Digest,
    /// The digests of the blocks of the content, one at a time.
    DigestBlocks,
    /// The same digests, four at a time.
    DigestFours,
    /// Fills the row with the next bytes of a stream.
    Fill,
}

/// The rows that the loops go over.
#[derive(Drop)]
pub struct Rows {
    content: Vec<u8>,
    one: Vec<u8>,
    two: Vec<u8>,
    three: Vec<u8>,
    blocks: Vec<Block>,
    out: Vec<u8>,
    sum: Block,
    weight: u8,
    digests: Vec<u8>,
    pads: PadStream,
    ghost some: { 0 < length content.items },
    ghost one_len: { length one.items ≡ length content.items },
    ghost two_len: { length two.items ≡ 2 * length content.items },
    ghost three_len: { length three.items ≡ 3 * length content.items },
    ghost out_len: { length out.items ≡ length content.items },
}

impl Rows {
    ghost use Rattle.pot_bench.specs.Rows.{KeepsRows};

    /// Random bytes for a content and for one, two and three rows, and zeros for what is computed.
    pub fn new(alloc: Global) -> Result<Rows, AllocError> {
        let mut pads = PadStream::new(&SEED, 0, 0);
        let content = drawn(alloc, &mut pads, 1)?;
        let one = drawn(alloc, &mut pads, 1)?;
        let two = drawn(alloc, &mut pads, 2)?;
        let three = drawn(alloc, &mut pads, 3)?;
        let mut blocks = Vec::new(alloc);
        for front in content.chunks(1024) {
            blocks.push(Block::padded(front))?;
        }
        Ok(Rows {
            content,
            one,
            two,
            three,
            blocks,
            out: vec![in alloc; 0u8; ROW]?,
            sum: Block::zero(),
            weight: 0,
            digests: Vec::new(alloc),
            pads: PadStream::new(&SEED, 0, 1),
        })
    }

    /// The blocks of the content.
    pub fn blocks(&self) -> &[Block]
        ensures { result.now ≡ self.now.blocks.items }
    {
        &self.blocks
    }

    /// What the last round computed.
    pub fn computed(&self, round: Round) -> &[u8] {
        match round {
            Round::FoldWeighted => self.sum.bytes(),
            Round::DigestBlocks | Round::DigestFours => &self.digests,
            _ => &self.out,
        }
    }

    /// As many rounds.
    pub fn repeat(&mut self, round: Round, times: u32) -> Result<(), AllocError>
        ensures { KeepsRows self.old self.new }
    {
        for _ in 0..times {
            self.go(round)?;
        }
        Ok(())
    }

    /// One round. Want of memory comes from the digests of blocks alone.
    fn go(&mut self, round: Round) -> Result<(), AllocError>
        ensures { KeepsRows self.old self.new }
    {
        match round {
            Round::XorInto => xor_into(&mut self.out, &self.content),
            Round::FoldWeighted => self.fold(),
            Round::ShareTwo => self.share_two(),
            Round::ShareThree => self.share_three(),
            Round::JoinTwo => self.join_two(),
            Round::JoinThree => self.join_three(),
            Round::Digest => self.digest(),
            Round::DigestBlocks => return self.digest_blocks(),
            Round::DigestFours => return self.digest_fours(),
            Round::Fill => self.pads.fill(&mut self.out),
        }
        Ok(())
    }

    fn share_two(&mut self)
        ensures { KeepsRows self.old self.new }
    {
        share_at_three(&self.content, &self.one, &mut self.out);
    }

    fn share_three(&mut self)
        ensures { KeepsRows self.old self.new }
    {
        share_at_five(&self.content, &self.two, &mut self.out);
    }

    fn join_two(&mut self)
        ensures { KeepsRows self.old self.new }
    {
        join(&[2, 3], &self.two, &mut self.out);
    }

    fn join_three(&mut self)
        ensures { KeepsRows self.old self.new }
    {
        join(&[3, 4, 5], &self.three, &mut self.out);
    }

    fn digest(&mut self)
        ensures { KeepsRows self.old self.new }
    {
        digest(&mut self.out);
    }

    fn fold(&mut self)
        ensures { KeepsRows self.old self.new }
    {
        self.weight = self.weight.wrapping_add(1);
        for block in &self.blocks {
            fold_weighted(&mut self.sum, self.weight, block);
        }
    }

    fn digest_blocks(&mut self) -> Result<(), AllocError>
        ensures { KeepsRows self.old self.new }
    {
        self.digests.clear();
        for block in &self.blocks {
            self.digests
                .extend_from_slice(&digest_of(block.bytes()).bytes)?;
        }
        Ok(())
    }

    fn digest_fours(&mut self) -> Result<(), AllocError>
        ensures { KeepsRows self.old self.new }
    {
        self.digests.clear();
        for four in self.blocks.chunks(4) {
            add_four(four, &mut self.digests)?;
        }
        Ok(())
    }
}

/// The next bytes of a stream, so many rows.
fn drawn(alloc: Global, pads: &mut PadStream, rows: usize) -> Result<Vec<u8>, AllocError>
    requires { rows ≤ 3 }
    ensures { IfOk result (λ v. length v.items ≡ rows * ROW) }
{
    let mut bytes = vec![in alloc; 0u8; rows * ROW]?;
    pads.fill(&mut bytes);
    Ok(bytes)
}

/// The share at 3, where two shares give the content.
#[tactic(auto, using(crate::proofs::WholeRows::one_row))]
fn share_at_three(content: &[u8], coefficients: &[u8], out: &mut [u8])
    requires some { 0 < length content.now }
    requires rows { length coefficients.now ≡ length content.now }
    requires wide { length out.old ≡ length content.now }
    ensures { length out.new ≡ length out.old }
{
    share_out(content, coefficients, 3, out);
}

/// The share at 5, where three shares give the content.
#[tactic(auto, using(crate::proofs::WholeRows::two_rows))]
fn share_at_five(content: &[u8], coefficients: &[u8], out: &mut [u8])
    requires some { 0 < length content.now }
    requires rows { length coefficients.now ≡ 2 * length content.now }
    requires wide { length out.old ≡ length content.now }
    ensures { length out.new ≡ length out.old }
{
    share_out(content, coefficients, 5, out);
}

/// Joins the shares at the points.
fn join(points: &[u8], shares: &[u8], out: &mut [u8])
    requires some { 0 < length points.now }
    requires few { length points.now ≤ 16 }
    requires distinct { IsDistinct nat_eq points.now }
    requires not_zero { All (λ x. 0 < x) points.now }
    requires rows { length shares.now ≡ length points.now * length out.old }
    ensures { length out.new ≡ length out.old }
{
    share_join(points, shares, out);
}

/// Digests the row, and makes the first byte of the digest its first.
fn digest(row: &mut [u8])
    requires { 0 < length row.old }
    ensures { length row.new ≡ length row.old }
{
    let digest = digest_of(row);
    row[0] = digest.bytes[0];
}

/// Adds the digests of four blocks.
fn add_four(blocks: &[Block], bytes: &mut Vec<u8>) -> Result<(), AllocError> {
    let [a, b, c, d] = blocks else {
        return Err(AllocError);
    };
    for digest in digests_of_four(a, b, c, d) {
        bytes.extend_from_slice(&digest.bytes)?;
    }
    Ok(())
}
