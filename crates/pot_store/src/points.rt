//! What is known of the points of one fragment.
ghost use Rattle.std.specs.Prelude.{◌≡◌, ◌<◌, ◌≤◌, length, slice_index_or, IfOk};

use crate::shares::Shares;
use crate::visiting::Point;
use pot_bytes::{Block, NoMemory};
use std::alloc::Global;

/// What came of each of up to 16 points, and the blocks that were read.
#[derive(Drop)]
pub struct Points {
    known: Vec<Point>,
    blocks: Vec<Block>,
    ghost long: { length known.items ≡ 16 },
    ghost blocks_long: { length blocks.items ≡ 16 },
}

impl Points {
    ghost use Rattle.pot_machine.specs.Table.{count};
    ghost use Rattle.pot_store.specs.declared.visiting.Point.TheVariants as point;
    ghost use Rattle.pot_store.specs.Visits.{came_of, was_seen};
    ghost use Rattle.pot_store.specs.Points.{came_in, AreUnknown, AreGathered, IsPointSet};

    /// Room for 16 points, of which nothing is known.
    pub fn start(alloc: Global) -> Result<Points, NoMemory>
        ensures { IfOk result AreUnknown }
    {
        let known = vec![in alloc; Point::Unknown; 16]?;
        let blocks = vec![in alloc; Block::zero(); 16]?;
        Ok(Points { known, blocks })
    }

    /// Nothing is known of them.
    pub fn clear(&mut self)
        ensures { AreUnknown self.new }
    {
        for x in 0..self.known.len() {
            self.known[x] = Point::Unknown;
        }
    }

    /// What is known of a point, from 0.
    pub fn known(&self, x: u8) -> Point
        requires { x < 16 }
        ensures { result ≡ slice_index_or self.now.known.items x point.Unknown }
    {
        self.known[usize::from(x)]
    }

    /// How many of the first n were seen.
    pub fn count(&self, n: u8) -> u8
        requires { n ≤ 16 }
        ensures { result ≡ count n (λ x. was_seen (came_in self.now x)) }
    {
        let mut seen = 0;
        for x in 0..n {
            if let Point::Seen = self.known(x) {
                seen += 1;
            }
        }
        seen
    }

    /// Notes what came of a point, from 0, and the block that was read of it.
    pub fn note(&mut self, x: u8, point: Point, block: &Block)
        requires { x < 16 }
        ensures { IsPointSet x (came_of point block.now) self.old self.new }
    {
        let at = usize::from(x);
        self.known[at] = point;
        self.blocks[at] = *block;
    }

    /// Gathers the shares of those of the first n that were seen, in their order.
    pub fn gather(&self, n: u8, shares: &mut Shares)
        requires { n ≤ 16 }
        ensures { AreGathered n self.now shares.new }
    {
        shares.clear();
        for x in 0..n {
            if let Point::Seen = self.known(x) {
                shares.keep(x + 1, &self.blocks[usize::from(x)].bytes()[32..]);
            }
        }
    }
}
