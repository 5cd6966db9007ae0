//! The shares of one fragment.
ghost use Rattle.std.specs.Prelude.{◌≡◌, ◌≢◌, ◌≤◌, ◌<◌, ◌*◌, false, length, nat_eq};
ghost use Rattle.std.specs.List.{All, IsDistinct};
ghost use Rattle.std.proofs.lemmas.Map.Keys.{IsDistinct-prop};

use pot_object::CONTENT;
use pot_split::share_join;
use std::alloc::{AllocError, Global};

/// The most points of a fragment.
const MOST: usize = 16;

/// Shares of a fragment, row by row, and the points at which they stand.
#[derive(Drop)]
pub struct Shares {
    points: Vec<u8>,
    rows: Vec<u8>,
    ghost few: { length points.items ≤ 16 },
    ghost distinct: { IsDistinct nat_eq points.items } by { IsDistinct-prop nat_eq points.items },
    ghost not_zero: { All (λ x. 0 < x) points.items },
    ghost wide: { length rows.items ≡ length points.items * 992 },
}

impl Shares {
    /// None yet.
    pub fn none(alloc: Global) -> Shares {
        Shares {
            points: Vec::new(alloc),
            rows: Vec::new(alloc),
        }
    }

    /// There are none any more.
    pub fn clear(&mut self) {
        self.points.clear();
        self.rows.clear();
    }

    /// How many there are.
    pub fn count(&self) -> usize {
        self.points.len()
    }

    /// One share more. At 0, and at a point at which one stands, none is kept.
    pub fn keep(&mut self, point: u8, share: &[u8; CONTENT]) -> Result<(), AllocError> {
        if point == 0 || self.points.len() >= MOST || has(&self.points, point) {
            return Ok(());
        }
        self.points.reserve(1)?;
        self.rows.extend_from_slice(share)?;
        self.points.push_reserved(point);
        Ok(())
    }

    /// Writes what they are joined to. Where there are none nothing is written.
    pub fn join(&self, content: &mut [u8; CONTENT]) {
        if !self.points.is_empty() {
            share_join(&self.points, &self.rows, content);
        }
    }
}

/// Whether a point is among these.
fn has(points: &[u8], point: u8) -> bool
    ensures { result ≡ false → All (λ x. x ≢ point) points.now }
{
    for i in 0..points.len() {
        if points[i] == point {
            return true;
        }
    }
    false
}
