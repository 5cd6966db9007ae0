//! The shares of one fragment.
ghost use Rattle.std.specs.Prelude.{◌≡◌, ◌<◌, ◌≤◌, ◌+◌, ◌*◌, ◌++◌, [], ◌∷◌, length, nat_eq, IfOk};
ghost use Rattle.std.specs.List.{All, IsDistinct};
ghost use Rattle.std.specs.Vec.{vec_len, vec_capacity};
ghost use Rattle.pot_split.specs.Threshold.{IsJoin};

use pot_bytes::NoMemory;
use pot_object::CONTENT;
use pot_split::share_join;
use std::alloc::Global;

/// The shares of a fragment that were read, row by row, and the points at which they stand.
#[derive(Drop)]
pub struct Shares {
    points: Vec<u8>,
    rows: Vec<u8>,
    ghost wide: { length rows.items ≡ length points.items * 992 },
    ghost room: { 16 ≤ vec_capacity points },
    ghost rows_room: { 15872 ≤ vec_capacity rows },
}

impl Shares {
    ghost use Rattle.pot_store.specs.Shares.{AreNone};

    /// Room for the shares of 16 points, and none yet.
    pub fn start(alloc: Global) -> Result<Shares, NoMemory>
        ensures { IfOk result AreNone }
    {
        let points = Vec::with_capacity(alloc, 16)?;
        let rows = Vec::with_capacity(alloc, 16 * CONTENT)?;
        Ok(Shares { points, rows })
    }

    /// There are none.
    pub fn clear(&mut self)
        ensures { AreNone self.new }
    {
        self.points.clear();
        self.rows.clear();
    }

    /// One share more, and its point.
    pub fn keep(&mut self, point: u8, share: &[u8])
        requires few { length self.old.points.items < 16 }
        requires wide { length share.now ≡ 992 }
        ensures points { self.new.points.items ≡ self.old.points.items ++ point ∷ [] }
        ensures rows { self.new.rows.items ≡ self.old.rows.items ++ share.now }
    {
        self.points.push_reserved(point);
        append(&mut self.rows, share);
    }

    /// What the shares are joined to.
    pub fn join(&self, content: &mut [u8])
        requires long { length content.old ≡ 992 }
        requires some { 0 < length self.now.points.items }
        requires few { length self.now.points.items ≤ 16 }
        requires distinct { IsDistinct nat_eq self.now.points.items }
        requires not_zero { All (λ x. 0 < x) self.now.points.items }
        ensures { IsJoin self.now.points.items self.now.rows.items content.new }
    {
        share_join(&self.points, &self.rows, content);
    }
}

/// Appends a part for which there is room.
pub fn append(into: &mut Vec<u8>, part: &[u8])
    requires { vec_len into.old + length part.now ≤ vec_capacity into.old }
    ensures items { into.new.items ≡ into.old.items ++ part.now }
    ensures room { vec_capacity into.old ≤ vec_capacity into.new }
{
    let Ok(()) = into.extend_from_slice(part) else {
        unreachable!()
    };
}
