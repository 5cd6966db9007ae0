//! The room of a fetch.
ghost use Rattle.std.specs.Prelude.{◌≤◌};
ghost use Rattle.std.specs.Vec.{vec_capacity};

use crate::points::Points;
use crate::shares::Shares;
use pot_bytes::NoMemory;
use pot_object::OBJECT;
use std::alloc::Global;

/// The room that a fetch takes once, for the points and the shares of a fragment, and for the
/// fragments of a piece one after another.
#[derive(Drop)]
pub struct Rooms {
    pub points: Points,
    pub shares: Shares,
    pub fragments: Vec<u8>,
    ghost long: { 7424 ≤ vec_capacity fragments },
}

impl Rooms {
    /// Takes the room.
    pub fn start(alloc: Global) -> Result<Rooms, NoMemory> {
        let points = Points::start(alloc)?;
        let shares = Shares::start(alloc)?;
        let fragments = Vec::with_capacity(alloc, 8 * OBJECT)?;
        Ok(Rooms {
            points,
            shares,
            fragments,
        })
    }
}
