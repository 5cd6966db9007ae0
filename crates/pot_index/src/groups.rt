//! The groups that the blocks of a split go to.
ghost use Rattle.std.specs.Prelude.{◌≡◌, ◌<◌, ◌^◌};
ghost use Rattle.pot_bytes.specs.Rack.{IsGeometry, IsRack};
ghost use Rattle.pot_index.specs.Fits.{group_of};

use pot_bytes::{Geometry, Rack};

/// The group of the block of this number of a split of this geometry. Blocks are numbered by piece,
/// fragment and point.
pub fn group_of(rack: &Rack, geometry: &Geometry, number: u32) -> u8
    requires rack { IsRack rack.now }
    requires geometry { IsGeometry geometry.now }
    requires number { number < 2 ^ 31 }
    ensures value { result ≡ group_of rack.now geometry.now number }
    ensures within { result < rack.now.groups }
{
    let shards = u32::from(geometry.shards);
    ((number / shards + number % shards) % u32::from(rack.groups)) as u8
}
