//! The veils of a record.
ghost use Rattle.std.specs.Prelude.{◌≡◌, ◌≤◌, ◌+◌, ◌*◌, length, IfOk, OnOk};
ghost use Rattle.pot_bytes.specs.Rack.{IsGeometry, IsRack};
ghost use Rattle.pot_index.specs.Fits.{FitsRack};
ghost use Rattle.pot_audit.specs.Exposure.{AreSpots};
ghost use Rattle.pot_audit.specs.Veils.{AddsVeils, AreVeils, IsVeil};

use crate::coalition::Coalition;
use crate::spot::Spot;
use crate::veil::{Veil, Veils};
use pot_bytes::{Geometry, NoMemory, Place, Rack};
use pot_index::Record;
use pot_object::count_pieces;
use std::alloc::Global;

/// The first fragment of a piece with the fewest exposed points.
fn veil_of(
    coalition: &Coalition<'_>,
    geometry: &Geometry,
    places: &[Place],
    split: u8,
    piece: u32,
) -> Veil
    requires geometry { IsGeometry geometry.now }
    requires piece { (piece + 1) * geometry.now.fragments * geometry.now.shards
        ≤ length places.now }
    ensures { IsVeil coalition.now.rack.now coalition.now.spots.now
        (record { geometry = geometry.now; places = places.now }) split piece result }
{
    let mut veil = Veil {
        split,
        piece,
        fragment: 1,
        have: coalition.exposed_points(geometry, places, piece, 0),
        need: geometry.need,
    };
    for fragment in 1..geometry.fragments {
        let have = coalition.exposed_points(geometry, places, piece, fragment);
        if have < veil.have {
            veil.fragment = fragment + 1;
            veil.have = have;
        }
    }
    veil
}

/// Adds the veil of each piece of a split.
fn audit_split(
    coalition: &Coalition<'_>,
    geometry: &Geometry,
    places: &[Place],
    split: u8,
    pieces: u32,
    veils: &mut Vec<Veil>,
) -> Result<(), NoMemory>
    requires geometry { IsGeometry geometry.now }
    requires count { length places.now ≡ pieces * geometry.now.fragments * geometry.now.shards }
    ensures { OnOk result (AddsVeils coalition.now.rack.now coalition.now.spots.now
        (record { geometry = geometry.now; places = places.now }) split pieces veils.old.items veils.new.items) }
{
    for piece in 0..pieces {
        let veil = veil_of(coalition, geometry, places, split, piece);
        let Ok(()) = veils.push(veil) else {
            return Err(NoMemory);
        };
    }
    Ok(())
}

/// How many points of each piece of each split of a record are exposed to a coalition, of the
/// fragment that has the fewest.
///
/// The splits stand by age, the oldest first. The spots are of the rack, and ascend by group and
/// then by column.
pub fn audit_record(
    alloc: Global,
    kept: &Record,
    rack: &Rack,
    coalition: &[Spot],
) -> Result<Veils, NoMemory>
    requires rack { IsRack rack.now }
    requires fits { FitsRack rack.now kept.now }
    requires spots { AreSpots rack.now coalition.now }
    ensures { IfOk result (AreVeils rack.now coalition.now kept.now) }
{
    let coalition = Coalition {
        rack,
        spots: coalition,
    };
    let pieces = count_pieces(kept.length);
    let older = kept.older.as_slice();
    let mut veils = Vec::new(alloc);
    for (number, split) in older.iter().enumerate() {
        let places = split.places.as_slice();
        audit_split(
            &coalition,
            &split.geometry,
            places,
            number as u8,
            pieces,
            &mut veils,
        )?;
    }
    let places = kept.places.as_slice();
    audit_split(
        &coalition,
        &kept.geometry,
        places,
        older.len() as u8,
        pieces,
        &mut veils,
    )?;
    Ok(Veils::from_vec(veils))
}
