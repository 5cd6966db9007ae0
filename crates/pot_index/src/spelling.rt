//! Small parts of a record in bytes.
ghost use Rattle.std.specs.Prelude.{◌≡◌};
ghost use Rattle.pot_index.specs.Records.{geometry_bytes, place_bytes};

use pot_bytes::{Geometry, Place};

pub(crate) fn geometry_bytes(geometry: Geometry) -> [u8; 4]
    ensures { result ≡ geometry_bytes geometry }
{
    [
        geometry.fragments,
        geometry.need,
        geometry.shards,
        geometry.blur,
    ]
}

pub(crate) fn place_bytes(place: Place) -> [u8; 6]
    ensures { result ≡ place_bytes place }
{
    let [a, b, c, d] = place.stripe.to_be_bytes();
    [place.group, place.column, a, b, c, d]
}
