//! What a coalition has.
ghost use Rattle.std.specs.Prelude.{◌≡◌, ◌≤◌, ◌==◌, ◌&&◌, ◌+◌, ◌*◌, nat_le, length, filter};
ghost use Rattle.std.specs.List.{list_any};
ghost use Rattle.pot_bytes.specs.Rack.{IsGeometry};
ghost use Rattle.pot_audit.specs.Exposure.{exposed_points, has_column, is_exposed, is_open};

use crate::spot::Spot;
use pot_bytes::{Geometry, Place, Rack};

/// Some columns of a rack, ascending.
#[derive(Clone, Copy)]
pub(crate) struct Coalition<'a> {
    pub rack: &'a Rack,
    pub spots: &'a [Spot],
}

impl Coalition<'_> {
    /// How many columns of a group it has.
    fn count_columns(&self, group: u8) -> usize
        ensures { result ≡ length (filter (λ s. s.group == group) self.now.spots.now) }
    {
        self.spots.iter().filter(|s| s.group == group).count()
    }

    /// Whether it has a parity column of a group.
    fn has_parity(&self, group: u8) -> bool
        ensures { result ≡ list_any
            (λ s. (s.group == group) && nat_le self.now.rack.now.columns s.column) self.now.spots.now }
    {
        let columns = self.rack.columns;
        self.spots
            .iter()
            .any(|s| s.group == group && columns <= s.column)
    }

    /// Whether it has a column of a group.
    fn has_column(&self, group: u8, column: u8) -> bool
        ensures { result ≡ has_column self.now.spots.now group column }
    {
        self.spots
            .iter()
            .any(|s| s.group == group && s.column == column)
    }

    /// Whether a group is open: it has two of its columns, or a parity column.
    fn is_open(&self, group: u8) -> bool
        ensures { result ≡ is_open self.now.rack.now self.now.spots.now group }
    {
        2 <= self.count_columns(group) || self.has_parity(group)
    }

    /// Whether the blocks of a column are exposed.
    pub fn is_exposed(&self, spot: Spot) -> bool
        ensures { result
            ≡ is_exposed self.now.rack.now self.now.spots.now spot.group spot.column }
    {
        self.is_open(spot.group) || self.has_column(spot.group, spot.column)
    }

    /// How many points of a fragment are exposed. The numbers of the piece and of the fragment are
    /// from 0.
    pub fn exposed_points(
        &self,
        geometry: &Geometry,
        places: &[Place],
        piece: u32,
        fragment: u8,
    ) -> u8
        requires geometry { IsGeometry geometry.now }
        requires piece { (piece * geometry.now.fragments + fragment + 1) * geometry.now.shards
            ≤ length places.now }
        ensures { result ≡ exposed_points self.now.rack.now self.now.spots.now
            (record { geometry = geometry.now; places = places.now }) piece fragment }
    {
        let fragments = piece as usize * usize::from(geometry.fragments) + usize::from(fragment);
        let first = fragments * usize::from(geometry.shards);
        let mut count = 0;
        for point in 0..geometry.shards {
            let Place { group, column, .. } = places[first + usize::from(point)];
            if self.is_exposed(Spot { group, column }) {
                count += 1;
            }
        }
        count
    }
}
