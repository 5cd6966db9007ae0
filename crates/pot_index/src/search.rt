//! Searches in the lists of an index.
ghost use Rattle.std.specs.Prelude.{◌≡◌, MatchResult};
ghost use Rattle.std.specs.List.{list_any, position};
ghost use Rattle.pot_index.specs.Index.{NamesAscend, same_name, without};
ghost use Rattle.pot_index.specs.Searches.{RecordStandsAt, BelongsAt};

use crate::record::Record;
use crate::reservation::Reservation;
use pot_bytes::Name;

/// Where the record of this name stands, or else where it belongs.
pub(crate) fn place_of(records: &[Record], name: &Name) -> Result<usize, usize>
    requires { NamesAscend records.now }
    ensures { MatchResult result (RecordStandsAt records.now name.now)
        (BelongsAt records.now name.now) }
{
    records.binary_search_by_key(name, |record| record.name)
}

/// Whether a reservation is of this name.
pub(crate) fn is_reserved(reserved: &[Reservation], name: &Name) -> bool
    ensures { result ≡ list_any (λ x. same_name x.name name.now) reserved.now }
{
    reserved.iter().any(|reservation| reservation.name == *name)
}

/// Where the first reservation of this name stands.
fn reservation_of(reserved: &[Reservation], name: &Name) -> Option<usize>
    ensures { result ≡ position (λ x. same_name x.name name.now) reserved.now }
{
    reserved
        .iter()
        .position(|reservation| reservation.name == *name)
}

/// Takes the reservation of this name away, if there is one.
pub(crate) fn release(reserved: &mut Vec<Reservation>, name: &Name)
    ensures items { reserved.new.items ≡ without name.now reserved.old.items }
{
    if let Some(at) = reservation_of(reserved, name) {
        let _ = reserved.remove(at);
    }
}
