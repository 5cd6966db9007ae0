//! In which rack a name stands, and which has the newest snapshot of a name.

use crate::racks::held::Held;
use crate::snapshots::asked_date;
use pot_bytes::Name;
use pots_folders::Snapshot;
use pots_vault::{Stop, Visit};

/// The first rack in which a file of this name stands, or a part of it.
pub fn rack_of(racks: &[Held], text: &str) -> Option<u32> {
    let name = Name::read(text.as_bytes())?;
    for held in racks {
        if held.known.kept(&name).is_some() {
            return Some(held.rack);
        }
    }
    None
}

/// The rack that has the newest snapshot of a name, or the newest at a date, of the snapshots of
/// racks.
pub fn rack_of_snapshot(
    visit: &Visit,
    all: &[(u32, Snapshot)],
    name: &str,
    at: Option<&str>,
) -> Result<Option<u32>, Stop> {
    let date = match at {
        Some(text) => Some(asked_date(visit, text)?),
        None => None,
    };
    let mut found: Option<(u32, Snapshot)> = None;
    for (rack, snapshot) in all {
        let is_at = match &date {
            Some(date) => snapshot.is_at(date.as_str()),
            None => true,
        };
        if is_at && snapshot.name() == name && is_newer(snapshot, &found) {
            found = Some((*rack, *snapshot));
        }
    }
    Ok(found.map(|(rack, _)| rack))
}

// Whether a snapshot is of a later date than the one that was found.
fn is_newer(snapshot: &Snapshot, found: &Option<(u32, Snapshot)>) -> bool {
    match found {
        Some((_, other)) => other.stamp().as_bytes() < snapshot.stamp().as_bytes(),
        None => true,
    }
}
