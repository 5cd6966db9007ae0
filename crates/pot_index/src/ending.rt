//! Where a reservation ended.
ghost use Rattle.std.specs.Prelude.{◌↔◌, ◌≤◌, IsTrue, Any, MatchOption, length};
ghost use Rattle.pot_bytes.specs.Rack.{log_bound};
ghost use Rattle.pot_index.specs.Entries.{IsReserving, IsEnding};
ghost use Rattle.pot_index.specs.Ending.{IsNameHeld, EndsAt, StepsEnd};

use crate::entry::IndexEntry;
use pot_bytes::Name;

/// Whether the entry makes the job's reservation of the name.
fn is_reserving(entry: &IndexEntry, job: u32, name: &Name) -> bool
    ensures { IsTrue result ↔ IsReserving job name.now entry.now }
{
    match entry {
        IndexEntry::Reserve {
            job: owner,
            name: reserved,
        } => *owner == job && *reserved == *name,
        IndexEntry::Taken { .. } => false,
        IndexEntry::Publish { .. } => false,
        IndexEntry::Abandon { .. } => false,
        IndexEntry::Find { .. } => false,
        IndexEntry::Listed { .. } => false,
        IndexEntry::Renew { .. } => false,
        IndexEntry::Often { .. } => false,
    }
}

/// Whether the entry ends the job's reservation of the name.
fn is_ending(entry: &IndexEntry, job: u32, name: &Name) -> bool
    ensures { IsTrue result ↔ IsEnding job name.now entry.now }
{
    match entry {
        IndexEntry::Publish {
            job: owner,
            name: published,
            ..
        } => *owner == job && *published == *name,
        IndexEntry::Abandon {
            job: owner,
            name: abandoned,
        } => *owner == job && *abandoned == *name,
        IndexEntry::Reserve { .. } => false,
        IndexEntry::Taken { .. } => false,
        IndexEntry::Find { .. } => false,
        IndexEntry::Listed { .. } => false,
        IndexEntry::Renew { .. } => false,
        IndexEntry::Often { .. } => false,
    }
}

/// Where the reservation ended, after one more entry.
fn ended_with(ended: Option<u32>, at: u32, entry: &IndexEntry, job: u32, name: &Name) -> Option<u32>
    ensures { StepsEnd job name.now entry.now at ended result }
{
    if is_reserving(entry, job, name) {
        return None;
    }
    match ended {
        Some(first) => Some(first),
        None => is_ending(entry, job, name).then_some(at),
    }
}

/// Where the job's last reservation of the name ended, if it did.
pub(crate) fn end_of(log: &[IndexEntry], job: u32, name: &Name) -> Option<u32>
    requires few { length log.now ≤ log_bound }
    requires made { Any (IsReserving job name.now) log.now }
    ensures { MatchOption result (IsNameHeld job name.now log.now) (EndsAt job name.now log.now) }
{
    let mut ended = None;
    for (at, entry) in log.iter().enumerate() {
        ended = ended_with(ended, at as u32, entry, job, name);
    }
    ended
}
