//! The logs of an image.
ghost use Rattle.std.specs.Prelude.{◌≡◌, map};
ghost use Rattle.pot_bytes.specs.Rack.{IsRack};
ghost use Rattle.pot_image.specs.Following.{Gives};
ghost use Rattle.pot_image.specs.Reading.{reading};
ghost use Rattle.pot_image.specs.Logs.{group_log, group_logs, index_log};

use crate::columns::read_at_most;
use crate::entries::read_entry;
use crate::fault::Fault;
use crate::format::Format;
use crate::index_entries::read_index_entry;
use pot_bytes::Rack;
use pot_index::IndexEntry;
use pot_machine::Entry;
use std::alloc::Global;

/// How many entries a log may have.
const LOG_ENTRIES: u32 = 262_144;

/// No entry has fewer bytes.
const ENTRY_BYTES: usize = 5;

/// The log of a group.
fn read_group_log<'a>(
    alloc: Global,
    bytes: &'a [u8],
    format: Format,
    rack: &Rack,
) -> Result<(Vec<Entry>, &'a [u8]), Fault>
    requires { IsRack rack.now }
    ensures { Gives (λ x. (x.0.items, x.1.now)) result
        (reading (group_log format rack.now) bytes.now) }
{
    let (count, after_count) = read_at_most(bytes, LOG_ENTRIES)?;
    let mut entries = Vec::with_capacity(
        alloc,
        (count as usize).min(after_count.len() / ENTRY_BYTES),
    )?;
    let mut rest = after_count;
    for _ in 0..count {
        let (entry, after) = read_entry(rest, format, rack)?;
        entries.push(entry)?;
        rest = after;
    }
    Ok((entries, rest))
}

/// The logs of all groups.
pub(crate) fn read_group_logs<'a>(
    alloc: Global,
    bytes: &'a [u8],
    format: Format,
    rack: &Rack,
) -> Result<(Vec<Vec<Entry>>, &'a [u8]), Fault>
    requires { IsRack rack.now }
    ensures { Gives (λ x. (map (λ v. v.items) x.0.items, x.1.now)) result
        (reading (group_logs format rack.now) bytes.now) }
{
    let mut logs = Vec::with_capacity(alloc, usize::from(rack.groups))?;
    let mut rest = bytes;
    for _ in 0..rack.groups {
        let (log, after) = read_group_log(alloc, rest, format, rack)?;
        logs.push(log)?;
        rest = after;
    }
    Ok((logs, rest))
}

/// The log of the index.
pub(crate) fn read_index_log<'a>(
    alloc: Global,
    bytes: &'a [u8],
    format: Format,
) -> Result<(Vec<IndexEntry>, &'a [u8]), Fault>
    ensures { Gives (λ x. (x.0.items, x.1.now)) result (reading (index_log format) bytes.now) }
{
    let (count, after_count) = read_at_most(bytes, LOG_ENTRIES)?;
    let mut entries = Vec::with_capacity(
        alloc,
        (count as usize).min(after_count.len() / ENTRY_BYTES),
    )?;
    let mut rest = after_count;
    for _ in 0..count {
        match read_index_entry(rest, format) {
            Err(fault) => return Err(fault),
            Ok((entry, after)) => {
                entries.push(entry)?;
                rest = after;
            }
        }
    }
    Ok((entries, rest))
}
