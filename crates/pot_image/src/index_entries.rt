//! The entries of the index's log in an image.
ghost use Rattle.std.specs.Prelude.{◌≡◌, ◌≤◌};
ghost use Rattle.pot_image.specs.Following.{Gives};
ghost use Rattle.pot_image.specs.Reading.{reading};
ghost use Rattle.pot_image.specs.Logs.{index_kinds, behind_name, index_entry_of, index_entry};

use crate::fault::Fault;
use crate::fields::{read_byte, read_digest, read_flag, read_number};
use crate::format::Format;
use crate::names::read_name;
use pot_bytes::Name;
use pot_index::IndexEntry;

/// A name that was published.
fn read_publish(bytes: &[u8], job: u32, name: Name) -> Result<(IndexEntry, &[u8]), Fault>
    ensures { Gives (λ x. (x.0, x.1.now)) result (reading (behind_name job 3 name) bytes.now) }
{
    let (mark, rest) = read_digest(bytes)?;
    Ok((IndexEntry::Publish { job, name, mark }, rest))
}

/// A name whose record was renewed.
fn read_renew(bytes: &[u8], job: u32, name: Name) -> Result<(IndexEntry, &[u8]), Fault>
    ensures { Gives (λ x. (x.0, x.1.now)) result (reading (behind_name job 7 name) bytes.now) }
{
    let (mark, rest) = read_digest(bytes)?;
    Ok((IndexEntry::Renew { job, name, mark }, rest))
}

/// A name that was looked up.
fn read_find(bytes: &[u8], job: u32, name: Name) -> Result<(IndexEntry, &[u8]), Fault>
    ensures { Gives (λ x. (x.0, x.1.now)) result (reading (behind_name job 5 name) bytes.now) }
{
    let (found, rest) = read_flag(bytes)?;
    Ok((IndexEntry::Find { job, name, found }, rest))
}

/// What stands behind the name of an entry.
fn read_behind_name(
    bytes: &[u8],
    job: u32,
    kind: u8,
    name: Name,
) -> Result<(IndexEntry, &[u8]), Fault>
    requires { kind ≤ 8 }
    ensures { Gives (λ x. (x.0, x.1.now)) result (reading (behind_name job kind name) bytes.now) }
{
    match kind {
        1 => Ok((IndexEntry::Reserve { job, name }, bytes)),
        2 => Ok((IndexEntry::Taken { job, name }, bytes)),
        3 => read_publish(bytes, job, name),
        4 => Ok((IndexEntry::Abandon { job, name }, bytes)),
        5 => read_find(bytes, job, name),
        7 => read_renew(bytes, job, name),
        _ => Ok((IndexEntry::Often { job, name }, bytes)),
    }
}

/// What stands behind the kind and the job of an entry.
fn read_index_entry_of(bytes: &[u8], job: u32, kind: u8) -> Result<(IndexEntry, &[u8]), Fault>
    requires { kind ≤ 8 }
    ensures { Gives (λ x. (x.0, x.1.now)) result (reading (index_entry_of job kind) bytes.now) }
{
    if kind == 6 {
        return Ok((IndexEntry::Listed { job }, bytes));
    }
    let (count, after_count) = read_byte(bytes, 1, 64)?;
    let name = read_name(after_count, count)?;
    let (_, rest) = after_count.split_at(usize::from(count));
    read_behind_name(rest, job, kind, name)
}

/// How many kinds of entries the index's log has.
fn index_kinds(format: Format) -> u8
    ensures value { result ≡ index_kinds format }
    ensures most { result ≤ 8 }
{
    match format {
        Format::First => 6,
        Format::Second => 8,
    }
}

/// An entry of the index's log.
pub(crate) fn read_index_entry(bytes: &[u8], format: Format) -> Result<(IndexEntry, &[u8]), Fault>
    ensures { Gives (λ x. (x.0, x.1.now)) result (reading (index_entry format) bytes.now) }
{
    let kinds = index_kinds(format);
    let (kind, after_kind) = read_byte(bytes, 1, kinds)?;
    let (job, after_job) = read_number(after_kind)?;
    read_index_entry_of(after_job, job, kind)
}
