//! How the entries of the index's log are written.
ghost use Rattle.std.specs.Prelude.{◌≡◌, ◌++◌, OnOk};
ghost use Rattle.pot_bytes.specs.Names.{IsName};
ghost use Rattle.pot_index.specs.Records.{name_bytes};
ghost use Rattle.pot_image.specs.Rules.{FitsIndexEntry, IsJob};
ghost use Rattle.pot_image.specs.Spelling.{lead_bytes, index_entry_bytes};

use crate::entry_writing::append_lead;
use crate::writing::{append_digest, append_flag};
use pot_bytes::Name;
use pot_index::IndexEntry;
use std::alloc::AllocError;

/// A kind, a job and a name.
fn append_named(out: &mut Vec<u8>, kind: u8, job: u32, name: &Name) -> Result<(), AllocError>
    ensures bytes { OnOk result
        (out.new.items ≡ out.old.items ++ (lead_bytes kind job ++ name_bytes name.now)) }
    ensures job { IsJob job }
    ensures name { IsName name.now }
{
    let bytes = name.bytes();
    append_lead(out, kind, job)?;
    out.extend_from_slice(&[bytes.len() as u8])?;
    out.extend_from_slice(bytes)
}

/// An entry.
#[tactic(auto, unfolding(crate::specs::Spelling::index_entry_bytes))]
pub(crate) fn append_index_entry(out: &mut Vec<u8>, entry: &IndexEntry) -> Result<(), AllocError>
    ensures bytes { OnOk result
        (out.new.items ≡ out.old.items ++ index_entry_bytes entry.now) }
    ensures whole { OnOk result (FitsIndexEntry entry.now) }
{
    match entry {
        IndexEntry::Reserve { job, name } => append_named(out, 1, *job, name),
        IndexEntry::Taken { job, name } => append_named(out, 2, *job, name),
        IndexEntry::Publish { job, name, mark } => {
            append_named(out, 3, *job, name)?;
            append_digest(out, *mark)
        }
        IndexEntry::Abandon { job, name } => append_named(out, 4, *job, name),
        IndexEntry::Find { job, name, found } => {
            append_named(out, 5, *job, name)?;
            append_flag(out, *found)
        }
        IndexEntry::Listed { job } => append_lead(out, 6, *job),
        IndexEntry::Renew { job, name, mark } => {
            append_named(out, 7, *job, name)?;
            append_digest(out, *mark)
        }
        IndexEntry::Often { job, name } => append_named(out, 8, *job, name),
    }
}
