//! The entries of the index's log.
use crate::record::Record;
use pot_bytes::{Digest, Name};

/// An entry of the index's log.
///
/// `job` is the number of the job that logged it, and `name` the name that it speaks of. `mark` is
/// the digest of the record's bytes as they are from then on.
#[derive(Clone, Copy, PartialEq, Eq)]
pub enum IndexEntry {
    /// The name was free, and is reserved by the job.
    Reserve { job: u32, name: Name },
    /// The name was published or reserved.
    Taken { job: u32, name: Name },
    /// The job's reserved name is published.
    Publish { job: u32, name: Name, mark: Digest },
    /// The job's reserved name is free again.
    Abandon { job: u32, name: Name },
    /// The name was looked up; `found` says whether it was published.
    Find { job: u32, name: Name, found: bool },
    /// The published names were listed.
    Listed { job: u32 },
    /// The name's record has a new current split.
    Renew { job: u32, name: Name, mark: Digest },
    /// The name's record has as many splits as a record may have.
    Often { job: u32, name: Name },
}

/// An entry with what it brought: with a Publish the record that it published, and with a Renew the
/// record as it is from then on, whose current split is the new one. Contracts see the log as a
/// list of these, and no value is made.
#[derive(Drop)]
pub struct Logged {
    pub entry: IndexEntry,
    pub brought: Option<Record>,
}
