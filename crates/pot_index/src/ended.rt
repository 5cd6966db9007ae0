use crate::entry::IndexEntry;
use crate::record::Record;

/// What an index leaves: the published records by name, and the log.
#[derive(Drop)]
pub struct IndexEnded {
    pub records: Vec<Record>,
    pub log: Vec<IndexEntry>,
}
