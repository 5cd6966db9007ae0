//! What a desk keeps.
ghost use Rattle.std.specs.Prelude.{◌↔◌, IsTrue};
ghost use Rattle.pot_image.specs.Spelling.{IsCountable};

use pot_bytes::Rack;
use pot_index::{IndexEntry, Record};
use pot_machine::{Entry, GroupTable};

/// What a desk keeps between two sessions.
#[derive(Drop)]
pub struct Image {
    /// The number of the session that wrote it.
    pub session: u32,
    pub rack: Rack,
    /// The tables of the groups, in order.
    pub tables: Vec<GroupTable>,
    /// The records of the published files, by name.
    pub records: Vec<Record>,
    /// What the session logged in each group.
    pub group_logs: Vec<Vec<Entry>>,
    /// What the session logged in the index.
    pub index_log: Vec<IndexEntry>,
}

/// One more than a number of four bytes can be.
const COUNTS: usize = 0x1_0000_0000;

impl Image {
    /// Whether there are fewer than 2^32 records, and as few entries in each log: their numbers
    /// have four bytes.
    pub fn is_countable(&self) -> bool
        ensures { IsTrue result ↔ IsCountable self.now }
    {
        self.records.len() < COUNTS
            && self.index_log.len() < COUNTS
            && self.group_logs.iter().all(|log| log.len() < COUNTS)
    }
}
