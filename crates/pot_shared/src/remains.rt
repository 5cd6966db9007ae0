//! What a vault leaves when it ends, and the space for it.
ghost use Rattle.std.specs.Prelude.{◌≡◌, [], IfOk};

use pot_bytes::NoMemory;
use pot_index::{IndexEntry, Record};
use pot_machine::{Entry, GroupTable};
use pot_outside::{Archive, Shelf};
use std::alloc::Global;

/// What a vault leaves when it ends. Before that there is space for what comes from groups, so that
/// an end takes no memory.
pub struct Remains<A: Archive> {
    /// The table of each group.
    pub tables: Vec<GroupTable>,
    /// What each group logged.
    pub logs: Vec<Vec<Entry>>,
    /// The records of the index.
    pub records: Vec<Record>,
    /// What the index logged.
    pub index_log: Vec<IndexEntry>,
    /// All archives. Before a vault is opened there are those of its tables.
    pub hand: Vec<Shelf<A>>,
}

impl<A: Archive> Remains<A> {
    ghost use Rattle.pot_shared.specs.Remains.{HasSpace, IsBare};

    /// Nothing yet, with space for what so many groups with so many archives leave.
    pub fn reserve(alloc: Global, groups: usize, archives: usize) -> Result<Remains<A>, NoMemory>
        ensures bare { IfOk result IsBare }
        ensures space { IfOk result (HasSpace groups archives) }
    {
        let tables = Vec::with_capacity(alloc, groups)?;
        let logs = Vec::with_capacity(alloc, groups)?;
        let hand = Vec::with_capacity(alloc, archives)?;
        Ok(Remains {
            tables,
            logs,
            records: Vec::new(alloc),
            index_log: Vec::new(alloc),
            hand,
        })
    }

    /// Lets go of what has no archive.
    pub fn release(self)
        requires { self.hand.items ≡ [] }
    {
        let Remains {
            tables: _,
            logs: _,
            records: _,
            index_log: _,
            hand,
        } = self;
        hand.destroy_empty();
    }
}
