//! What a group tells of its table.
ghost use Rattle.std.specs.Prelude.{◌≡◌, ◌<◌, ◌↔◌, IsTrue, IfOk, Err, [], ◌∷◌, length};

use crate::counting::{Counts, counts_of};
use crate::finding::{Kind, next_place};
use crate::group::Group;
use pot_bytes::{LOG_BOUND, Place};
use pot_machine::Entry;
use pot_outside::Archive;

/// The log has no room for the next entry. Nothing changed.
#[derive(Clone, Copy, PartialEq, Eq, Debug)]
pub struct LogFull;

impl<A: Archive> Group<A> {
    ghost use Rattle.pot_group.specs.Finding.{is_of, IsPlace};
    ghost use Rattle.pot_machine.specs.Table.{width};
    ghost use Rattle.pot_group.specs.Calls.{MakesCall, CountCall};

    /// Counts the slots of the group by state, tells its cursor, and logs that it did.
    ///
    /// # Errors
    /// `LogFull` exactly where the log has 262,144 entries; nothing changes then.
    pub fn count(&mut self, job: u32) -> Result<Counts, LogFull>
        requires job { 0 < job }
        ensures counts { MakesCall A.account (λ told. CountCall told job result) self.old self.new }
    {
        if self.log.len() >= LOG_BOUND {
            return Err(LogFull);
        }
        let counts = counts_of(&self.table);
        self.note(Entry::Counted { job });
        Ok(counts)
    }

    /// Whether it has a slot of this stripe and this column.
    pub fn has_slot(&self, stripe: u32, column: u8) -> bool
        ensures { IsTrue result ↔ (stripe < self.now.table.stripes)
            × (column < width self.now.table) }
    {
        stripe < self.table.stripes() && column < self.table.data_columns() + self.table.parity()
    }

    /// The first place at or after this one, by stripe and then column, whose slot is of the kind.
    pub fn next(&self, stripe: u32, column: u8, kind: Kind) -> Option<Place>
        ensures { IsPlace self.now.number self.now.table (is_of kind) stripe column result }
    {
        let (stripe, column) = next_place(&self.table, stripe, column, kind)?;
        Some(Place {
            group: self.number,
            column,
            stripe,
        })
    }
}
