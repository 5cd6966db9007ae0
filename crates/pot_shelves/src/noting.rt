//! A log and its table go on together.
ghost use Rattle.std.specs.Prelude.{◌≡◌, ◌<◌, ◌≤◌, ◌++◌, [], ◌∷◌, vec_len, vec_capacity};
ghost use Rattle.pot_machine.specs.Machine.{Legal, after};

use pot_machine::{Entry, GroupTable};

/// Adds a legal entry to a log that has room, and does in the table what it says.
pub fn note(table: &mut GroupTable, log: &mut Vec<Entry>, entry: Entry)
    requires legal { Legal table.old entry }
    requires room { vec_len log.old < vec_capacity log.old }
    ensures table { table.new ≡ after table.old entry }
    ensures log { log.new.items ≡ log.old.items ++ entry ∷ [] }
    ensures capacity { vec_capacity log.old ≤ vec_capacity log.new }
{
    table.apply(&entry);
    log.push_reserved(entry);
}
