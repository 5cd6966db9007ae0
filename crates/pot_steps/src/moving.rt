//! The pure steps of a move over a table. Each applies its entry and hands it out.
ghost use Rattle.std.specs.Prelude.{◌≡◌, ◌<◌, IsSome, IsSomeAnd};
ghost use Rattle.pot_machine.specs.declared.entry.Entry.TheVariants as entry;
ghost use Rattle.pot_machine.specs.Table.{column_at, width};
ghost use Rattle.pot_machine.specs.Machine.{Legal, after};

use pot_machine::{Entry, GroupTable};

/// A column begins to move to the archive of this number.
pub fn move_begin(table: &mut GroupTable, job: u32, column: u8, to: u32) -> Entry
    requires { Legal table.old (entry.MoveBegin job column to) }
    ensures entry { result ≡ entry.MoveBegin job column to }
    ensures table { table.new ≡ after table.old result }
{
    let entry = Entry::MoveBegin { job, column, to };
    table.apply(&entry);
    entry
}

/// A move goes on over the stripe that it has come to: its slot is copied, or is not sound.
pub fn move_one(table: &mut GroupTable, job: u32, column: u8, copied: bool) -> Entry
    requires { IsSomeAnd (column_at table.old column).moving
        (λ m. Legal table.old (entry.Moved job m.upto column copied)) }
    ensures entry { IsSomeAnd (column_at table.old column).moving
        (λ m. result ≡ entry.Moved job m.upto column copied) }
    ensures table { table.new ≡ after table.old result }
{
    let entry = Entry::Moved {
        job,
        stripe: position(table, column),
        column,
        copied,
    };
    table.apply(&entry);
    entry
}

/// The stripe that a move has come to.
fn position(table: &GroupTable, column: u8) -> u32
    requires column { column < width table.now }
    requires moves { IsSome (column_at table.now column).moving }
    ensures { IsSomeAnd (column_at table.now column).moving (λ m. result ≡ m.upto) }
{
    let columns = table.columns();
    columns[usize::from(column)].moving.unwrap().upto
}

/// A move ends.
pub fn move_end(table: &mut GroupTable, job: u32, column: u8) -> Entry
    requires { Legal table.old (entry.MoveEnd job column) }
    ensures entry { result ≡ entry.MoveEnd job column }
    ensures table { table.new ≡ after table.old result }
{
    let entry = Entry::MoveEnd { job, column };
    table.apply(&entry);
    entry
}
