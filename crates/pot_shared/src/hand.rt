//! The archives in a hand: which of them are a table's, and how they are taken out and put back.
ghost use Rattle.std.specs.Prelude.{◌≡◌, ◌≤◌, ◌+◌, ◌++◌, IfOk, OnOk, OnErr, length, take, drop};
ghost use Rattle.std.specs.Prelude.{flat_map};
ghost use Rattle.std.specs.Vec.{vec_capacity};
ghost use Rattle.pot_machine.specs.Column.{homes_of};
ghost use Rattle.pot_machine.specs.Table.{archives_in};

use pot_bytes::NoMemory;
use pot_machine::{Column, GroupTable};
use pot_outside::{Archive, Shelf};
use std::alloc::{AllocError, Global};

/// Appends the archives of a column: its home, and then the target of its move.
fn append_column(numbers: &mut Vec<u32>, column: &Column) -> Result<(), AllocError>
    ensures { OnOk result (numbers.new.items ≡ numbers.old.items ++ homes_of column.now) }
{
    numbers.push(column.home)?;
    if let Some(moving) = column.moving {
        numbers.push(moving.to)?;
    }
    Ok(())
}

/// Appends the archives of a table, column by column.
fn append_table(numbers: &mut Vec<u32>, table: &GroupTable) -> Result<(), AllocError>
    ensures { OnOk result (numbers.new.items ≡ numbers.old.items ++ archives_in table.now) }
{
    for column in table.columns() {
        append_column(numbers, column)?;
    }
    Ok(())
}

/// The archives of all tables, table by table.
pub fn numbers_in(alloc: Global, tables: &[GroupTable]) -> Result<Vec<u32>, AllocError>
    ensures { IfOk result (λ v. v.items ≡ flat_map archives_in tables.now) }
{
    let mut numbers = Vec::new(alloc);
    for table in tables {
        append_table(&mut numbers, table)?;
    }
    Ok(numbers)
}

/// Moves the first elements of one vector to the end of another, which has room for them.
fn move_front<T>(from: &mut Vec<T>, into: &mut Vec<T>, count: usize)
    requires count { count ≤ length from.old.items }
    requires space { length into.old.items + count ≤ vec_capacity into.old }
    ensures into { into.new.items ≡ into.old.items ++ take count from.old.items }
    ensures from { from.new.items ≡ drop count from.old.items }
    ensures space { vec_capacity into.new ≡ vec_capacity into.old }
    ensures from_space { vec_capacity from.new ≡ vec_capacity from.old }
{
    let mut moved = 0;
    while moved < count {
        into.push_reserved(from.remove(0));
        moved += 1;
    }
}

/// Puts elements back behind others, which have room for them.
pub(crate) fn put_back<T>(into: &mut Vec<T>, back: Vec<T>)
    requires { length into.old.items + length back.items ≤ vec_capacity into.old }
    ensures items { into.new.items ≡ into.old.items ++ back.items }
    ensures space { vec_capacity into.new ≡ vec_capacity into.old }
{
    let mut back = back;
    let count = back.len();
    move_front(&mut back, into, count);
    back.destroy_empty();
}

/// Takes the archives of a table, which are the first shelves, out of the hand.
pub(crate) fn take_shelves<A: Archive>(
    alloc: Global,
    table: &GroupTable,
    hand: &mut Vec<Shelf<A>>,
) -> Result<Vec<Shelf<A>>, NoMemory>
    requires { length (archives_in table.now) ≤ length hand.old.items }
    ensures front { IfOk result
        (λ v. v.items ≡ take (length (archives_in table.now)) hand.old.items) }
    ensures rest { OnOk result
        (hand.new.items ≡ drop (length (archives_in table.now)) hand.old.items) }
    ensures own { IfOk result (λ v. length v.items ≤ vec_capacity v) }
    ensures refused { OnErr result (hand.new.items ≡ hand.old.items) }
    ensures space { vec_capacity hand.new ≡ vec_capacity hand.old }
{
    let mut numbers = Vec::new(alloc);
    append_table(&mut numbers, table)?;
    let count = numbers.len();
    let mut shelves = Vec::with_capacity(alloc, count)?;
    move_front(hand, &mut shelves, count);
    Ok(shelves)
}
