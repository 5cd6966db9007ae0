//! Blocks that no record names.
ghost use Rattle.std.specs.Prelude.{◌≡◌, ◌<◌, ◌==◌, ◌&&◌, ◌++◌, not, if◌then◌else◌, true, length};
ghost use Rattle.std.specs.Prelude.{set, IfOk, OnOk};
ghost use Rattle.pot_machine.specs.Slot.{is_void};
ghost use Rattle.pot_machine.specs.Table.{count, slot_at, width};
ghost use Rattle.pot_audit.specs.Loose.{AddsMarks, AreStripesMarked, has_place, is_marked};
ghost use Rattle.pot_audit.specs.Loose.{is_named};
ghost use Rattle.pot_audit.specs.Loose.{is_named_by, loose_column, loose_columns, loose_group};
ghost use Rattle.pot_audit.specs.Loose.{loose_slots};

use crate::coalition::Coalition;
use crate::spot::Spot;
use pot_bytes::{NoMemory, Place, Rack};
use pot_index::Record;
use pot_machine::GroupTable;
use std::alloc::Global;

/// A data column with blocks that no split of any record names.
#[derive(Clone, Copy, PartialEq, Eq, Debug)]
pub struct Loose {
    /// The number of the group.
    pub group: u8,
    /// The number of the column.
    pub column: u8,
    /// How many of its slots have such a block, at least 1.
    pub count: u32,
}

// THE STRIPES THAT RECORDS NAME

/// Whether a place is in this column.
fn is_in(place: Place, spot: Spot) -> bool
    ensures { result ≡ ((place.group == spot.group) && (place.column == spot.column)) }
{
    place.group == spot.group && place.column == spot.column
}

/// Marks a stripe, where there is a mark for it.
#[tactic(auto, using(std::proofs::lemmas::List::set_past))]
fn mark(marks: &mut [bool], stripe: usize)
    ensures { marks.new ≡ set marks.old stripe true }
{
    if stripe < marks.len() {
        marks[stripe] = true;
    }
}

/// Marks the stripe of a place that is in this column.
fn mark_place(place: Place, spot: Spot, marks: &mut [bool])
    ensures { marks.new ≡ (if (place.group == spot.group) && (place.column == spot.column)
        then set marks.old place.stripe true else marks.old) }
{
    if is_in(place, spot) {
        mark(marks, place.stripe as usize);
    }
}

/// Marks the stripes of all these places that are in this column.
fn mark_places(places: &[Place], spot: Spot, marks: &mut [bool])
    ensures { AddsMarks (has_place places.now spot.group spot.column) marks.old marks.new }
{
    for place in places {
        mark_place(*place, spot, marks);
    }
}

/// Marks the stripes in which some split of a record has a block in this column.
fn mark_record(kept: &Record, spot: Spot, marks: &mut [bool])
    ensures { AddsMarks (is_named_by kept.now spot.group spot.column) marks.old marks.new }
{
    for split in kept.older.as_slice() {
        mark_places(split.places.as_slice(), spot, marks);
    }
    mark_places(kept.places.as_slice(), spot, marks);
}

/// The stripes of a column that some record names.
fn named_stripes(
    alloc: Global,
    records: &[Record],
    spot: Spot,
    stripes: u32,
) -> Result<Vec<bool>, NoMemory>
    ensures { IfOk result (λ v. AreStripesMarked (is_named records.now spot.group spot.column)
        stripes v.items) }
{
    let mut marks = vec![in alloc; false; stripes as usize]?;
    for kept in records {
        mark_record(kept, spot, marks.as_mut_slice());
    }
    Ok(marks)
}

// THE COLUMNS

/// Whether a slot has a block and its stripe is not marked.
fn is_unmarked(table: &GroupTable, stripe: u32, column: u8, marks: &[bool]) -> bool
    requires stripe { stripe < table.now.stripes }
    requires column { column < width table.now }
    requires marks { length marks.now ≡ table.now.stripes }
    ensures { result ≡ (not (is_void (slot_at table.now stripe column))
        && not (is_marked marks.now stripe)) }
{
    !table.slot(stripe, column).is_void() && !marks[stripe as usize]
}

/// How many slots of a column have a block in a stripe that is not marked.
fn count_unmarked(table: &GroupTable, column: u8, marks: &[bool]) -> u32
    requires column { column < width table.now }
    requires marks { length marks.now ≡ table.now.stripes }
    ensures { result ≡ count table.now.stripes
        (λ s. not (is_void (slot_at table.now s column)) && not (is_marked marks.now s)) }
{
    let mut count = 0;
    for stripe in 0..table.stripes() {
        if is_unmarked(table, stripe, column, marks) {
            count += 1;
        }
    }
    count
}

/// How many slots of a column are loose.
fn loose_slots(
    alloc: Global,
    table: &GroupTable,
    records: &[Record],
    spot: Spot,
) -> Result<u32, NoMemory>
    requires { spot.column < width table.now }
    ensures { IfOk result (λ n. n ≡ loose_slots table.now records.now spot.group spot.column) }
{
    let marks = named_stripes(alloc, records, spot, table.stripes())?;
    Ok(count_unmarked(table, spot.column, &marks))
}

/// Adds a column that is exposed, where some of its slots are loose.
fn add_column(
    alloc: Global,
    coalition: &Coalition<'_>,
    table: &GroupTable,
    records: &[Record],
    spot: Spot,
    columns: &mut Vec<Loose>,
) -> Result<(), NoMemory>
    requires { spot.column < width table.now }
    ensures { OnOk result (columns.new.items ≡ columns.old.items
        ++ loose_column coalition.now.rack.now coalition.now.spots.now records.now table.now
        spot.group spot.column) }
{
    if !coalition.is_exposed(spot) {
        return Ok(());
    }
    let count = loose_slots(alloc, table, records, spot)?;
    if count == 0 {
        return Ok(());
    }
    let Spot { group, column } = spot;
    match columns.push(Loose {
        group,
        column,
        count,
    }) {
        Ok(()) => Ok(()),
        Err(_) => Err(NoMemory),
    }
}

/// Adds the data columns of a group.
fn add_group(
    alloc: Global,
    coalition: &Coalition<'_>,
    table: &GroupTable,
    records: &[Record],
    group: u8,
    columns: &mut Vec<Loose>,
) -> Result<(), NoMemory>
    ensures { OnOk result (columns.new.items ≡ columns.old.items
        ++ loose_group coalition.now.rack.now coalition.now.spots.now records.now table.now group) }
{
    for column in 0..table.data_columns() {
        let spot = Spot { group, column };
        add_column(alloc, coalition, table, records, spot, columns)?;
    }
    Ok(())
}

/// The data columns that are exposed to a coalition and have blocks that no split of any record
/// names, ascending by group and then by column.
///
/// Stores and renewals that were given up leave such blocks. The tables are those of all groups.
pub fn loose_columns(
    alloc: Global,
    rack: &Rack,
    spots: &[Spot],
    tables: &[GroupTable],
    records: &[Record],
) -> Result<Vec<Loose>, NoMemory>
    requires { length tables.now ≡ rack.now.groups }
    ensures { IfOk result (λ v. v.items
        ≡ loose_columns rack.now spots.now tables.now records.now) }
{
    let coalition = Coalition { rack, spots };
    let mut columns = Vec::new(alloc);
    for group in 0..rack.groups {
        let table = &tables[usize::from(group)];
        add_group(alloc, &coalition, table, records, group, &mut columns)?;
    }
    Ok(columns)
}
