//! Slots of an image are made Live again.
ghost use Rattle.std.specs.Prelude.{◌≡◌, ◌<◌, ◌*◌, ◌++◌, IfOk, OnOk, IsErr, length, take, drop};
ghost use Rattle.pot_machine.specs.Slot.{live_of};
ghost use Rattle.pot_machine.specs.Table.{width};
ghost use Rattle.pot_machine.specs.Rules.{IsTable};
ghost use Rattle.pot_image.specs.Images.{contents};
ghost use Rattle.pot_image.specs.Rules.{IsImage};
ghost use Rattle.pot_recheck.specs.Finding.{AreFoundSlots, AreFoundTables, IsFound, IsFoundTable};
ghost use Rattle.pot_recheck.specs.Finding.{IsMadeLive};

use crate::listing::Unsound;
use pot_bytes::NoMemory;
use pot_image::Image;
use pot_machine::{GroupTable, SlotState};
use std::alloc::{AllocError, Global};

/// Makes these slots Live again, each with the digest that it has. A slot that is Live or Void
/// stays as it is, and so does all else. What is named and is no slot of the image counts for
/// nothing, and so do the archives and digests that are named.
///
/// No relay stands in a table of an image, and none is kept.
///
/// # Errors
/// Want of memory alone. The image is as it was then.
pub fn find_again(alloc: Global, image: &mut Image, found: &[Unsound]) -> Result<(), NoMemory>
    ensures found { OnOk result (IsFound found.now (contents image.old) (contents image.new)) }
    ensures kept { IsErr result → image.new ≡ image.old }
    ensures rules { IsImage (contents image.old) → IsImage (contents image.new) }
{
    image.tables = found_tables(alloc, &image.tables, found)?;
    Ok(())
}

/// The tables of all groups, in which these slots are Live.
fn found_tables(
    alloc: Global,
    tables: &[GroupTable],
    found: &[Unsound],
) -> Result<Vec<GroupTable>, NoMemory>
    ensures { IfOk result (λ made. AreFoundTables found.now tables.now made.items) }
{
    let mut made = Vec::with_capacity(alloc, tables.len())?;
    for (group, table) in tables.iter().enumerate() {
        made.push_reserved(found_table(alloc, table, group, found)?);
    }
    Ok(made)
}

/// The table of this group, in which these slots are Live.
fn found_table(
    alloc: Global,
    table: &GroupTable,
    group: usize,
    found: &[Unsound],
) -> Result<GroupTable, NoMemory>
    ensures { IfOk result (λ made. IsFoundTable found.now group table.now made) }
{
    let slots = found_slots(alloc, table, group, found)?;
    let columns = Vec::from_slice(alloc, table.columns())?;
    GroupTable::from_parts(
        alloc,
        table.stripes(),
        table.cursor(),
        columns,
        slots,
        table.parity(),
    )
}

/// The slots of this group's table, of which these are Live.
fn found_slots(
    alloc: Global,
    table: &GroupTable,
    group: usize,
    found: &[Unsound],
) -> Result<Vec<SlotState>, NoMemory>
    ensures { IfOk result (λ slots. AreFoundSlots found.now group table.now slots.items) }
{
    let mut slots = copied_slots(alloc, table)?;
    for named in found {
        if usize::from(named.group) == group {
            make_live(&mut slots, table, named.stripe, named.column);
        }
    }
    Ok(slots)
}

/// A slot is Live, if the table has it and it is not Void.
fn make_live(slots: &mut [SlotState], table: &GroupTable, stripe: u32, column: u8)
    requires { length slots.old ≡ length table.now.slots }
    ensures { IsMadeLive table.now stripe column slots.old slots.new }
{
    let width = table.data_columns() + table.parity();
    if stripe < table.stripes() && column < width {
        let place = stripe as usize * usize::from(width) + usize::from(column);
        slots[place] = live(slots[place]);
    }
}

/// The slot is Live with the digest that it has, if it has one.
fn live(slot: SlotState) -> SlotState
    ensures { result ≡ live_of slot }
{
    match slot {
        SlotState::Void => SlotState::Void,
        SlotState::Live(digest) => SlotState::Live(digest),
        SlotState::Lost(digest) => SlotState::Live(digest),
        SlotState::Broken(digest) => SlotState::Live(digest),
    }
}

/// The slots of a table.
fn copied_slots(alloc: Global, table: &GroupTable) -> Result<Vec<SlotState>, NoMemory>
    ensures { IfOk result (λ slots. slots.items ≡ table.now.slots) }
{
    let mut slots = Vec::new(alloc);
    for stripe in 0..table.stripes() {
        append_slots(&mut slots, table, stripe)?;
    }
    Ok(slots)
}

/// The slots of a stripe.
fn append_slots(
    slots: &mut Vec<SlotState>,
    table: &GroupTable,
    stripe: u32,
) -> Result<(), AllocError>
    requires { stripe < table.now.stripes }
    ensures { OnOk result (slots.new.items
        ≡ slots.old.items
        ++ take (width table.now) (drop (stripe * width table.now) table.now.slots)) }
{
    for column in 0..table.data_columns() + table.parity() {
        slots.push(table.slot(stripe, column))?;
    }
    Ok(())
}
