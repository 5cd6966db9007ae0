//! The parity slots of the stripes that are being filled.
ghost use Rattle.std.specs.Prelude.{◌≡◌, ◌<◌, ◌++◌, [], ◌∷◌, IfOk, OnOk, MatchOption, slice_get};
ghost use Rattle.pot_image.specs.Images.{contents};
ghost use Rattle.pots_rescue.specs.Parity.{parity_at, in_stripe, in_table, in_group, in_image};

use pot_bytes::{Digest, NoMemory};
use pot_image::Image;
use pot_machine::{GroupTable, SlotState};
use std::alloc::{AllocError, Global};

/// A parity slot of the stripe at which a group's cursor stands.
#[derive(Clone, Copy, PartialEq, Eq, Debug)]
pub struct ParitySlot {
    pub group: u8,
    /// The number of the archive that serves it.
    pub archive: u32,
    pub stripe: u32,
    /// The slot behind all stripes of this archive.
    pub spare: u32,
    /// Whether the desk calls it Live.
    pub live: bool,
    /// The digest of the block that was put there.
    pub digest: Digest,
}

/// The parity slots of the stripe at the cursor of each group, where that has blocks already, by
/// group and column.
///
/// # Errors
/// Want of memory alone.
pub fn parity_slots(alloc: Global, image: &Image) -> Result<Vec<ParitySlot>, NoMemory>
    ensures { IfOk result (λ list. list.items ≡ in_image (contents image.now)) }
{
    let mut list = Vec::new(alloc);
    for group in 0..image.rack.groups {
        append_group(&mut list, image, group)?;
    }
    Ok(list)
}

/// Those of a group, which has a table or not.
fn append_group(list: &mut Vec<ParitySlot>, image: &Image, group: u8) -> Result<(), AllocError>
    ensures { OnOk result (list.new.items
        ≡ list.old.items ++ in_group group (slice_get (contents image.now).tables group)) }
{
    match image.tables.get(usize::from(group)) {
        Some(table) => append_table(list, table, group),
        None => Ok(()),
    }
}

/// Those of a group's table. Behind the last stripe there are none.
fn append_table(list: &mut Vec<ParitySlot>, table: &GroupTable, group: u8) -> Result<(), AllocError>
    ensures { OnOk result (list.new.items ≡ list.old.items ++ in_table group table.now) }
{
    let stripe = table.cursor().stripe;
    if stripe < table.stripes() {
        append_stripe(list, table, group, stripe)
    } else {
        Ok(())
    }
}

/// Those of a stripe.
fn append_stripe(
    list: &mut Vec<ParitySlot>,
    table: &GroupTable,
    group: u8,
    stripe: u32,
) -> Result<(), AllocError>
    requires { stripe < table.now.stripes }
    ensures { OnOk result (list.new.items ≡ list.old.items ++ in_stripe group table.now stripe) }
{
    for number in 0..table.parity() {
        append_slot(list, table, group, stripe, number)?;
    }
    Ok(())
}

/// The slot of the parity column of this number, from 0, if it is not Void.
fn append_slot(
    list: &mut Vec<ParitySlot>,
    table: &GroupTable,
    group: u8,
    stripe: u32,
    number: u8,
) -> Result<(), AllocError>
    requires stripe { stripe < table.now.stripes }
    requires number { number < table.now.parity }
    ensures { OnOk result (list.new.items
        ≡ list.old.items ++ parity_at group table.now stripe number) }
{
    match parity_at(table, group, stripe, number) {
        Some(slot) => Ok(list.push(slot)?),
        None => Ok(()),
    }
}

/// The slot of the parity column of this number, if it is not Void.
fn parity_at(table: &GroupTable, group: u8, stripe: u32, number: u8) -> Option<ParitySlot>
    requires stripe { stripe < table.now.stripes }
    requires number { number < table.now.parity }
    ensures { MatchOption result (parity_at group table.now stripe number ≡ [])
        (λ p. parity_at group table.now stripe number ≡ p ∷ []) }
{
    let column = table.data_columns() + number;
    let archive = table.archive_of(stripe, column);
    let spare = table.stripes();
    let (live, digest) = match table.slot(stripe, column) {
        SlotState::Void => return None,
        SlotState::Live(digest) => (true, digest),
        SlotState::Lost(digest) => (false, digest),
        SlotState::Broken(digest) => (false, digest),
    };
    Some(ParitySlot {
        group,
        archive,
        stripe,
        spare,
        live,
        digest,
    })
}
