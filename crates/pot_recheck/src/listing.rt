//! The slots of an image that are Lost or Broken.
ghost use Rattle.std.specs.Prelude.{◌≡◌, ◌<◌, ◌++◌, [], ◌∷◌, IfOk, OnOk, MatchOption, slice_get};
ghost use Rattle.pot_machine.specs.Table.{width};
ghost use Rattle.pot_image.specs.Images.{contents};
ghost use Rattle.pot_recheck.specs.Listing.{unsound_at, in_stripe, in_table, in_group, in_image};

use pot_bytes::{Digest, NoMemory};
use pot_image::Image;
use pot_machine::{GroupTable, SlotState};
use std::alloc::{AllocError, Global};

/// A slot that is Lost or Broken.
#[derive(Clone, Copy, PartialEq, Eq, Debug)]
pub struct Unsound {
    pub group: u8,
    pub stripe: u32,
    pub column: u8,
    /// The number of the archive that serves it.
    pub archive: u32,
    /// The digest of the block that was put there.
    pub digest: Digest,
}

/// The slots of an image that are Lost or Broken, by group, stripe and column, with the archives
/// that serve them.
///
/// # Errors
/// Want of memory alone.
pub fn unsound_slots(alloc: Global, image: &Image) -> Result<Vec<Unsound>, NoMemory>
    ensures { IfOk result (λ list. list.items ≡ in_image (contents image.now)) }
{
    let mut list = Vec::new(alloc);
    for group in 0..image.rack.groups {
        append_group(&mut list, image, group)?;
    }
    Ok(list)
}

/// Those of a group, which has a table or not.
fn append_group(list: &mut Vec<Unsound>, image: &Image, group: u8) -> Result<(), AllocError>
    ensures { OnOk result (list.new.items
        ≡ list.old.items ++ in_group group (slice_get (contents image.now).tables group)) }
{
    match image.tables.get(usize::from(group)) {
        Some(table) => append_table(list, table, group),
        None => Ok(()),
    }
}

/// Those of a group's table.
fn append_table(list: &mut Vec<Unsound>, table: &GroupTable, group: u8) -> Result<(), AllocError>
    ensures { OnOk result (list.new.items ≡ list.old.items ++ in_table group table.now) }
{
    for stripe in 0..table.stripes() {
        append_stripe(list, table, group, stripe)?;
    }
    Ok(())
}

/// Those of a stripe.
fn append_stripe(
    list: &mut Vec<Unsound>,
    table: &GroupTable,
    group: u8,
    stripe: u32,
) -> Result<(), AllocError>
    requires { stripe < table.now.stripes }
    ensures { OnOk result (list.new.items ≡ list.old.items ++ in_stripe group table.now stripe) }
{
    for column in 0..table.data_columns() + table.parity() {
        append_slot(list, table, group, stripe, column)?;
    }
    Ok(())
}

/// The slot, if it is Lost or Broken.
fn append_slot(
    list: &mut Vec<Unsound>,
    table: &GroupTable,
    group: u8,
    stripe: u32,
    column: u8,
) -> Result<(), AllocError>
    requires stripe { stripe < table.now.stripes }
    requires column { column < width table.now }
    ensures { OnOk result (list.new.items
        ≡ list.old.items ++ unsound_at group table.now stripe column) }
{
    match unsound_at(table, group, stripe, column) {
        Some(unsound) => Ok(list.push(unsound)?),
        None => Ok(()),
    }
}

/// The slot, if it is Lost or Broken.
fn unsound_at(table: &GroupTable, group: u8, stripe: u32, column: u8) -> Option<Unsound>
    requires stripe { stripe < table.now.stripes }
    requires column { column < width table.now }
    ensures { MatchOption result (unsound_at group table.now stripe column ≡ [])
        (λ u. unsound_at group table.now stripe column ≡ u ∷ []) }
{
    let archive = table.archive_of(stripe, column);
    let digest = match table.slot(stripe, column) {
        SlotState::Void => return None,
        SlotState::Live(_) => return None,
        SlotState::Lost(digest) => digest,
        SlotState::Broken(digest) => digest,
    };
    Some(Unsound {
        group,
        stripe,
        column,
        archive,
        digest,
    })
}
