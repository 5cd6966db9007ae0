//! The archives that a desk names, and how they stand.
//!
//! A fetch takes blocks of the current split of a file alone. So a stripe in which no such block
//! stands is in no use any more: what is gone there of older splits, and the parity of it, needs no
//! mending. A stripe is mended as a whole, so in a stripe that is in use every block that is gone
//! needs it.

ghost use Rattle.std.specs.Prelude.{◌<◌};
ghost use Rattle.pot_machine.specs.Table.{width};

use crate::uses::Uses;
use pot_image::Image;
use pot_machine::{GroupTable, SlotState};
use std::alloc::{AllocError, Global};

/// What a desk says of one archive.
#[derive(Clone, Copy, Debug, PartialEq, Eq)]
pub struct Holding {
    pub archive: u32,
    pub group: u8,
    pub column: u8,
    /// Whether the column has parity blocks.
    pub parity: bool,
    /// So many blocks are there.
    pub live: u32,
    /// So many blocks are gone, and parity may give them back.
    pub lost: u32,
    /// So many blocks are gone, and parity does not give them back.
    pub broken: u32,
    /// So many of those that are gone need no mending: no file has a block of its current split in
    /// their stripes.
    pub idle: u32,
    /// So many of the others that are gone are not given back by parity.
    pub stuck: u32,
    /// The least length of its file, with the blocks that are there.
    pub length: u64,
}

/// Every archive that a desk names, by group and column. A column that moves has two.
pub fn holdings(alloc: Global, image: &Image) -> Result<Vec<Holding>, AllocError> {
    let uses = Uses::of(alloc, image)?;
    let mut all = Vec::new(alloc);
    for (group, table) in image.tables.iter().enumerate() {
        let group = u8::try_from(group).unwrap_or(u8::MAX);
        append_columns(&mut all, group, table, &uses)?;
    }
    Ok(all)
}

// The archives of a group.
fn append_columns(
    all: &mut Vec<Holding>,
    group: u8,
    table: &GroupTable,
    uses: &Uses,
) -> Result<(), AllocError> {
    let width = table.data_columns() + table.parity();
    for column in 0..width {
        append_column(all, group, column, table, uses)?;
    }
    Ok(())
}

// The archives of a column: the one that it is on, and the one that it moves to.
fn append_column(
    all: &mut Vec<Holding>,
    group: u8,
    column: u8,
    table: &GroupTable,
    uses: &Uses,
) -> Result<(), AllocError>
    requires { column < width table.now }
{
    let Some(found) = table.columns().get(usize::from(column)).copied() else {
        return Ok(());
    };
    all.push(holding_of(table, group, column, found.home, uses))?;
    if let Some(moving) = found.moving {
        all.push(holding_of(table, group, column, moving.to, uses))?;
    }
    Ok(())
}

// What the table says of an archive of the column.
fn holding_of(table: &GroupTable, group: u8, column: u8, archive: u32, uses: &Uses) -> Holding
    requires { column < width table.now }
{
    let mut holding = Holding {
        archive,
        group,
        column,
        parity: column >= table.data_columns(),
        live: 0,
        lost: 0,
        broken: 0,
        idle: 0,
        stuck: 0,
        length: 0,
    };
    for stripe in 0..table.stripes() {
        if table.archive_of(stripe, column) == archive {
            let is_stuck = table.stuck_by(stripe, column).is_some();
            let used = uses.has(group, stripe);
            holding.count(stripe, table.slot(stripe, column), used, is_stuck);
        }
    }
    holding
}

impl Holding {
    /// How many blocks are gone.
    pub fn gone(&self) -> u32 {
        self.lost.saturating_add(self.broken)
    }

    /// How many of the blocks that are gone are to be mended.
    pub fn to_mend(&self) -> u32 {
        self.gone().saturating_sub(self.idle)
    }

    // Counts the slot of a stripe, of which it is known whether it is in use, and whether a block
    // that is gone there has too many others beside it that are gone.
    fn count(&mut self, stripe: u32, state: SlotState, used: bool, is_stuck: bool) {
        match state {
            SlotState::Void => {}
            SlotState::Live(_) => {
                self.live = self.live.saturating_add(1);
                self.length = (u64::from(stripe) + 1) * 1025;
            }
            SlotState::Lost(_) => {
                self.lost = self.lost.saturating_add(1);
                self.idle = self.idle.saturating_add(u32::from(!used));
                self.stuck = self.stuck.saturating_add(u32::from(used && is_stuck));
            }
            SlotState::Broken(_) => {
                self.broken = self.broken.saturating_add(1);
                self.idle = self.idle.saturating_add(u32::from(!used));
                self.stuck = self.stuck.saturating_add(u32::from(used));
            }
        }
    }
}
