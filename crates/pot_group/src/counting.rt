//! How many slots of a table are in each state.
ghost use Rattle.std.specs.Prelude.{◌≡◌, ◌<◌, ◌+◌, ◌*◌, take};
ghost use Rattle.pot_machine.specs.Table.{width};
ghost use Rattle.pot_group.specs.Counting.{AreSlotsCounted, CountsFirst};

use pot_machine::{GroupTable, SlotState};

/// How many slots of a group are in each state, and where the next put goes.
#[derive(Clone, Copy, PartialEq, Eq, Debug)]
pub struct Counts {
    /// Slots that are Live.
    pub live: u32,
    /// Slots that are Lost.
    pub lost: u32,
    /// Slots that are Broken.
    pub broken: u32,
    /// The stripe of the cursor, or the number of stripes where the group is full.
    pub stripe: u32,
    /// The data column of the cursor, or 0 where the group is full.
    pub column: u8,
}

/// Counts the slots of a table.
pub(crate) fn counts_of(table: &GroupTable) -> Counts
    ensures { AreSlotsCounted table.now result }
{
    let cursor = table.cursor();
    let mut counts = Counts {
        live: 0,
        lost: 0,
        broken: 0,
        stripe: cursor.stripe,
        column: cursor.column,
    };
    for stripe in 0..table.stripes() {
        count_stripe(table, stripe, &mut counts);
    }
    counts
}

/// Counts the slots of one stripe, after those before it.
fn count_stripe(table: &GroupTable, stripe: u32, counts: &mut Counts)
    requires stripe { stripe < table.now.stripes }
    requires counted { CountsFirst (stripe * width table.now) table.now counts.old }
    ensures { CountsFirst ((stripe + 1) * width table.now) table.now counts.new }
{
    for column in 0..table.data_columns() + table.parity() {
        match table.slot(stripe, column) {
            SlotState::Void => {}
            SlotState::Live(_) => counts.live += 1,
            SlotState::Lost(_) => counts.lost += 1,
            SlotState::Broken(_) => counts.broken += 1,
        }
    }
}
