//! The next place of a table whose slot is of a kind.
ghost use Rattle.std.specs.Prelude.{◌≡◌, ◌<◌};
ghost use Rattle.pot_group.specs.Finding.{is_of, IsNextPlace, IsNextColumn};

use pot_machine::{GroupTable, SlotState};

/// Which slots are looked for.
#[derive(Clone, Copy, PartialEq, Eq, Debug)]
pub enum Kind {
    /// Slots that are Live.
    Live,
    /// Slots that are Lost or Broken.
    Unsound,
}

impl Kind {
    /// Whether the slot is of this kind.
    fn has(self, slot: SlotState) -> bool
        ensures { result ≡ is_of self slot }
    {
        match slot {
            SlotState::Void => false,
            SlotState::Live(_) => match self {
                Kind::Live => true,
                Kind::Unsound => false,
            },
            SlotState::Lost(_) => match self {
                Kind::Live => false,
                Kind::Unsound => true,
            },
            SlotState::Broken(_) => match self {
                Kind::Live => false,
                Kind::Unsound => true,
            },
        }
    }
}

/// The first place at or after this one, by stripe and then column, whose slot is of the kind. The
/// stripe and the column may be beyond the last ones.
pub(crate) fn next_place(
    table: &GroupTable,
    stripe: u32,
    column: u8,
    kind: Kind,
) -> Option<(u32, u8)>
    ensures { IsNextPlace table.now (is_of kind) stripe column result }
{
    for at in stripe..table.stripes() {
        let from = if at == stripe { column } else { 0 };
        if let Some(found) = next_column(table, at, from, kind) {
            return Some((at, found));
        }
    }
    None
}

/// The first column of a stripe at or after this one whose slot is of the kind.
fn next_column(table: &GroupTable, stripe: u32, column: u8, kind: Kind) -> Option<u8>
    requires { stripe < table.now.stripes }
    ensures { IsNextColumn table.now (is_of kind) stripe column result }
{
    for at in column..table.data_columns() + table.parity() {
        if kind.has(table.slot(stripe, at)) {
            return Some(at);
        }
    }
    None
}
