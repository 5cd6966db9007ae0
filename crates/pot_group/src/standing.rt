//! Where a group stands: what its next put will meet.
ghost use Rattle.std.specs.Prelude.{◌≡◌};

use crate::group::Group;
use pot_bytes::Block;
use pot_machine::Cursor;
use pot_outside::Archive;

/// Where the next put of a group goes, and the parity block that it will change, as far as the
/// group still knows it.
#[derive(Clone, Copy)]
pub struct Standing {
    /// The cursor.
    pub cursor: Cursor,
    /// The block of P that was written last, or zeros where none was. It is a hint, and no answer
    /// rests on it.
    pub parity: Block,
}

impl<A: Archive> Group<A> {
    ghost use Rattle.pot_group.specs.Standing.{IsCursorStanding};

    /// Tells where the group stands. It reads no archive, logs nothing and takes no memory.
    pub fn standing(&self) -> Standing
        ensures { IsCursorStanding self.now.table result }
    {
        Standing {
            cursor: self.table.cursor(),
            parity: self.known.last(),
        }
    }
}
