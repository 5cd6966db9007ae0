//! A group as a value under a turn.
use pot_bytes::Block;
use pot_execution::TrackedGroup;
use pot_machine::{Entry, GroupTable};
use pot_outside::{Archive, Marks};
use pot_turn::Kept;
use std::collections::LinkedList;

/// All that an archive meant when its group took it: its marks, the block of each slot, the blocks
/// that it ever held, and the sums that it ever heard. No value of it is made.
pub struct Taking {
    pub marks: Marks,
    pub blocks: LinkedList<Option<Block>>,
    pub history: LinkedList<Block>,
    pub heard: LinkedList<(u32, Block)>,
}

/// An entry as passes see it: with what the archive that it brought meant at its taking, and with
/// the blind of the relay that it began. No value of it is made.
pub struct Logged {
    pub entry: Entry,
    pub taken: Option<Taking>,
    pub blind: Option<Block>,
}

/// What never changes of a group: its number, the table that was read, what the archives that it
/// began with meant at their taking, and their marks when the table had been opened. No value of it
/// is made.
pub struct GroupOrigin {
    pub number: u8,
    pub first: GroupTable,
    pub taken: LinkedList<Taking>,
    pub opened: LinkedList<Marks>,
}

/// A group under a turn.
#[derive(Drop)]
pub struct Member<A: Archive> {
    pub group: TrackedGroup<A>,
}

impl<A: Archive> Kept for Member<A> {
    ghost use Rattle.pot_group.specs.Group.{view_of};
    ghost use Rattle.pot_shared.specs.Members.{kept_log, origin_of};

    type Entry = Logged;

    type Origin = GroupOrigin;

    ghost log = { λ m. kept_log (view_of A.account.meaning m.group) };

    ghost origin = { λ m. origin_of (view_of A.account.meaning m.group) };

    fn length(&self) -> u64 {
        self.group.logged()
    }
}
