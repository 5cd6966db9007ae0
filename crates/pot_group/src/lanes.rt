//! Reads of up to four slots, whose blocks are digested side by side.
ghost use Rattle.std.specs.Prelude.{◌≡◌, ◌<◌, ◌≤◌, ◌+◌, ◌++◌, [], ◌∷◌};
ghost use Rattle.pot_group.specs.Lanes.{lanes_of, AreLaneDigests, FindsInLane};

use crate::finding::Kind;
use crate::group::Group;
use crate::reads::Found;
use pot_bytes::{Block, Digest, Place, digest_of};
use pot_machine::SlotState;
use pot_outside::{Archive, Failed, Held};
use pot_sealed::digests_of_four;

/// How many slots are read before their blocks are digested.
const LANES: usize = 4;

/// The read of one slot.
#[derive(Clone, Copy)]
pub(crate) struct Lane {
    pub(crate) place: Place,
    /// The slot's state when it was read.
    state: SlotState,
    /// What the archive answered.
    answer: Result<Held, Failed>,
    /// The block, where the archive gave one.
    pub(crate) block: Block,
}

impl Lane {
    /// No read.
    fn nothing() -> Lane {
        Lane {
            place: Place {
                group: 0,
                column: 0,
                stripe: 0,
            },
            state: SlotState::Void,
            answer: Ok(Held::Absent),
            block: Block::zero(),
        }
    }

    /// What the read came to, where its block has this digest.
    pub(crate) fn found(&self, digest: Digest) -> Found
        ensures { FindsInLane self.now digest result }
    {
        match self.answer {
            Ok(Held::Held) => {
                if self.state.has_digest(digest) {
                    Found::Sound
                } else {
                    Found::Missing
                }
            }
            Ok(Held::Absent) => Found::Missing,
            Err(Failed) => Found::NotRead,
        }
    }
}

/// Reads of up to four slots, in order.
#[derive(Drop)]
pub(crate) struct Lanes {
    pub(crate) lanes: [Lane; LANES],
    pub(crate) count: usize,
}

impl Lanes {
    /// No reads.
    fn none() -> Lanes
        ensures { result.count ≡ 0 }
    {
        Lanes {
            lanes: [Lane::nothing(); LANES],
            count: 0,
        }
    }

    /// One read more.
    fn put(&mut self, lane: &Lane)
        requires room { self.old.count < 4 }
        ensures lanes { lanes_of self.new ≡ lanes_of self.old ++ lane.now ∷ [] }
        ensures count { self.new.count ≡ self.old.count + 1 }
    {
        self.lanes[self.count] = *lane;
        self.count += 1;
    }
}

/// The digests of the first blocks, taken side by side where there are two or more.
pub(crate) fn digests_of(lanes: &[Lane; LANES], count: usize) -> [Digest; LANES]
    requires { count ≤ 4 }
    ensures { AreLaneDigests count lanes.now result }
{
    if count < 2 {
        return [digest_of(lanes[0].block.bytes()); LANES];
    }
    digests_of_four(
        &lanes[0].block,
        &lanes[1].block,
        &lanes[2].block,
        &lanes[3].block,
    )
}

impl<A: Archive> Group<A> {
    ghost use Rattle.std.specs.Prelude.{length};
    ghost use Rattle.pot_machine.specs.Table.{width};
    ghost use Rattle.pot_shelves.specs.Shelves.{OnShelves};
    ghost use Rattle.pot_group.specs.Group.{with_archives};
    ghost use Rattle.pot_group.specs.Lanes.{Gathers, ReadsLane};

    /// Reads the first Live slot at or after this place and those that follow it, so many at most.
    /// It ends behind a read that failed.
    pub(crate) fn gather(&mut self, stripe: u32, column: u8, most: usize) -> Lanes
        requires some { 0 < most }
        requires few { most ≤ 4 }
        ensures same { self.new ≡ with_archives self.old self.new.shelves }
        ensures count { length (lanes_of result) ≡ result.count }
        ensures gathers { OnShelves A.account
            (λ told.
            Gathers told self.old.number self.old.table stripe column most (lanes_of result))
            self.old.shelves self.new.shelves }
    {
        let mut lanes = Lanes::none();
        let mut stripe = stripe;
        let mut column = column;
        'reads: for _ in 0..most {
            let _settled = self.logged();
            let Some(place) = self.next(stripe, column, Kind::Live) else {
                break;
            };
            let lane = self.read_lane(place);
            lanes.put(&lane);
            if lane.answer.is_err() {
                break;
            }
            stripe = place.stripe;
            column = place.column + 1;
        }
        lanes
    }

    /// Reads a slot.
    fn read_lane(&mut self, place: Place) -> Lane
        requires stripe { place.stripe < self.old.table.stripes }
        requires column { place.column < width self.old.table }
        ensures same { self.new ≡ with_archives self.old self.new.shelves }
        ensures place { result.place ≡ place }
        ensures reads { OnShelves A.account (λ told. ReadsLane told result self.old.table)
            self.old.shelves self.new.shelves }
    {
        let state = self.table.slot(place.stripe, place.column);
        let number = self.table.archive_of(place.stripe, place.column);
        let mut block = Block::zero();
        let answer = self.archives.read(number, place.stripe, &mut block);
        Lane {
            place,
            state,
            answer,
            block,
        }
    }
}
