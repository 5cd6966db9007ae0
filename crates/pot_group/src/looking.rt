//! A look at one slot of a group.
ghost use Rattle.std.specs.Prelude.{◌≡◌, ◌<◌, ◌↔◌, IsTrue, length};
ghost use Rattle.pot_machine.specs.Table.{width};

use crate::answers::Looked;
use crate::group::Group;
use crate::reads::Found;
use pot_bytes::{Block, LOG_BOUND, Place};
use pot_machine::{Entry, SlotState};
use pot_outside::Archive;

impl<A: Archive> Group<A> {
    ghost use Rattle.pot_group.specs.Group.{OnGroup, with_archives};
    ghost use Rattle.pot_group.specs.Calls.{MakesCall, LookCall};
    ghost use Rattle.pot_group.specs.Looking.{Looks};

    /// Reads the block of a slot, and logs what it came to.
    ///
    /// `Seen`: the slot is Live, and `into` is its block, of its digest. `Gone`: the slot is not
    /// Live, or its archive has no block of its digest; a Live slot becomes Lost. `Faulted`: the
    /// slot is Live, and the archive failed. `LogFull` comes first, exactly where the log has
    /// 262,144 entries, and nothing changes then.
    pub fn look(&mut self, job: u32, place: Place, into: &mut Block) -> Looked
        requires job { 0 < job }
        requires stripe { place.stripe < self.old.table.stripes }
        requires column { place.column < width self.old.table }
        ensures looks { MakesCall A.account (λ told. LookCall told job place into.new result)
            self.old
            self.new }
    {
        if self.log.len() >= LOG_BOUND {
            return Looked::LogFull;
        }
        let Place {
            group: _,
            column,
            stripe,
        } = place;
        match self.look_slot(stripe, column, into) {
            Found::Sound => {
                self.note(Entry::Seen {
                    job,
                    stripe,
                    column,
                });
                Looked::Seen
            }
            Found::Missing => {
                self.note(Entry::Gone {
                    job,
                    stripe,
                    column,
                });
                Looked::Gone
            }
            Found::NotRead => {
                self.note(Entry::Fault {
                    job,
                    stripe,
                    column,
                });
                Looked::Faulted { column }
            }
        }
    }

    /// Reads the block of a slot where it is Live.
    fn look_slot(&mut self, stripe: u32, column: u8, into: &mut Block) -> Found
        requires stripe { stripe < self.old.table.stripes }
        requires column { column < width self.old.table }
        ensures looks { OnGroup A.account (λ told. Looks told stripe column into.new result)
            self.old self.new }
        ensures same { self.new ≡ with_archives self.old self.new.shelves }
    {
        match self.table.slot(stripe, column) {
            SlotState::Live(digest) => self.read_slot(stripe, column, digest, into),
            SlotState::Void => Found::Missing,
            SlotState::Lost(_) => Found::Missing,
            SlotState::Broken(_) => Found::Missing,
        }
    }
}
