//! The locked calls that mend a slot.
ghost use Rattle.std.specs.Prelude.{◌<◌, ◌≡◌, IsTrue};
ghost use Rattle.pot_pads.specs.Pads.{moved, next_bytes};

use crate::vault::{Passes, Vault};
use pot_bytes::{Block, Place};
use pot_group::Mend;
use pot_outside::Archive;
use pot_pads::PadStream;
use std::sync::Wait;

/// What the mending of a place came to.
#[derive(Clone, Copy, PartialEq, Eq, Debug)]
pub struct Mending {
    /// The answer of its last step.
    pub end: Mend,
    /// How many relays ended on the way by a write of their target.
    pub mended: u32,
    /// How many relays of other slots ended on the way at a block of another digest.
    pub passed: u32,
}

/// Draws a blind from a stream.
fn draw_blind(pads: &mut PadStream) -> Block
    ensures block { result ≡ next_bytes pads.old 1024 }
    ensures stream { pads.new ≡ moved pads.old 1024 }
{
    let mut bytes = [0; 1024];
    pads.fill(&mut bytes);
    Block::from_bytes(bytes)
}

impl<A: Archive> Vault<A> {
    ghost use Rattle.pot_shared.specs.Ready.{AreReady, HasSlot};
    ghost use Rattle.pot_shared.specs.Calls.{MakesAt};
    ghost use Rattle.pot_group.specs.Calls.{MendCall};
    ghost use Rattle.pot_shared.specs.MendCalls.{MendsPlace};

    /// Goes one step towards the mending of a slot, in one turn of its group, as `Group::mend`.
    pub fn mend_step<R: Wait>(
        &self,
        rt: &R,
        passes: &mut Passes<A>,
        job: u32,
        place: Place,
        blind: &Block,
    ) -> Mend
        requires ready { AreReady self.now.rack self.now.groups passes.old.groups }
        requires place { HasSlot self.now.rack self.now.groups place }
        requires job { 0 < job }
        ensures ready { AreReady self.now.rack self.now.groups passes.new.groups }
        ensures index { passes.new.index ≡ passes.old.index }
        ensures call { MakesAt A.account (λ told. MendCall told job place blind.now result)
            place.group passes.old.groups passes.new.groups }
    {
        let mut member = self
            .groups
            .enter(rt, &mut passes.groups, place.group as usize);
        let _before = member.group.logged();
        let answer = member.group.mend(job, place, blind);
        let _after = member.group.logged();
        self.groups
            .leave(&mut passes.groups, place.group as usize, member);
        answer
    }

    /// Mends a slot as far as that goes: repeats `mend_step` until it answers other than `Began`,
    /// `Extends`, `Mended` and `Passed`. It draws a blind before the first step, and after each
    /// `Began`; one that began no relay is dropped. It ends, since each step that goes on logs an
    /// entry.
    pub fn mend_place<R: Wait>(
        &self,
        rt: &R,
        passes: &mut Passes<A>,
        job: u32,
        place: Place,
        pads: &mut PadStream,
    ) -> Mending
        requires ready { AreReady self.now.rack self.now.groups passes.old.groups }
        requires place { HasSlot self.now.rack self.now.groups place }
        requires job { 0 < job }
        ensures ready { AreReady self.now.rack self.now.groups passes.new.groups }
        ensures index { passes.new.index ≡ passes.old.index }
        ensures mended { MendsPlace (IsTrue A.account.tells) job place pads.old pads.new result
            passes.old.groups passes.new.groups }
    {
        let mut blind = draw_blind(pads);
        let mut mended = 0;
        let mut passed = 0;
        'steps: loop {
            match self.mend_step(rt, passes, job, place, &blind) {
                Mend::Began => blind = draw_blind(pads),
                Mend::Extends => {}
                Mend::Mended => mended += 1,
                Mend::Passed => passed += 1,
                end => {
                    return Mending {
                        end,
                        mended,
                        passed,
                    };
                }
            }
        }
    }
}
