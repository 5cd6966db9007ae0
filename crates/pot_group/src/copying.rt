//! One stripe after another of a column that moves.
ghost use Rattle.std.specs.Prelude.{◌≡◌, ◌<◌, IsTrue, Some, false, length, []};
ghost use Rattle.pot_bytes.specs.Rack.{log_bound};
ghost use Rattle.pot_machine.specs.Table.{width};

use crate::group::Group;
use crate::reads::Found;
use pot_bytes::{Block, Digest, LOG_BOUND};
use pot_machine::{Entry, Moving, SlotState};
use pot_outside::{Archive, Failed};
use pot_shelves::note;
use pot_steps::{move_end, move_one};

/// What a step of a move came to.
#[derive(Clone, Copy, PartialEq, Eq, Debug)]
pub enum MoveStep {
    /// The slot's block was read, of its digest, and written to the target.
    Copied,
    /// The slot is not Live, or its archive has no block of its digest; a Live slot is Lost now.
    Passed,
    /// All stripes were passed. The target is the column's home, and the old home serves no slot.
    Ended,
}

/// Why a move did not go on.
#[derive(Clone, Copy, PartialEq, Eq, Debug)]
pub enum MoveFault {
    /// The log has no room. Nothing changed.
    LogFull,
    /// The column does not move. Nothing changed.
    Idle,
    /// An archive of this column failed. The move stays where it is.
    Faulted { column: u8 },
}

impl<A: Archive> Group<A> {
    ghost use Rattle.pot_machine.specs.declared.entry.Entry.TheVariants.{Moved, MoveEnd};
    ghost use Rattle.pot_machine.specs.declared.slot.SlotState.TheVariants.{Live};
    ghost use Rattle.pot_machine.specs.Machine.{Legal};
    ghost use Rattle.pot_machine.specs.Slot.{is_live};
    ghost use Rattle.pot_machine.specs.Table.{column_at, slot_at};
    ghost use Rattle.pot_steps.specs.Stripe.{IsSound, Sound};
    ghost use Rattle.pot_group.specs.Group.{OnGroup, stripe_in};
    ghost use Rattle.pot_group.specs.Relaying.{acted};
    ghost use Rattle.pot_group.specs.Moving.{StepsMove};
    ghost use Rattle.pot_group.specs.Calls.{MakesCall, MoveStepCall};

    /// Moves a column by one stripe, or ends its move. It writes to no other slot than that of the
    /// target at this stripe.
    ///
    /// # Errors
    /// `LogFull` first, exactly where the log has 262,144 entries. `Idle` exactly where the column
    /// does not move. `Faulted` where the archive that serves the slot failed, or the target; the
    /// move stays where it is.
    pub fn move_step(&mut self, job: u32, column: u8) -> Result<MoveStep, MoveFault>
        requires job { 0 < job }
        requires column { column < width self.old.table }
        ensures moves { MakesCall A.account (λ told. MoveStepCall told job column result) self.old
            self.new }
    {
        if self.log.len() >= LOG_BOUND {
            return Err(MoveFault::LogFull);
        }
        let _settled = self.logged();
        let Some(moving) = self.table.columns()[usize::from(column)].moving else {
            return Err(MoveFault::Idle);
        };
        self.move_on(job, column, moving)
    }

    /// Passes, copies or ends.
    fn move_on(&mut self, job: u32, column: u8, moving: Moving) -> Result<MoveStep, MoveFault>
        requires column { column < width self.old.table }
        requires moves { (column_at self.old.table column).moving ≡ Some moving }
        requires room { length self.old.log < log_bound }
        ensures { OnGroup A.account (λ told. StepsMove told job column result) self.old self.new }
    {
        let _settled = self.logged();
        if moving.upto >= self.table.stripes() {
            self.end_move(job, column);
            return Ok(MoveStep::Ended);
        }
        let SlotState::Live(digest) = self.table.slot(moving.upto, column) else {
            self.pass_slot(job, column, moving);
            return Ok(MoveStep::Passed);
        };
        self.copy(job, column, moving, digest)
    }

    /// Reads the block of a Live slot, and writes it to the target.
    fn copy(
        &mut self,
        job: u32,
        column: u8,
        moving: Moving,
        digest: Digest,
    ) -> Result<MoveStep, MoveFault>
        requires column { column < width self.old.table }
        requires moves { (column_at self.old.table column).moving ≡ Some moving }
        requires stripe { moving.upto < self.old.table.stripes }
        requires live { slot_at self.old.table moving.upto column ≡ Live digest }
        requires room { length self.old.log < log_bound }
        ensures { OnGroup A.account (λ told. StepsMove told job column result) self.old self.new }
    {
        let _settled = self.logged();
        let mut block = Block::zero();
        match self.read_slot(moving.upto, column, digest, &mut block) {
            Found::Sound => self.write_copy(job, column, moving, &block),
            Found::Missing => {
                self.pass_slot(job, column, moving);
                Ok(MoveStep::Passed)
            }
            Found::NotRead => {
                self.note(Entry::Fault {
                    job,
                    stripe: moving.upto,
                    column,
                });
                Err(MoveFault::Faulted { column })
            }
        }
    }

    /// Writes the block of a Live slot to the target.
    fn write_copy(
        &mut self,
        job: u32,
        column: u8,
        moving: Moving,
        block: &Block,
    ) -> Result<MoveStep, MoveFault>
        requires column { column < width self.old.table }
        requires moves { (column_at self.old.table column).moving ≡ Some moving }
        requires stripe { moving.upto < self.old.table.stripes }
        requires live { IsTrue (is_live (slot_at self.old.table moving.upto column)) }
        requires sound { IsTrue A.account.tells
            → IsSound (stripe_in A.account self.old moving.upto) column block.now }
        requires room { length self.old.log < log_bound }
        ensures { OnGroup A.account (λ told. StepsMove told job column result) self.old self.new }
    {
        match self.archives.write(moving.to, moving.upto, block) {
            Ok(()) => {
                let entry = move_one(&mut self.table, job, column, true);
                self.log.push_reserved(entry);
                Ok(MoveStep::Copied)
            }
            Err(Failed) => {
                note(
                    &mut self.table,
                    &mut self.log,
                    Entry::Fault {
                        job,
                        stripe: moving.upto,
                        column,
                    },
                );
                Err(MoveFault::Faulted { column })
            }
        }
    }

    /// The move passes a slot that is not sound.
    fn pass_slot(&mut self, job: u32, column: u8, moving: Moving)
        requires column { column < width self.old.table }
        requires moves { (column_at self.old.table column).moving ≡ Some moving }
        requires stripe { moving.upto < self.old.table.stripes }
        requires missing { IsTrue A.account.tells
            → Sound (stripe_in A.account self.old moving.upto) column → ⊥ }
        requires room { length self.old.log < log_bound }
        ensures { self.new ≡ acted self.old (Moved job moving.upto column false) [] }
    {
        let entry = move_one(&mut self.table, job, column, false);
        self.log.push_reserved(entry);
    }

    /// The move ends.
    fn end_move(&mut self, job: u32, column: u8)
        requires legal { Legal self.old.table (MoveEnd job column) }
        requires room { length self.old.log < log_bound }
        ensures { self.new ≡ acted self.old (MoveEnd job column) [] }
    {
        let entry = move_end(&mut self.table, job, column);
        self.log.push_reserved(entry);
    }
}
