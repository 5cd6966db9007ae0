//! A put of one block at the cursor of a group.
ghost use Rattle.std.specs.Prelude.{◌≡◌, ◌<◌, ◌≤◌, IsTrue, Err, length};
ghost use Rattle.pot_bytes.specs.Rack.{log_bound};
ghost use Rattle.pot_group.specs.Putting.{answered};

use crate::answers::PutFault;
use crate::group::Group;
use crate::parities::{Checked, Kept, after_put, put_entry, write_put};
use pot_bytes::{Block, LOG_BOUND, Place, block_law};
use pot_machine::{Cursor, Entry};
use pot_outside::Archive;
use pot_shelves::{Parity, note};

/// Why a put stops at a stripe.
#[derive(Clone, Copy, PartialEq, Eq, Debug)]
pub(crate) enum Stop {
    /// The stripe takes the block.
    Here,
    /// No stripe is left.
    Full,
    /// The log has no room for the next entry.
    LogFull,
    /// The archive of this parity column failed.
    Faulted { column: u8 },
}

impl<A: Archive> Group<A> {
    ghost use Rattle.std.specs.Prelude.{◌≢◌, ◌⊎◌, ◌+◌, Some, None, []};
    ghost use Rattle.pot_machine.specs.declared.slot.SlotState.TheVariants.{Void};
    ghost use Rattle.pot_machine.specs.Table.{width, slot_at};
    ghost use Rattle.pot_machine.specs.Machine.{AtCursor, TakesBlocks};
    ghost use Rattle.pot_machine.specs.Rules.{IsTable};
    ghost use Rattle.pot_steps.specs.Stripe.{Sound};
    ghost use Rattle.pot_group.specs.Group.{OnGroup, stripe_in};
    ghost use Rattle.pot_group.specs.Calls.{MakesCall, PutCall};
    ghost use Rattle.pot_shelves.specs.Shelves.{plain};
    ghost use Rattle.pot_group.specs.Putting.{Passes, FindsStripe, HasOld, BlockMeans};

    /// Puts a block at the cursor, and changes each parity block by it: P to P XOR the block, and
    /// Q, where there is one, to Q XOR 3^column times the block.
    ///
    /// A stripe that has a relay, or a slot that is Lost or Broken, is passed, and so is one of
    /// which a parity block is missing.
    ///
    /// # Errors
    /// `LogFull` first, exactly where the log has 262,144 entries, and nothing changes then. It
    /// also comes before any write where the cursor has a stripe left and the next entry has no
    /// room; the entries logged before it stay. `Full` where the cursor has no stripe left.
    /// `Faulted` where the archive of that column failed, of two parity columns the first whose
    /// block was not written.
    pub fn put(&mut self, job: u32, block: &Block) -> Result<Place, PutFault>
        requires job { 0 < job }
        ensures puts { MakesCall A.account (λ told. PutCall told job block.now result) self.old
            self.new }
    {
        if self.log.len() >= LOG_BOUND {
            return Err(PutFault::LogFull);
        }
        let mut parity = Parity::zero();
        let stop = self.find_stripe(job, &mut parity);
        let _entries = self.logged();
        match stop {
            Stop::Here => self.put_block(job, block, &parity),
            Stop::Full => Err(PutFault::Full),
            Stop::LogFull => Err(PutFault::LogFull),
            Stop::Faulted { column } => Err(PutFault::Faulted { column }),
        }
    }

    /// Passes stripes until one takes a block, and reads its old parity blocks.
    fn find_stripe(&mut self, job: u32, parity: &mut Parity) -> Stop
        ensures { OnGroup A.account
            (λ told. FindsStripe told job parity.new.first parity.new.second result) self.old
            self.new }
    {
        loop {
            if let Some(stop) = self.pass(job, parity) {
                return stop;
            }
        }
    }

    /// Passes the cursor's stripe where it takes no block. Where it takes one, reads its old parity
    /// blocks.
    fn pass(&mut self, job: u32, parity: &mut Parity) -> Option<Stop>
        ensures { OnGroup A.account
            (λ told. Passes told job parity.new.first parity.new.second result) self.old self.new }
    {
        let Cursor { stripe, column: _ } = self.table.cursor();
        if stripe >= self.table.stripes() {
            return Some(Stop::Full);
        }
        if self.log.len() >= LOG_BOUND {
            return Some(Stop::LogFull);
        }
        let skip = Entry::Skip { job, stripe };
        if self.table.legal(&skip) {
            self.note(skip);
            return None;
        }
        match self.read_parity(stripe, parity) {
            Checked::Sound => Some(Stop::Here),
            Checked::Missing { column } => self.leave(job, stripe, column),
            Checked::NotRead { column } => {
                self.note(Entry::Fault {
                    job,
                    stripe,
                    column,
                });
                Some(Stop::Faulted { column })
            }
        }
    }

    /// Logs that a parity block of the cursor's stripe is gone, and passes the stripe.
    fn leave(&mut self, job: u32, stripe: u32, column: u8) -> Option<Stop>
        requires rules { IsTable self.old.table }
        requires cursor { AtCursor self.old.table stripe }
        requires room { length self.old.log < log_bound }
        requires takes { TakesBlocks self.old.table stripe }
        requires parity { self.old.table.data_columns ≤ column }
        requires column { column < width self.old.table }
        requires void { slot_at self.old.table stripe column ≢ Void }
        requires gone { IsTrue A.account.tells → Sound (stripe_in A.account self.old stripe) column
            → ⊥ }
        requires least { IsTrue A.account.tells → column ≡ self.old.table.data_columns + 1
            → Sound (stripe_in A.account self.old stripe) self.old.table.data_columns }
        ensures passes { OnGroup A.account (λ told. Passes told job [] [] result) self.old
            self.new }
        ensures left { (result ≡ None) ⊎ (result ≡ Some Stop.LogFull) }
    {
        self.note(Entry::Gone {
            job,
            stripe,
            column,
        });
        if self.log.len() >= LOG_BOUND {
            return Some(Stop::LogFull);
        }
        self.note(Entry::Skip { job, stripe });
        None
    }

    /// Writes a block at the cursor and the new parity blocks of its stripe, and logs the put.
    fn put_block(&mut self, job: u32, block: &Block, old: &Parity) -> Result<Place, PutFault>
        requires cursor { AtCursor self.old.table self.old.table.cursor.stripe }
        requires takes { TakesBlocks self.old.table self.old.table.cursor.stripe }
        requires room { length self.old.log < log_bound }
        requires old { HasOld (IsTrue A.account.tells) self.old.table
            (plain A.account.meaning self.old.shelves).held
            self.old.table.cursor.stripe old.now.first old.now.second }
        ensures { OnGroup A.account
            (λ told. BlockMeans told job block.now old.now.first old.now.second result) self.old
            self.new }
    {
        let cursor = self.table.cursor();
        let Cursor { stripe, column } = cursor;
        let last = self.table.data_columns();
        let parity_columns = self.table.parity();
        let parity = after_put(old, block, column, parity_columns);
        block_law(block);
        match write_put(&mut self.archives, &self.table, block, &parity) {
            None => {
                let entry = Entry::Fault {
                    job,
                    stripe,
                    column,
                };
                self.tried.keep(self.log.len() as u64, block);
                note(&mut self.table, &mut self.log, entry);
                Err(PutFault::Faulted { column })
            }
            Some(kept) => {
                let entry = put_entry(
                    self.known.as_mut(),
                    parity_columns,
                    job,
                    cursor,
                    block,
                    &parity,
                    kept,
                );
                note(&mut self.table, &mut self.log, entry);
                let place = Place {
                    group: self.number,
                    column,
                    stripe,
                };
                answered(place, last, kept)
            }
        }
    }
}

/// The answer of a put whose block was written: its place, or the first parity column whose block
/// was not written.
fn answered(place: Place, last: u8, kept: Kept) -> Result<Place, PutFault>
    requires { last ≤ 16 }
    ensures { result ≡ answered place last kept.first kept.second }
{
    if !kept.first {
        return Err(PutFault::Faulted { column: last });
    }
    if !kept.second {
        return Err(PutFault::Faulted { column: last + 1 });
    }
    Ok(place)
}
