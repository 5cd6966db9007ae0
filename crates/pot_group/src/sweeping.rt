//! A sweep of a group: looks at several slots, one after another.
ghost use Rattle.std.specs.Prelude.{◌≡◌, ◌<◌, ◌≤◌, ◌+◌, ℕ, length};
ghost use Rattle.pot_bytes.specs.Rack.{log_bound};
ghost use Rattle.pot_group.specs.Lanes.{entry_of, with_found};

use crate::finding::Kind;
use crate::group::Group;
use crate::lanes::digests_of;
use crate::reads::Found;
use pot_bytes::{LOG_BOUND, Place};
use pot_machine::Entry;
use pot_outside::Archive;

/// How far a sweep came.
#[derive(Clone, Copy, PartialEq, Eq, Debug)]
pub enum Reached {
    /// No slot from there on is Live, and none was looked at.
    End,
    /// The last slot that was looked at. There may be more behind it.
    Slot { stripe: u32, column: u8 },
    /// The archive of this column failed, at the last slot that was looked at.
    Faulted { column: u8 },
    /// The log has no room for a look at the next slot.
    LogFull,
}

/// What a sweep saw: how many slots had their block, and of how many it is gone.
#[derive(Clone, Copy, PartialEq, Eq, Debug)]
pub struct Swept {
    pub seen: u32,
    pub gone: u32,
    pub reached: Reached,
}

impl Swept {
    /// A sweep of no slot.
    fn nothing(reached: Reached) -> Swept
        ensures { result ≡ record { seen = 0; gone = 0; reached = reached } }
    {
        Swept {
            seen: 0,
            gone: 0,
            reached,
        }
    }

    /// The sweep after one look more.
    fn with(self, place: Place, found: Found) -> Swept
        requires seen { self.seen < 4 }
        requires gone { self.gone < 4 }
        ensures { result ≡ with_found self place found }
    {
        let Place {
            group: _,
            column,
            stripe,
        } = place;
        let Swept {
            seen,
            gone,
            reached: _,
        } = self;
        match found {
            Found::Sound => Swept {
                seen: seen + 1,
                gone,
                reached: Reached::Slot { stripe, column },
            },
            Found::Missing => Swept {
                seen,
                gone: gone + 1,
                reached: Reached::Slot { stripe, column },
            },
            Found::NotRead => Swept {
                seen,
                gone,
                reached: Reached::Faulted { column },
            },
        }
    }
}

/// The entry of what a read came to.
fn entry_of(job: u32, place: Place, found: Found) -> Entry
    ensures { result ≡ entry_of job place found }
{
    let Place {
        group: _,
        column,
        stripe,
    } = place;
    match found {
        Found::Sound => Entry::Seen {
            job,
            stripe,
            column,
        },
        Found::Missing => Entry::Gone {
            job,
            stripe,
            column,
        },
        Found::NotRead => Entry::Fault {
            job,
            stripe,
            column,
        },
    }
}

impl<A: Archive> Group<A> {
    ghost use Rattle.std.specs.Prelude.{IsTrue};
    ghost use Rattle.pot_group.specs.Group.{view_of};
    ghost use Rattle.pot_group.specs.Calls.{MakesCall, Made};
    ghost use Rattle.pot_group.specs.Sweeping.{SweepCall};

    /// Looks at up to four Live slots, the first at or after this place and those that follow it by
    /// stripe and column, as `next` and `look` by turns would, and with the same calls of the
    /// archives. It ends early where an archive fails and where the log has no room. The stripe and
    /// the column may be beyond the last ones. All blocks are read before they are digested.
    pub fn sweep(&mut self, job: u32, stripe: u32, column: u8) -> Swept
        requires job { 0 < job }
        ensures sweeps { MakesCall A.account (λ told. SweepCall told job stripe column result)
            self.old
            self.new }
    {
        let _settled = self.logged();
        let most = self.looks_left();
        if most == 0 {
            return self.look_at_none(stripe, column);
        }
        let lanes = self.gather(stripe, column, most);
        let digests = digests_of(&lanes.lanes, lanes.count);
        let mut swept = Swept::nothing(Reached::End);
        for at in 0..lanes.count {
            let lane = &lanes.lanes[at];
            let found = lane.found(digests[at]);
            self.note(entry_of(job, lane.place, found));
            swept = swept.with(lane.place, found);
        }
        swept
    }

    /// How many looks the log has room for, of four at most.
    fn looks_left(&self) -> usize
        ensures few { result ≤ 4 }
        ensures room { length self.now.log + result ≤ log_bound }
        ensures none { result ≡ 0 → length self.now.log ≡ log_bound }
    {
        let room = LOG_BOUND - self.log.len();
        if room < 4 { room } else { 4 }
    }

    /// A sweep of a group whose log is full.
    fn look_at_none(&self, stripe: u32, column: u8) -> Swept
        requires full { length self.now.log ≡ log_bound }
        ensures { (job : ℕ) → Made (SweepCall (IsTrue A.account.tells) job stripe column result)
            (view_of A.account.meaning self.now)
            (view_of A.account.meaning self.now) }
    {
        match self.next(stripe, column, Kind::Live) {
            Some(_) => Swept::nothing(Reached::LogFull),
            None => Swept::nothing(Reached::End),
        }
    }
}
