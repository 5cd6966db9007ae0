//! How a session closes.

ghost use Rattle.std.specs.Prelude.{◌≡◌, ℕ, IsTrue, IfErr, IsErr, IsErrOf, false};
ghost use Rattle.pot_outside.specs.Accounts.{Faults, transition_by, whole_transition};
ghost use Rattle.pot_outside.specs.Rooms.{IsHome};
ghost use Rattle.pot_outside.specs.Counts.{Caused};
ghost use Rattle.pot_shelves.specs.Shelves.{numbers_of};
ghost use Rattle.pot_commands.specs.Holding.{AreOut, Untouched};
ghost use Rattle.pot_session.specs.Desks.{IsKeepStop};
ghost use Rattle.pot_session.specs.Giving.{GivesArchivesBack};
ghost use Rattle.pot_session.specs.Opened.{CanClose, IsStartOf, Start};
ghost use Rattle.pot_session.specs.Serving.{Closes, IsCloseStop, first_failure};

use crate::desk::keep_image;
use crate::ending::stop::Stop;
use crate::session::archives::give_all;
use pot_bytes::Rack;
use pot_image::Image;
use pot_outside::{Archive, Desk, Failed, Room, Shelf};
use pot_shared::{Passes, Remains, Spaces, Vault};
use std::alloc::Global;

/// A session that was opened.
pub(crate) struct Opened<A: Archive> {
    pub session: u32,
    pub rack: Rack,
    pub vault: Vault<A>,
    pub passes: Passes<A>,
    pub spaces: Spaces<A>,
    /// Space for what the vault leaves, and for all archives that a session can have.
    pub remains: Remains<A>,
}

/// How a session closed.
#[derive(Drop)]
pub(crate) struct Close {
    /// Whether the image of the close is the desk's: `DeskFault` or `NoMemory` where it may not be.
    pub kept: Result<(), Stop>,
    /// The first failure: of the room, or of what came after it.
    pub first: Result<(), Stop>,
}

/// Closes a session: ends its vault, gives all archives back, and puts the image of the close in
/// the place of the desk's. Each is tried, whatever became of those before. No archive is out then,
/// and those at which the room did not fail are in it.
///
/// A failure is `RoomFault` exactly where the room itself failed at an archive, `DeskFault` only
/// where the desk's count of faults rose, or `NoMemory`.
pub(crate) fn close_session<R: Room, D: Desk>(
    alloc: Global,
    opened: Opened<R::A>,
    room: &mut R,
    desk: &mut D,
) -> Close
    requires { CanClose (R.meaning room.old) opened }
    ensures home { IsHome (R.meaning room.new) }
    ensures untouched { (n : ℕ) → (R.meaning room.old).out n ≡ false
        → (R.meaning room.new).means n ≡ (R.meaning room.old).means n }
    // For each way in which it was opened and served:
    ensures closes { (s : Start) → IsStartOf (IsTrue R.A.account.tells) s opened
        → Closes s.old opened.passes
        (transition_by R.A.account.tells s.room (R.meaning room.new))
        (R.meaning room.old).failures (whole_transition D.account desk.old desk.new) s.first
        result.kept result.first }
    ensures which { IsCloseStop result.first }
    ensures which_kept { IfErr result.kept IsKeepStop }
    ensures room { Caused (R.meaning room.old).faults (R.meaning room.new).faults
        (IsErrOf result.first Stop.RoomFault) }
    ensures own { Caused (R.meaning room.old).failures (R.meaning room.new).failures
        (IsErrOf result.first Stop.RoomFault) }
    ensures desk { Faults D.account desk.old desk.new (IsErrOf result.kept Stop.DeskFault) }
    ensures first { IsErrOf result.first Stop.DeskFault → IsErrOf result.kept Stop.DeskFault }
{
    let Opened {
        session,
        rack,
        vault,
        passes,
        spaces,
        remains,
    } = opened;
    let Remains {
        tables,
        logs,
        records,
        index_log,
        hand,
    } = vault.end(passes, spaces, remains);
    let given = give_hand(room, hand);
    let image = Image {
        session,
        rack,
        tables,
        records,
        group_logs: logs,
        index_log,
    };
    let kept = keep_image(alloc, &image, desk);
    Close {
        kept,
        first: first_failure(given, kept),
    }
}

/// Gives back all archives of a hand.
fn give_hand<R: Room>(room: &mut R, hand: Vec<Shelf<R::A>>) -> Result<(), Failed>
    requires { AreOut (R.meaning room.old) (numbers_of hand.items) }
    ensures home { IsHome (R.meaning room.new) }
    ensures untouched { Untouched (numbers_of hand.items) (R.meaning room.old)
        (R.meaning room.new) }
    ensures back { GivesArchivesBack R.A.account hand.items (R.meaning room.old)
        (R.meaning room.new) result }
    ensures cause { Caused (R.meaning room.old).faults (R.meaning room.new).faults (IsErr result) }
{
    let mut hand = hand;
    let given = give_all(room, &mut hand);
    hand.destroy_empty();
    given
}

/// What failed first, if anything did: the room, or what came after it.
fn first_failure(given: Result<(), Failed>, kept: Result<(), Stop>) -> Result<(), Stop>
    ensures { result ≡ first_failure given kept }
{
    match given {
        Ok(()) => kept,
        Err(Failed) => Err(Stop::RoomFault),
    }
}
