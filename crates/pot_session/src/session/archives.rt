//! The archives of a session: taken from the room, and given back.

ghost use Rattle.std.specs.Prelude.{◌≡◌, ◌⊎◌, ◌<◌, ◌≤◌, [], IsTrue, OnOk, OnErr, IsErr, IsErrOf};
ghost use Rattle.std.specs.Prelude.{length, vec_capacity};
ghost use Rattle.pot_outside.specs.Rooms.{IsHome, room_transition};
ghost use Rattle.pot_outside.specs.Counts.{Caused};
ghost use Rattle.pot_shelves.specs.Shelves.{numbers_of};
ghost use Rattle.pot_shared.specs.Hands.{AreApart, AreMeant};
ghost use Rattle.pot_commands.specs.Holding.{AreOut, Untouched};
ghost use Rattle.pot_session.specs.Giving.{GivesArchivesBack, IsUnlent, IsRoomUnopened};

use pot_outside::{Failed, Room, RoomFault, Shelf};

/// Takes the archives of these numbers, in order.
///
/// # Errors
/// `Failed` only where the room itself failed, or `NoMemory`. No archive is out then.
pub(crate) fn take_all<R: Room>(
    room: &mut R,
    numbers: &[u32],
    hand: &mut Vec<Shelf<R::A>>,
) -> Result<(), RoomFault>
    requires home { IsHome (R.meaning room.old) }
    requires apart { AreApart numbers.now }
    requires empty { hand.old.items ≡ [] }
    requires space { length numbers.now ≤ vec_capacity hand.old }
    ensures taken { OnOk result (numbers_of hand.new.items ≡ numbers.now) }
    ensures out { OnOk result (AreOut (R.meaning room.new) numbers.now) }
    ensures home { OnErr result (IsHome (R.meaning room.new)) }
    ensures empty { OnErr result (hand.new.items ≡ []) }
    ensures space { vec_capacity hand.new ≡ vec_capacity hand.old }
    ensures untouched { Untouched numbers.now (R.meaning room.old) (R.meaning room.new) }
    ensures meant { IsTrue R.A.account.tells
        → OnOk result (AreMeant R.A.account.meaning (R.meaning room.old).means hand.new.items) }
    ensures cause { Caused (R.meaning room.old).faults (R.meaning room.new).faults
        (IsErrOf result RoomFault.Failed) }
    ensures own { Caused (R.meaning room.old).failures (R.meaning room.new).failures
        (IsErrOf result RoomFault.Failed) }
    ensures sound { OnOk result ((R.meaning room.new).failures ≡ (R.meaning room.old).failures) }
    ensures unlent { IsErrOf result RoomFault.Failed
        → IsUnlent (room_transition R.A.account R.meaning room.old room.new) }
    ensures unopened { IsErrOf result RoomFault.NoMemory
        → IsRoomUnopened (room_transition R.A.account R.meaning room.old room.new) }
{
    for number in numbers {
        match room.take(*number) {
            Ok(archive) => hand.push_reserved(Shelf {
                number: *number,
                archive,
            }),
            Err(fault) => {
                let _given = give_all(room, hand);
                return Err(fault);
            }
        }
    }
    Ok(())
}

/// The place of a shelf of the least number.
fn least_place<A>(shelves: &[Shelf<A>]) -> usize
    requires { 0 < length shelves.now }
    ensures { result < length shelves.now }
{
    let mut least = 0;
    for place in 1..shelves.len() {
        if shelves[place].number < shelves[least].number {
            least = place;
        }
    }
    least
}

/// Gives archives back that are out, in ascending number. Each is tried, whatever became of those
/// before.
///
/// # Errors
/// `Failed` exactly where the room itself failed at one of them. No archive is out then either, and
/// those at which it did not fail are as they were.
pub(crate) fn give_all<R: Room>(room: &mut R, hand: &mut Vec<Shelf<R::A>>) -> Result<(), Failed>
    requires { AreOut (R.meaning room.old) (numbers_of hand.old.items) }
    ensures home { IsHome (R.meaning room.new) }
    ensures empty { hand.new.items ≡ [] }
    ensures space { vec_capacity hand.new ≡ vec_capacity hand.old }
    ensures untouched { Untouched (numbers_of hand.old.items) (R.meaning room.old)
        (R.meaning room.new) }
    ensures back { GivesArchivesBack R.A.account hand.old.items (R.meaning room.old)
        (R.meaning room.new) result }
    ensures cause { Caused (R.meaning room.old).faults (R.meaning room.new).faults (IsErr result) }
{
    let mut answer = Ok(());
    while !hand.is_empty() {
        let place = least_place(hand);
        let Shelf { number, archive } = hand.remove(place);
        answer = either(answer, room.give(number, archive));
    }
    answer
}

/// The first failure of two calls, if one failed.
fn either(first: Result<(), Failed>, second: Result<(), Failed>) -> Result<(), Failed>
    ensures some { IsErr result → IsErr first ⊎ IsErr second }
    ensures first { IsErr first → IsErr result }
    ensures second { IsErr second → IsErr result }
{
    match first {
        Ok(()) => second,
        Err(Failed) => Err(Failed),
    }
}
