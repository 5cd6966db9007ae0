ghost use Rattle.std.specs.Prelude.{◌≡◌, ◌≢◌, ℕ, IsTrue, IfOk, OnOk, OnErr, IsErr, IsErrOf};
ghost use Rattle.std.specs.Prelude.{true, false};
ghost use Rattle.pot_outside.specs.Counts.{Caused, Rose};
ghost use Rattle.pot_outside.specs.Archives.{IsMeant, IsVacant};
ghost use Rattle.pot_outside.specs.Rooms.{RoomState, IsLeft, MayLose};

use crate::{Archive, Failed, RoomFault};

/// Archives by number. An archive that was taken is out until it is given back.
///
/// The room tells what its archives hold exactly where its archives do.
pub trait Room {
    type A: Archive + Send;

    /// What a room means: which archives are out, what it means by each number, and how often it
    /// failed.
    ghost meaning: { Self → RoomState };

    /// Hands out the archive of a number. While it is out, the number means an empty one.
    ///
    /// # Errors
    /// `Failed` only where both counts of the room rose, and that of its own failures rises at no
    /// other answer. The number is then not out, and means what it meant.
    fn take(&mut self, number: u32) -> Result<Self::A, RoomFault>
        requires { (meaning self.old).out number ≡ false }
        ensures told { IfOk result (λ a. IsTrue Self.A.account.tells
            → IsMeant ((meaning self.old).means number) (Self.A.account.meaning a)) }
        ensures lends { IfOk result (λ a.
            (meaning self.new).lent number ≡ (Self.A.account.meaning a).faults) }
        ensures taken { OnOk result ((meaning self.new).out number ≡ true) }
        ensures vacates { OnOk result (IsVacant ((meaning self.new).means number)) }
        ensures refused { OnErr result ((meaning self.new).out number ≡ false) }
        ensures unchanged { OnErr result
            ((meaning self.new).means number ≡ (meaning self.old).means number) }
        ensures others { (n : ℕ) → n ≢ number
            → IsLeft (meaning self.old) (meaning self.new) n }
        ensures cause { Caused (meaning self.old).faults (meaning self.new).faults
            (IsErrOf result RoomFault.Failed) }
        ensures own { Caused (meaning self.old).failures (meaning self.new).failures
            (IsErrOf result RoomFault.Failed) }
        ensures sound { OnOk result ((meaning self.new).failures ≡ (meaning self.old).failures) }
        ensures starved { IsErrOf result RoomFault.NoMemory
            → (meaning self.new).failures ≡ (meaning self.old).failures };

    /// Takes an archive back. After `Ok` it is in the room again; after a failure it may be lost,
    /// and the number then means what it meant while the archive was out. Where the archive failed
    /// while it was out, the room's count of faults rises.
    ///
    /// # Errors
    /// `Failed` only where both counts of the room rose, and that of its own failures rises at no
    /// other answer.
    fn give(&mut self, number: u32, archive: Self::A) -> Result<(), Failed>
        requires { (meaning self.old).out number ≡ true }
        ensures told { OnOk result (IsTrue Self.A.account.tells
            → IsMeant ((meaning self.new).means number) (Self.A.account.meaning archive)) }
        ensures lost { OnErr result (MayLose ((meaning self.old).means number)
            (Self.A.account.meaning archive) ((meaning self.new).means number)) }
        ensures back { (meaning self.new).out number ≡ false }
        ensures others { (n : ℕ) → n ≢ number
            → IsLeft (meaning self.old) (meaning self.new) n }
        ensures covers { Rose ((meaning self.old).lent number) (Self.A.account.meaning archive).faults
            → Rose (meaning self.old).faults (meaning self.new).faults }
        ensures cause { Caused (meaning self.old).faults (meaning self.new).faults (IsErr result) }
        ensures own { Caused (meaning self.old).failures (meaning self.new).failures (IsErr result) }
        ensures sound { OnOk result ((meaning self.new).failures ≡ (meaning self.old).failures) };
}
