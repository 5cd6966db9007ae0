ghost use Rattle.std.specs.Prelude.{◌≡◌, Some, None, IsTrue, IfOk, MatchOption, IsErr, IsErrOf};
ghost use Rattle.pot_outside.specs.Accounts.{Account, Content, Faults, Stays, transition};
ghost use Rattle.pot_outside.specs.Desks.{Images, HadItsImage, Replaces, MayCome};

use crate::{DeskFault, Failed};

/// One image, or none.
pub trait Desk {
    /// Whether desks of this type tell their image, and what each means: its image and those that
    /// it ever had, and how often it failed.
    ghost account: { Account Self (Content Images) };

    /// A copy of the image. It leaves the image as it is.
    ///
    /// # Errors
    /// `Failed` only where the count of faults rose.
    fn read(&mut self) -> Result<Option<Vec<u8>>, DeskFault>
        ensures told { IsTrue account.tells
            → IfOk result (λ o. MatchOption o ((account.meaning self.old).held.now ≡ None)
            (λ v. (account.meaning self.old).held.now ≡ Some v.items)) }
        ensures keeps { Stays (transition account self.old self.new) }
        ensures had { IsTrue account.tells → HadItsImage (account.meaning self.new).held }
        ensures cause { Faults account self.old self.new (IsErrOf result DeskFault.Failed) };

    /// Puts an image in the place of the one before.
    ///
    /// # Errors
    /// `Failed` only where the count of faults rose; the desk then has the old image, the new one
    /// or none.
    fn replace(&mut self, image: &[u8]) -> Result<(), Failed>
        ensures told { IsTrue account.tells
            → Replaces (account.meaning self.old).held.now (account.meaning self.new).held.now
            image.now result }
        ensures came { IsTrue account.tells
            → MayCome (account.meaning self.old).held.past image.now
            (account.meaning self.new).held.past }
        ensures had { IsTrue account.tells → HadItsImage (account.meaning self.new).held }
        ensures cause { Faults account self.old self.new (IsErr result) };
}
