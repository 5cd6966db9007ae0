ghost use Rattle.std.specs.Prelude.{◌≡◌, List, IsTrue, IsErr, length};
ghost use Rattle.pot_outside.specs.Accounts.{Account, Content, Faults, Stays, transition};
ghost use Rattle.pot_outside.specs.Disks.{DiskCall, ReadsBytes, WritesBytes, SyncsBytes};

use crate::Failed;

/// A byte at every place, zero where nothing was written.
///
/// Until a sync has answered `Ok`, a crash leaves any bytes in the places of each write that began
/// since the last one that did. Elsewhere it leaves the byte that a read gives.
pub trait Disk {
    /// Whether disks of this type tell their bytes, and what each means: the calls that changed it
    /// so far, the newest first, and how often it failed. The calls are its clock, and they say
    /// what it holds and what a crash leaves at each moment.
    ghost account: { Account Self (Content (List DiskCall)) };

    /// Reads the bytes from a place on.
    ///
    /// # Errors
    /// `Failed` only where the count of faults rose.
    fn read(&mut self, at: u64, into: &mut [u8]) -> Result<(), Failed>
        ensures told { IsTrue account.tells
            → ReadsBytes (account.meaning self.old).held at into.new result }
        ensures keeps { Stays (transition account self.old self.new) }
        ensures cause { Faults account self.old self.new (IsErr result) };

    /// Writes bytes from a place on.
    ///
    /// # Errors
    /// `Failed` only where the count of faults rose; any bytes may then lie there.
    fn write(&mut self, at: u64, from: &[u8]) -> Result<(), Failed>
        ensures told { IsTrue account.tells
            → WritesBytes (account.meaning self.old).held (account.meaning self.new).held at
            from.now result }
        ensures cause { Faults account self.old self.new (IsErr result) };

    /// Brings what was written to where a crash leaves it.
    ///
    /// # Errors
    /// `Failed` only where the count of faults rose; what was pending still is.
    fn sync(&mut self) -> Result<(), Failed>
        ensures told { IsTrue account.tells
            → SyncsBytes (account.meaning self.old).held (account.meaning self.new).held result }
        ensures cause { Faults account self.old self.new (IsErr result) };
}
