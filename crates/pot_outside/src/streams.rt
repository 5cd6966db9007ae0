ghost use Rattle.std.specs.Prelude.{ℕ, List, IsTrue, IsErr};
ghost use Rattle.pot_outside.specs.Accounts.{Account, Content, Faults};
ghost use Rattle.pot_outside.specs.Streams.{ReadsNext, SinkAppends, Within, TakesSome};

use crate::Failed;

/// Bytes that come in, as standard input.
pub trait Source {
    /// Whether sources of this type tell their bytes, and what each means: the bytes left, and how
    /// often it failed.
    ghost account: { Account Self (Content (List ℕ)) };

    /// Reads some of the next bytes into the front of `into`, and answers how many. 0 into a buffer
    /// with room is the end of the input.
    ///
    /// # Errors
    /// `Failed` only where the count of faults rose; a source that tells has then lost no byte.
    fn read(&mut self, into: &mut [u8]) -> Result<usize, Failed>
        ensures told { IsTrue account.tells
            → ReadsNext (account.meaning self.old).held (account.meaning self.new).held into.new
            result }
        ensures within { Within into.new result }
        ensures cause { Faults account self.old self.new (IsErr result) };
}

/// Bytes that go out, as standard output.
pub trait Sink {
    /// Whether sinks of this type tell their bytes, and what each means: the bytes written so far,
    /// and how often it failed.
    ghost account: { Account Self (Content (List ℕ)) };

    /// Appends some first bytes of `from`, and answers how many: at least one, where there is one.
    ///
    /// # Errors
    /// `Failed` only where the count of faults rose; some first bytes of `from` may have been
    /// appended.
    fn write(&mut self, from: &[u8]) -> Result<usize, Failed>
        ensures told { IsTrue account.tells
            → SinkAppends (account.meaning self.old).held (account.meaning self.new).held from.now
            result }
        ensures within { Within from.now result }
        ensures some { TakesSome from.now result }
        ensures cause { Faults account self.old self.new (IsErr result) };
}
