//! The program of sessions, as the commands call it.
//!
//! The commands name no session: whoever makes a program of them says what holds one. So what is
//! proved of them stands whatever a session is.
ghost use Rattle.std.specs.Prelude.{◌≡◌, ℕ, false};
ghost use Rattle.std.specs.Ordering.{nat_cmp};
ghost use Rattle.std.specs.BTreeSet.{contains};
ghost use Rattle.std.specs.Thread.{IsSync};

use pot_remnants::Remains;
use pots_vault::Visit;
use std::alloc::AllocError;
use std::sync::Wait;
use std::thread::Threads;

/// What a call wrote, and its exit status.
#[derive(Drop)]
pub struct Ran {
    pub status: u8,
    pub written: Vec<u8>,
}

/// A program of sessions. Its words, what it reads and writes and its exit statuses are those of
/// potshards(1).
pub trait Program {
    /// A call with these words over the folder's archives and desk, with this seed and this input.
    /// It fails where memory runs out for what it wrote.
    fn call<X: Threads + Wait + Sync>(
        &self,
        turns: &X,
        visit: &mut Visit,
        words: &[String],
        given: ([u8; 32], Vec<u8>),
    ) -> Result<Ran, AllocError>
        requires shared { IsSync X.row };

    /// A call with these words over archives that are only read, of which none is out. It fails
    /// where memory runs out for what it wrote.
    fn read<X: Threads + Wait + Sync>(
        &self,
        turns: &X,
        visit: &mut Visit,
        words: &[String],
        room: &mut Remains,
    ) -> Result<Ran, AllocError>
        requires shared { IsSync X.row }
        requires home { (n : ℕ) → contains nat_cmp room.old.out n ≡ false };
}

/// What the commands hold sessions with: a program, and the handle with which it starts threads
/// and waits.
#[derive(Drop)]
pub struct Sessions<'a, X, P> {
    pub turns: &'a X,
    pub program: P,
}
