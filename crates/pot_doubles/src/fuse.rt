ghost use Rattle.std.specs.Prelude.{◌≡◌, false, is_some, IsTrue};
ghost use Rattle.pot_outside.specs.Counts.{Caused};
ghost use Rattle.pot_doubles.specs.Calls.{BeginsFused};

use crate::calls::Calls;
use std::alloc::{AllocError, Global};
use std::sync::Arc;
use std::sync::atomic::{AtomicU64, Ordering};

/// How many calls of several doubles together may still pass. Once none is left, each call fails.
#[derive(Drop)]
pub struct Fuse {
    left: Arc<AtomicU64, Global>,
}

impl Fuse {
    /// A fuse that lets this many calls pass.
    pub fn new(alloc: Global, calls: u64) -> Result<Fuse, AllocError> {
        let left = Arc::new(alloc, AtomicU64::new(calls))?;
        Ok(Fuse { left })
    }

    /// The same fuse, for one double more.
    pub fn share(&self) -> Result<Fuse, AllocError> {
        let left = Arc::try_clone(&self.left)?;
        Ok(Fuse { left })
    }

    /// Takes one off the calls that are left, and says whether there was none.
    fn is_spent(&self) -> bool {
        let one_less = |left: u64| left.checked_sub(1);
        let taken = self
            .left
            .fetch_update(Ordering::SeqCst, Ordering::SeqCst, one_less);
        taken.is_err()
    }
}

/// Begins a call of a double, and says whether it is to fail: it is listed, or the fuse lets none
/// pass. It then counts a fault.
pub fn begin_fused(calls: &mut Calls, fuse: &Option<Fuse>) -> bool
    ensures begins { BeginsFused (is_some fuse.now) calls.old calls.new result }
    ensures cause { Caused calls.old.faults calls.new.faults (IsTrue result) }
{
    let spent = fuse.as_ref().is_some_and(Fuse::is_spent);
    if calls.begin() {
        return true;
    }
    if spent {
        calls.fail();
    }
    spent
}
