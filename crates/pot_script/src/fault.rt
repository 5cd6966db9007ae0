ghost use Rattle.std.specs.Prelude.{◌≡◌};
ghost use Rattle.pot_script.specs.declared.fault.ScriptFault.TheVariants.{NoMemory};

use std::alloc::{AllocError, AllocFailed};

/// Why a script was not read.
#[derive(Clone, Copy, Debug, PartialEq, Eq)]
pub enum ScriptFault {
    /// The script leaves its grammar at this line, or at line 0 is longer than a script may be.
    BadLine { number: u32 },
    NoMemory,
}

impl From<AllocError> for ScriptFault {
    ghost from_gives = { λ _ e. e ≡ NoMemory };

    fn from(_: AllocError) -> Self {
        ScriptFault::NoMemory
    }
}

impl<T: Drop> From<AllocFailed<T>> for ScriptFault {
    ghost from_gives = { λ _ e. e ≡ NoMemory };

    fn from(_: AllocFailed<T>) -> Self {
        ScriptFault::NoMemory
    }
}
