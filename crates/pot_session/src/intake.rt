//! Reads a source to its end.

ghost use Rattle.std.specs.Prelude.{◌≡◌, ◌<◌, ◌^◌, ◌≤◌, ◌+◌, ◌++◌, [], List, ℕ, length, IsTrue};
ghost use Rattle.std.specs.Prelude.{IfOk, IsErrOf};
ghost use Rattle.pot_outside.specs.Accounts.{Faults, transition};
ghost use Rattle.pot_session.specs.Streams.{IsReadOut, ReadsAtMost};

use pot_outside::{Failed, Source};
use std::alloc::{AllocError, Global};

/// Why a source was not read.
#[derive(Clone, Copy, PartialEq, Eq, Debug)]
pub(crate) enum IntakeFault {
    Failed,
    NoMemory,
}

impl From<Failed> for IntakeFault {
    ghost use Rattle.std.specs.Prelude.{◌≡◌};
    ghost use Rattle.pot_session.specs.declared.intake.IntakeFault.TheVariants.{Failed};

    ghost from_gives = { λ _ e. e ≡ Failed };

    fn from(_: Failed) -> Self {
        IntakeFault::Failed
    }
}

impl From<AllocError> for IntakeFault {
    ghost use Rattle.std.specs.Prelude.{◌≡◌};
    ghost use Rattle.pot_session.specs.declared.intake.IntakeFault.TheVariants.{NoMemory};

    ghost from_gives = { λ _ e. e ≡ NoMemory };

    fn from(_: AllocError) -> Self {
        IntakeFault::NoMemory
    }
}

/// The bytes of the source up to its end, or its first bytes, one more than `limit`. No more of it
/// is read.
pub(crate) fn read_out<S: Source>(
    alloc: Global,
    source: &mut S,
    limit: usize,
) -> Result<Vec<u8>, IntakeFault>
    requires { limit < 2 ^ 32 }
    ensures told { IsTrue S.account.tells
        → IfOk result
        (λ bytes. IsReadOut (transition S.account source.old source.new) bytes.items limit) }
    ensures least_left { IsTrue S.account.tells
        → ReadsAtMost (limit + 1) (transition S.account source.old source.new) }
    ensures most { IfOk result (λ bytes. length bytes.items ≤ limit + 1) }
    ensures cause { Faults S.account source.old source.new
        (IsErrOf result IntakeFault.Failed) }
{
    let mut bytes = Vec::new(alloc);
    let mut buffer = [0u8; 4096];
    while bytes.len() <= limit {
        let most = buffer.len().min(limit + 1 - bytes.len());
        let count = source.read(&mut buffer[..most])?;
        if count == 0 {
            return Ok(bytes);
        }
        bytes.extend_from_slice(&buffer[..count])?;
    }
    Ok(bytes)
}
