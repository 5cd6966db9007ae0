//! Reads the steps of a session.

ghost use Rattle.std.specs.Prelude.{◌≡◌, [], IsTrue, IfOk, OnOk, IfErr, IsErrOf};
ghost use Rattle.pot_outside.specs.Accounts.{Faults, transition};
ghost use Rattle.pot_session.specs.Commands.{IsScriptRead, RefusesScript};

use crate::ending::stop::Stop;
use crate::intake::{IntakeFault, read_out};
use pot_bytes::{NoMemory, Rack};
use pot_outside::Source;
use pot_script::{LONGEST_SCRIPT, ScriptFault, Step, group_steps, read_script};
use std::alloc::Global;

/// Reads the source to its end, and the steps before `quit`.
///
/// # Errors
/// `SourceFault` only where the source's count of faults rose. `BadLine` has the number of the
/// first line that leaves the grammar.
pub(crate) fn read_steps<S: Source>(
    alloc: Global,
    rack: &Rack,
    source: &mut S,
) -> Result<Vec<Step>, Stop>
    ensures script { IfOk result
        (λ steps. IsScriptRead rack.now (transition S.account source.old source.new) steps.items) }
    ensures read { IsTrue S.account.tells
        → OnOk result ((S.account.meaning source.new).held ≡ []) }
    ensures bad { IfErr result (RefusesScript rack.now (transition S.account source.old source.new)) }
    ensures cause { Faults S.account source.old source.new
        (IsErrOf result Stop.SourceFault) }
{
    let bytes = match read_out(alloc, source, LONGEST_SCRIPT) {
        Ok(bytes) => bytes,
        Err(IntakeFault::Failed) => return Err(Stop::SourceFault),
        Err(IntakeFault::NoMemory) => return Err(Stop::NoMemory),
    };
    let mut commands = match read_script(alloc, &bytes, rack) {
        Ok(commands) => commands,
        Err(ScriptFault::BadLine { number }) => return Err(Stop::BadLine { number }),
        Err(ScriptFault::NoMemory) => return Err(Stop::NoMemory),
    };
    let _quit = commands.pop();
    match group_steps(alloc, commands) {
        Ok(steps) => Ok(steps),
        Err(NoMemory) => Err(Stop::NoMemory),
    }
}
