//! Reads a script from left to right.

ghost use Rattle.std.specs.Prelude.{◌≤◌, ℕ, List, length, IfOk, IfErr};
ghost use Rattle.pot_script.specs.declared.command.Command.{Command};
ghost use Rattle.pot_script.specs.Scripts.{IsScript, LeavesAtLine};
ghost use Rattle.pot_script.specs.Faults.{IfBadLine, ReadsAs, RefusesAt};

use crate::batch::after_command;
use crate::command::Command;
use crate::fault::ScriptFault;
use crate::spelled::{find_command, owned_command};
use pot_bytes::Rack;
use std::alloc::Global;

/// The most bytes of a script.
pub const LONGEST_SCRIPT: usize = 67_108_864;

/// The commands of a script over this rack, in the order of their lines. `BadLine` has the number
/// of the first line that leaves the grammar, or 0 where the script is too long.
pub fn read_script(alloc: Global, bytes: &[u8], rack: &Rack) -> Result<Vec<Command>, ScriptFault>
    ensures ok { IfOk result (λ commands. IsScript rack.now bytes.now commands.items) }
    ensures bad { IfErr result (IfBadLine (LeavesAtLine rack.now bytes.now)) }

    // Unless memory runs out each script is read, and what leaves the grammar is refused there.
    ensures each_script { (script : List Command) → IsScript rack.now bytes.now script
        → ReadsAs result script }
    ensures each_fault { (line : ℕ) → LeavesAtLine rack.now bytes.now line → RefusesAt result line }
{
    if bytes.len() > LONGEST_SCRIPT {
        return Err(ScriptFault::BadLine { number: 0 });
    }
    read_lines(alloc, bytes, rack)
}

// The commands of a script that is not too long.
fn read_lines(alloc: Global, bytes: &[u8], rack: &Rack) -> Result<Vec<Command>, ScriptFault>
    requires { length bytes.now ≤ 67108864 }
    ensures ok { IfOk result (λ commands. IsScript rack.now bytes.now commands.items) }
    ensures bad { IfErr result (IfBadLine (LeavesAtLine rack.now bytes.now)) }
{
    let mut commands = Vec::new(alloc);
    let mut rest = bytes;
    let mut number = 1;
    let mut batch = None;
    while let Some((spelled, after)) = find_command(rest, batch, rack) {
        let command = owned_command(alloc, spelled)?;
        if matches!(command, Command::Quit) {
            if !after.is_empty() {
                return Err(ScriptFault::BadLine { number: number + 1 });
            }
            commands.push(command)?;
            return Ok(commands);
        }
        batch = after_command(batch, &command);
        commands.push(command)?;
        rest = after;
        number += 1;
    }
    Err(ScriptFault::BadLine { number })
}
