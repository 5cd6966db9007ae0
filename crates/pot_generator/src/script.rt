//! The script of a number.

ghost use Rattle.std.specs.Prelude.{◌≡◌, ◌≤◌, IfOk};
ghost use Rattle.pot_script.specs.Scripts.{IsScript, script_text};
ghost use Rattle.pot_generator.specs.Generated.{generated};
ghost use Rattle.pot_generator.specs.Runs.{rack_of_runs};

use crate::commands::steps_of;
use pot_bytes::NoMemory;
use pot_client::write_script;
use std::alloc::Global;

/// The script of a number. A session over the generator's rack reads it as the commands of the
/// definition.
pub fn generate_script(alloc: Global, number: u32) -> Result<Vec<u8>, NoMemory>
    requires { (1 ≤ number) × (number ≤ 1000000) }
    ensures text { IfOk result (λ bytes. bytes.items ≡ script_text (generated number)) }
    ensures reads { IfOk result (λ bytes. IsScript rack_of_runs bytes.items (generated number)) }
{
    let steps = steps_of(alloc, number)?;
    write_script(alloc, &steps)
}
