//! The commands of a script.

ghost use Rattle.std.specs.Prelude.{◌≡◌, ◌≤◌, ◌++◌, OnOk, IfOk};
ghost use Rattle.pot_generator.specs.Generated.{fetches, steps_of, stores};

use crate::files::{FILES, file_of, name_of};
use pot_script::Command;
use std::alloc::{AllocError, Global};

/// The archive that is replaced, and the one that stands in for it.
const REPLACED: u32 = 0;

const REPLACEMENT: u32 = 16;

/// Appends a store of each file.
fn append_stores(alloc: Global, commands: &mut Vec<Command>, number: u32) -> Result<(), AllocError>
    requires { number ≤ 1000000 }
    ensures { OnOk result (commands.new.items ≡ commands.old.items ++ stores number) }
{
    for place in 0..FILES {
        let name = name_of(place);
        let file = file_of(alloc, number, place)?;
        commands.push(Command::Store { name, file })?;
    }
    Ok(())
}

/// Appends a fetch of each file.
fn append_fetches(commands: &mut Vec<Command>) -> Result<(), AllocError>
    ensures { OnOk result (commands.new.items ≡ commands.old.items ++ fetches) }
{
    for place in 0..FILES {
        commands.push(Command::Fetch {
            name: name_of(place),
        })?;
    }
    Ok(())
}

/// The commands of the script, but for `quit` at its end.
pub fn steps_of(alloc: Global, number: u32) -> Result<Vec<Command>, AllocError>
    requires { number ≤ 1000000 }
    ensures { IfOk result (λ steps. steps.items ≡ steps_of number) }
{
    let mut commands = Vec::new(alloc);
    append_stores(alloc, &mut commands, number)?;
    commands.push(Command::Replace {
        from: REPLACED,
        to: REPLACEMENT,
    })?;
    commands.push(Command::Together { count: FILES })?;
    append_fetches(&mut commands)?;
    commands.push(Command::End)?;
    commands.push(Command::Repair { group: 0 })?;
    append_fetches(&mut commands)?;
    commands.push(Command::List)?;
    commands.push(Command::Status)?;
    Ok(commands)
}
