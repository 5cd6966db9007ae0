//! The commands of a script, grouped into what is worked as one.

ghost use Rattle.std.specs.Prelude.{◌≡◌, ◌≤◌, ◌++◌, ◌∷◌, None, IfOk, length};
ghost use Rattle.std.specs.List.{AllByRecursion, flat_map};
ghost use Rattle.std.specs.Vec.Iter.{into_iter_items};
ghost use Rattle.pot_bytes.specs.declared.rack.Rack.{Rack};
ghost use Rattle.pot_script.specs.Scripts.{AreSteps, after_commands};
ghost use Rattle.pot_script.specs.Steps.{IsWholeStep, spread};

use crate::command::Command;
use pot_bytes::{NoMemory, Sequence};
use std::alloc::Global;
use std::vec::IntoIter;

/// The jobs of a batch, in order. Contracts see the list of them.
pub type Lines = Sequence<Command>;

/// What a session works as one: a command alone, or the jobs of a batch.
#[derive(Drop)]
pub enum Step {
    One(Command),
    Together(Lines),
}

/// The steps of commands that stand before `quit`. The commands move, and no file is copied.
///
/// # Errors
/// Want of memory alone.
pub fn group_steps(alloc: Global, commands: Vec<Command>) -> Result<Vec<Step>, NoMemory>
    requires whole { (rack : Rack) × AreSteps rack None commands.items
        × (after_commands None commands.items ≡ None) }
    ensures spelled { IfOk result (λ steps. flat_map spread steps.items ≡ commands.items) }
    ensures whole { (rack : Rack) → AreSteps rack None commands.items
        → IfOk result (λ steps. AllByRecursion (IsWholeStep rack) steps.items) }
{
    let mut steps = Vec::new(alloc);
    let mut commands = commands.into_iter();
    while let Some(command) = commands.next() {
        let step = next_step(alloc, command, &mut commands)?;
        if steps.push(step).is_err() {
            return Err(NoMemory);
        }
    }
    Ok(steps)
}

// The step that begins with this command, where these stand behind it: its jobs and its `end` are
// taken off them.
fn next_step(
    alloc: Global,
    command: Command,
    behind: &mut IntoIter<Command, Global>,
) -> Result<Step, NoMemory>
    requires whole { (rack : Rack) × AreSteps rack None (command ∷ into_iter_items behind.old)
        × (after_commands None (command ∷ into_iter_items behind.old) ≡ None) }
    ensures spelled { IfOk result (λ step. command ∷ into_iter_items behind.old
        ≡ spread step ++ into_iter_items behind.new) }
    ensures closed { IfOk result (λ step. after_commands None (into_iter_items behind.new) ≡ None) }
    ensures whole { (rack : Rack) → AreSteps rack None (command ∷ into_iter_items behind.old)
        → IfOk result (λ step. IsWholeStep rack step
        × AreSteps rack None (into_iter_items behind.new)) }
{
    match command {
        Command::Together { count } => {
            let lines = take_lines(alloc, behind, count)?;
            let _end = behind.next();
            Ok(Step::Together(Lines::from_vec(lines)))
        }
        alone => Ok(Step::One(alone)),
    }
}

// Takes so many commands off the front.
fn take_lines(
    alloc: Global,
    commands: &mut IntoIter<Command, Global>,
    count: u32,
) -> Result<Vec<Command>, NoMemory>
    requires { count ≤ length (into_iter_items commands.old) }
    ensures taken { IfOk result (λ lines. into_iter_items commands.old
        ≡ lines.items ++ into_iter_items commands.new) }
    ensures count { IfOk result (λ lines. length lines.items ≡ count) }
{
    let mut lines = Vec::with_capacity(alloc, count as usize)?;
    for _taken in 0..count {
        let Some(line) = commands.next() else {
            unreachable!()
        };
        lines.push_reserved(line);
    }
    Ok(lines)
}
