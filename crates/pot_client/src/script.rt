//! The script of commands, as a session reads it.

ghost use Rattle.std.specs.Prelude.{◌≡◌, ◌≤◌, ◌++◌, ◌∷◌, [], None, length, flat_map, codes};
ghost use Rattle.std.specs.Prelude.{decimal, OnOk, IfOk};
ghost use Rattle.pot_bytes.specs.declared.rack.Rack.{Rack};
ghost use Rattle.pot_script.specs.declared.command.Command.TheVariants.{Quit, Renew, Store};
ghost use Rattle.pot_script.specs.Commands.{command_text, most_bytes};
ghost use Rattle.pot_script.specs.Scripts.{AreSteps, IsScript, after_commands, script_text};
ghost use Rattle.pot_client.specs.ScriptWords.{spaced_word, word_text};

use itoa::Buffer;
use pot_bytes::{Geometry, Name, NoMemory};
use pot_script::Command;
use std::alloc::{AllocError, Global};

/// A word of a line.
#[derive(Clone, Copy)]
pub enum Word<'a> {
    Text(&'a [u8]),
    /// The number in decimal.
    Number(u64),
}

/// The script of these commands, with `quit` behind them. Where each of them may stand where it
/// does and the script is not too long, a session reads it as just these commands.
pub fn write_script(alloc: Global, commands: &[Command]) -> Result<Vec<u8>, NoMemory>
    ensures text { IfOk result (λ script. script.items ≡ script_text (commands.now ++ Quit ∷ [])) }
    ensures reads { IfOk result (λ script. (rack : Rack) → AreSteps rack None commands.now
        → after_commands None commands.now ≡ None → length script.items ≤ most_bytes
        → IsScript rack script.items (commands.now ++ Quit ∷ [])) }
{
    let mut script = Vec::new(alloc);
    for command in commands {
        append_command(&mut script, command)?;
    }
    append_command(&mut script, &Command::Quit)?;
    Ok(script)
}

// Appends the text of a command.
fn append_command(out: &mut Vec<u8>, command: &Command) -> Result<(), AllocError>
    ensures { OnOk result (out.new.items ≡ out.old.items ++ command_text command.now) }
{
    match command {
        Command::Store { name, file } => append_file(out, name, file.as_slice()),
        Command::Fetch { name } => append_line(out, b"fetch", &[Word::Text(name.bytes())]),
        Command::List => append_line(out, b"list", &[]),
        Command::Status => append_line(out, b"status", &[]),
        Command::Scrub { group } => append_line(out, b"scrub", &[Word::Number(u64::from(*group))]),
        Command::Repair { group } => {
            append_line(out, b"repair", &[Word::Number(u64::from(*group))])
        }
        Command::Replace { from, to } => append_archives(out, b"replace", *from, *to),
        Command::Migrate { from, to } => append_archives(out, b"migrate", *from, *to),
        Command::Together { count } => {
            append_line(out, b"together", &[Word::Number(u64::from(*count))])
        }
        Command::End => append_line(out, b"end", &[]),
        Command::Renew { name, geometry } => append_renewal(out, name, geometry),
        Command::Quit => append_line(out, b"quit", &[]),
    }
}

// A `store` line, and the file behind it.
fn append_file(out: &mut Vec<u8>, name: &Name, file: &[u8]) -> Result<(), AllocError>
    ensures { OnOk result
        (out.new.items ≡ out.old.items ++ command_text (Store name.now file.now)) }
{
    let words = [Word::Text(name.bytes()), Word::Number(file.len() as u64)];
    append_line(out, b"store", &words)?;
    out.extend_from_slice(file)?;
    out.push(b'\n')?;
    Ok(())
}

// A line that names two archives.
fn append_archives(out: &mut Vec<u8>, first: &[u8], from: u32, to: u32) -> Result<(), AllocError>
    ensures { OnOk result (out.new.items ≡ out.old.items ++ first.now ++ 32 ∷ decimal from ++ 32 ∷ decimal to ++ codes "\n") }
{
    let words = [Word::Number(u64::from(from)), Word::Number(u64::from(to))];
    append_line(out, first, &words)
}

// A `renew` line.
fn append_renewal(out: &mut Vec<u8>, name: &Name, geometry: &Geometry) -> Result<(), AllocError>
    ensures { OnOk result
        (out.new.items ≡ out.old.items ++ command_text (Renew name.now geometry.now)) }
{
    let words = [
        Word::Text(name.bytes()),
        Word::Number(u64::from(geometry.fragments)),
        Word::Number(u64::from(geometry.need)),
        Word::Number(u64::from(geometry.shards)),
        Word::Number(u64::from(geometry.blur)),
    ];
    append_line(out, b"renew", &words)
}

// A line: its first word, and the others with a space before each.
fn append_line(out: &mut Vec<u8>, first: &[u8], others: &[Word]) -> Result<(), AllocError>
    ensures { OnOk result (out.new.items ≡ out.old.items ++ first.now ++ flat_map spaced_word others.now ++ codes "\n") }
{
    out.extend_from_slice(first)?;
    append_words(out, others)?;
    out.push(b'\n')?;
    Ok(())
}

// Words with a space before each.
fn append_words(out: &mut Vec<u8>, words: &[Word]) -> Result<(), AllocError>
    ensures { OnOk result (out.new.items ≡ out.old.items ++ flat_map spaced_word words.now) }
{
    for word in words {
        out.push(b' ')?;
        append_word(out, word)?;
    }
    Ok(())
}

// A word.
fn append_word(out: &mut Vec<u8>, word: &Word) -> Result<(), AllocError>
    ensures { OnOk result (out.new.items ≡ out.old.items ++ word_text word.now) }
{
    match word {
        Word::Text(bytes) => out.extend_from_slice(bytes),
        Word::Number(number) => {
            let mut digits = Buffer::new();
            out.extend_from_slice(digits.format(*number).as_bytes())
        }
    }
}
