//! The lines of one word.

ghost use Rattle.pot_bytes.specs.declared.rack.Rack.{Rack};
ghost use Rattle.pot_script.specs.Lines.{ReadsLine};
ghost use Rattle.pot_script.specs.declared.kind.Kind.TheVariants as kinds;

use crate::command::Command;
use crate::words::Words;

/// `list`.
pub fn read_list(words: Words) -> Option<Command>
    ensures { (rack : Rack) → ReadsLine rack kinds.List words.entry result }
{
    words.end()?;
    Some(Command::List)
}

/// `status`.
pub fn read_status(words: Words) -> Option<Command>
    ensures { (rack : Rack) → ReadsLine rack kinds.Status words.entry result }
{
    words.end()?;
    Some(Command::Status)
}

/// `end`.
pub fn read_end(words: Words) -> Option<Command>
    ensures { (rack : Rack) → ReadsLine rack kinds.End words.entry result }
{
    words.end()?;
    Some(Command::End)
}

/// `quit`.
pub fn read_quit(words: Words) -> Option<Command>
    ensures { (rack : Rack) → ReadsLine rack kinds.Quit words.entry result }
{
    words.end()?;
    Some(Command::Quit)
}
