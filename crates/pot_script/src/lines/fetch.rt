ghost use Rattle.pot_bytes.specs.declared.rack.Rack.{Rack};
ghost use Rattle.pot_script.specs.Lines.{ReadsLine};
ghost use Rattle.pot_script.specs.declared.kind.Kind.TheVariants as kinds;

use crate::command::Command;
use crate::words::Words;

/// `fetch NAME`.
pub fn read_fetch(mut words: Words) -> Option<Command>
    ensures { (rack : Rack) → ReadsLine rack kinds.Fetch words.entry result }
{
    let name = words.next_name()?;
    words.end()?;
    Some(Command::Fetch { name })
}
