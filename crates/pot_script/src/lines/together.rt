ghost use Rattle.pot_bytes.specs.declared.rack.Rack.{Rack};
ghost use Rattle.pot_script.specs.Lines.{ReadsLine};
ghost use Rattle.pot_script.specs.declared.kind.Kind.TheVariants as kinds;

use crate::command::Command;
use crate::words::Words;

/// The most jobs of a batch.
const MOST_JOBS: u32 = 1024;

/// `together N`, where N is 1 to 1,024.
pub fn read_together(mut words: Words) -> Option<Command>
    ensures { (rack : Rack) → ReadsLine rack kinds.Together words.entry result }
{
    let count = words.next_number(MOST_JOBS)?;
    words.end()?;
    if count == 0 {
        return None;
    }
    Some(Command::Together { count })
}
