//! The lines that name a group.

ghost use Rattle.std.specs.Prelude.{◌≡◌, ◌≢◌, ℕ, [], ◌∷◌, MatchOption, decimal};
ghost use Rattle.pot_script.specs.Commands.{IsGroupNumber};
ghost use Rattle.pot_script.specs.Lines.{ReadsLine};
ghost use Rattle.pot_script.specs.declared.kind.Kind.TheVariants as kinds;

use crate::command::Command;
use crate::words::Words;
use pot_bytes::Rack;

/// `scrub G`.
pub fn read_scrub(words: Words, rack: &Rack) -> Option<Command>
    ensures { ReadsLine rack.now kinds.Scrub words.entry result }
{
    let group = read_group(words, rack)?;
    Some(Command::Scrub { group })
}

/// `repair G`.
pub fn read_repair(words: Words, rack: &Rack) -> Option<Command>
    ensures { ReadsLine rack.now kinds.Repair words.entry result }
{
    let group = read_group(words, rack)?;
    Some(Command::Repair { group })
}

// The one word that is left, the number of one of the rack's groups.
fn read_group(mut words: Words, rack: &Rack) -> Option<u8>
    ensures { MatchOption result
        ((group : ℕ) → IsGroupNumber rack.now group → words.entry ≢ decimal group ∷ [])
        (λ group. IsGroupNumber rack.now group × (words.entry ≡ decimal group ∷ [])) }
{
    let group = words.next_number(255)? as u8;
    words.end()?;
    if group >= rack.groups {
        return None;
    }
    Some(group)
}
