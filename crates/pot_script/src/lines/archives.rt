//! The lines that name two archives.

ghost use Rattle.std.specs.Prelude.{◌≡◌, ◌≢◌, ◌≤◌, ℕ, [], ◌∷◌, MatchOption, decimal};
ghost use Rattle.pot_bytes.specs.declared.rack.Rack.{Rack};
ghost use Rattle.pot_script.specs.Lines.{ReadsLine};
ghost use Rattle.pot_script.specs.declared.kind.Kind.TheVariants as kinds;

use crate::command::Command;
use crate::words::Words;

/// The greatest number of an archive.
const LAST_ARCHIVE: u32 = 511;

/// `replace A B`.
pub fn read_replace(words: Words) -> Option<Command>
    ensures { (rack : Rack) → ReadsLine rack kinds.Replace words.entry result }
{
    let (from, to) = read_archives(words)?;
    Some(Command::Replace { from, to })
}

/// `migrate A B`.
pub fn read_migrate(words: Words) -> Option<Command>
    ensures { (rack : Rack) → ReadsLine rack kinds.Migrate words.entry result }
{
    let (from, to) = read_archives(words)?;
    Some(Command::Migrate { from, to })
}

// The two words that are left, numbers of archives.
fn read_archives(mut words: Words) -> Option<(u32, u32)>
    ensures { MatchOption result
        ((from to : ℕ) → from ≤ 511 → to ≤ 511 → words.entry ≢ decimal from ∷ decimal to ∷ [])
        (λ x. (x.0 ≤ 511) × (x.1 ≤ 511) × (words.entry ≡ decimal x.0 ∷ decimal x.1 ∷ [])) }
{
    let from = words.next_number(LAST_ARCHIVE)?;
    let to = words.next_number(LAST_ARCHIVE)?;
    words.end()?;
    Some((from, to))
}
