ghost use Rattle.std.specs.Prelude.{◌≡◌, ◌≢◌, ◌≤◌, ℕ, List, [], ◌∷◌, MatchOption, decimal};
ghost use Rattle.pot_bytes.specs.Names.{IsName};
ghost use Rattle.pot_script.specs.Commands.{most_bytes};

use crate::words::Words;
use pot_bytes::Name;

/// The most bytes of a file.
const LONGEST_FILE: u32 = 67_108_864;

/// `store NAME LEN`: the name, and the number of the bytes that follow the line.
pub fn read_store(mut words: Words) -> Option<(Name, u32)>
    ensures { MatchOption result
        ((name : List ℕ) (length : ℕ) → IsName name → length ≤ most_bytes
        → words.entry ≢ name ∷ decimal length ∷ [])
        (λ x. IsName x.0 × (x.1 ≤ most_bytes) × (words.entry ≡ x.0 ∷ decimal x.1 ∷ [])) }
{
    let name = words.next_name()?;
    let length = words.next_number(LONGEST_FILE)?;
    words.end()?;
    Some((name, length))
}
