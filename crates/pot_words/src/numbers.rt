//! Numbers as decimal digits without a sign and without a leading zero, but for `0` itself.

ghost use Rattle.std.specs.Prelude.{◌≡◌, ◌≢◌, ◌≤◌, ℕ, MatchOption, decimal};

use itoa::Buffer;

/// The number that the text spells, where it is at most `most`. `None` exactly where no such number
/// is printed as this text.
pub fn read_number(text: &str, most: u32) -> Option<u32>
    ensures { MatchOption result ((n : ℕ) → n ≤ most → text.now ≢ decimal n)
        (λ n. (n ≤ most) × (text.now ≡ decimal n)) }
{
    let number: u32 = text.parse().ok()?;
    if number > most {
        return None;
    }
    if Buffer::new().format(number) != text {
        return None;
    }
    Some(number)
}
