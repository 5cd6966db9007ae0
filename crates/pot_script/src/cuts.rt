//! The parts of bytes round a separator.

ghost use Rattle.std.specs.Prelude.{◌≡◌, ◌≢◌, ◌++◌, ◌∷◌, ℕ, List, All, length, MatchOption};
ghost use Rattle.pot_script.specs.Lines.{Cuts};

/// What stands before and after the first `byte`. None exactly where it does not stand there.
pub fn cut_at(bytes: &[u8], byte: u8) -> Option<(&[u8], &[u8])>
    ensures { MatchOption result (All (λ b. b ≢ byte) bytes.now)
        (λ parts. Cuts bytes.now byte parts.0.now parts.1.now) }
{
    let at = bytes.iter().position(|b| *b == byte)?;
    Some((&bytes[..at], &bytes[at + 1..]))
}

/// The first `count` bytes, and what stands after the LF that follows them.
pub fn cut_after(bytes: &[u8], count: usize) -> Option<(&[u8], &[u8])>
    ensures { MatchOption result
        ((front back : List ℕ) → length front ≡ count → bytes.now ≢ front ++ 10 ∷ back)
        (λ parts. (length parts.0.now ≡ count) × (bytes.now ≡ parts.0.now ++ 10 ∷ parts.1.now)) }
{
    if bytes.len() <= count {
        return None;
    }
    let (front, rest) = bytes.split_at(count);
    match rest {
        [b'\n', after @ ..] => Some((front, after)),
        _ => None,
    }
}
