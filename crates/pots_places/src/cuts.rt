//! The first line of a text.
ghost use Rattle.std.specs.Prelude.{◌≢◌, All, MatchOption};
ghost use Rattle.pots_places.specs.Places.{CutsLine};

/// What stands before the first LF, and behind it. None exactly where there is none.
pub(crate) fn first_line(text: &[u8]) -> Option<(&[u8], &[u8])>
    ensures { MatchOption result (All (λ b. b ≢ 10) text.now)
        (λ parts. CutsLine text.now parts.0.now parts.1.now) }
{
    let at = text.iter().position(|b| *b == b'\n')?;
    Some((&text[..at], &text[at + 1..]))
}
