//! Two files of one length, as the source of a drill has them: their length in decimal digits, and
//! then each of them, with LF after the length and after each.

ghost use Rattle.std.specs.Prelude.{MatchOption};
ghost use Rattle.pot_session.specs.Drills.{ArePair, IsNoPair};

use pot_object::LONGEST;
use pot_script::{cut_after, cut_at, read_number};

/// The two files that the bytes are. None exactly where they are of no two files.
pub(crate) fn read_pair(bytes: &[u8]) -> Option<(&[u8], &[u8])>
    ensures { MatchOption result (IsNoPair bytes.now)
        (λ pair. ArePair bytes.now pair.0.now pair.1.now) }
{
    let (digits, files) = cut_at(bytes, b'\n')?;
    let length = read_number(digits, LONGEST as u32)? as usize;
    let (file, rest) = cut_after(files, length)?;
    let (other, end) = cut_after(rest, length)?;
    if end.is_empty() {
        Some((file, other))
    } else {
        None
    }
}
