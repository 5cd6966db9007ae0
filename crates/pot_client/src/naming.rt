//! The names of parts, each that of its file with `.p` and four digits behind it.

ghost use Rattle.std.specs.Prelude.{◌≡◌, ◌≤◌, ◌+◌, ◌++◌, ◌↔◌, length, take, IsSome, IsTrue};
ghost use Rattle.std.specs.Prelude.{MatchOption};
ghost use Rattle.pot_client.specs.Parts.{EndsAsPart, NamesPart, TellsNumber, TellsPart, TellsTwo};
ghost use Rattle.pot_client.specs.Parts.{digit, four_digits, suffix};

use pot_bytes::Name;

/// The greatest number of a part.
pub const LAST_PART: u32 = 9_999;

/// How many bytes the name of a part has behind that of its file.
const SUFFIX: usize = 6;

/// The name of the part of this number of a file of this name. None exactly where that is too long,
/// or the number is.
pub fn part_name(name: &Name, number: u32) -> Option<Name>
    ensures named { NamesPart name.now number result }
    ensures found { IsSome result ↔ ((number ≤ 9999) × (length name.now ≤ 58)) }
{
    if number > LAST_PART {
        return None;
    }
    let bytes = name.bytes();
    let count = bytes.len();
    let mut kept = [0u8; 70];
    put_suffixed(&mut kept, bytes, &suffix_of(number));
    Name::read(&kept[..count + SUFFIX])
}

// Puts a name and its suffix at the front.
fn put_suffixed(kept: &mut [u8], name: &[u8], suffix: &[u8])
    requires { length name.now + length suffix.now ≤ length kept.old }
    ensures front { take (length name.now + length suffix.now) kept.new ≡ name.now ++ suffix.now }
    ensures long { length kept.new ≡ length kept.old }
{
    let (front, behind) = kept.split_at_mut(name.len());
    front.copy_from_slice(name);
    let (next, _) = behind.split_at_mut(suffix.len());
    next.copy_from_slice(suffix);
}

// What the name of a part has behind that of its file.
fn suffix_of(number: u32) -> [u8; SUFFIX]
    ensures { result ≡ suffix number }
{
    [
        b'.',
        b'p',
        digit(number / 1000),
        digit(number / 100),
        digit(number / 10),
        digit(number),
    ]
}

// The last digit of a number.
fn digit(number: u32) -> u8
    ensures { result ≡ digit number }
{
    b'0' + (number % 10) as u8
}

/// The name of the file and the number of the part of which this is the name. None exactly where it
/// is the name of no part of a file.
pub fn read_part_name(name: &Name) -> Option<(Name, u32)>
    ensures { TellsPart name.now result }
{
    let (file, number) = cut_suffix(name.bytes())?;
    Some((Name::read(file)?, number))
}

/// Whether a name ends as that of a part does.
pub fn ends_as_part(name: &Name) -> bool
    ensures { IsTrue result ↔ EndsAsPart name.now }
{
    cut_suffix(name.bytes()).is_some()
}

// What stands before the suffix of a part, and the number of the part.
fn cut_suffix(bytes: &[u8]) -> Option<(&[u8], u32)>
    ensures { MatchOption result (EndsAsPart bytes.now → ⊥)
        (λ x. (x.1 ≤ 9999) × (bytes.now ≡ x.0.now ++ suffix x.1)) }
{
    let start = bytes.len().checked_sub(SUFFIX)?;
    let (front, back) = bytes.split_at(start);
    Some((front, read_suffix(back)?))
}

// The number of the part with this suffix.
fn read_suffix(bytes: &[u8]) -> Option<u32>
    ensures { TellsNumber suffix bytes.now result }
{
    match bytes {
        [b'.', b'p', digits @ ..] => read_digits(digits),
        _ => None,
    }
}

// The number that four digits write.
fn read_digits(digits: &[u8]) -> Option<u32>
    ensures { TellsNumber four_digits digits.now result }
{
    let [a, b, c, d] = digits else {
        return None;
    };
    let front = two_digits(*a, *b)?;
    let back = two_digits(*c, *d)?;
    Some(front * 100 + back)
}

// The number that two digits write.
fn two_digits(high: u8, low: u8) -> Option<u32>
    ensures { TellsTwo high low result }
{
    if high.is_ascii_digit() && low.is_ascii_digit() {
        Some(u32::from(high - b'0') * 10 + u32::from(low - b'0'))
    } else {
        None
    }
}
