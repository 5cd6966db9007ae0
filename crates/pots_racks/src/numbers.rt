//! The numbers of racks, and the names of their folders.
ghost use Rattle.std.specs.Prelude.{◌≡◌, ◌≤◌, MatchOption};
ghost use Rattle.pots_racks.specs.Racks.{HasDigits, TellsRack, digit, folder};

/// The most racks of a vault, and the greatest number of one. The first has the number 1.
pub const MOST_RACKS: u32 = 999;

/// The name of the folder of a rack: `rack-` and three digits.
pub fn folder_of(number: u32) -> [u8; 8]
    ensures { result ≡ folder number }
{
    [
        b'r',
        b'a',
        b'c',
        b'k',
        b'-',
        digit(number / 100),
        digit(number / 10),
        digit(number),
    ]
}

// The last digit of a number.
pub(crate) fn digit(number: u32) -> u8
    ensures { result ≡ digit number }
{
    b'0' + (number % 10) as u8
}

/// The number of the rack of which these are the three digits. None exactly where they are those of
/// no rack.
pub fn read_rack(text: &[u8]) -> Option<u32>
    ensures { TellsRack text.now result }
{
    let [a, b, c] = text else {
        return None;
    };
    let number = read_digits(*a, *b, *c)?;
    if number < 1 {
        return None;
    }
    Some(number)
}

// The number that three digits write.
fn read_digits(a: u8, b: u8, c: u8) -> Option<u32>
    ensures { HasDigits a b c result }
{
    if a.is_ascii_digit() && b.is_ascii_digit() && c.is_ascii_digit() {
        let front = u32::from(a - b'0') * 100 + u32::from(b - b'0') * 10;
        Some(front + u32::from(c - b'0'))
    } else {
        None
    }
}
