//! The values of options: numbers and seeds.

ghost use Rattle.std.specs.Prelude.{◌≡◌, ◌≢◌, codes, if◌then◌else◌, IfSome, IsNone};
ghost use Rattle.pot_options.specs.Options.{given};
ghost use Rattle.pot_words.specs.Answers.{IsOnly};
ghost use Rattle.pot_words.specs.Values.{HasNumber, HasNumberOr, HasSeed, HasYes};

use crate::numbers::read_number;
use pot_options::Options;

/// The number that the option has, from `least` to `most`.
pub fn number_of(options: &Options<'_>, name: &str, least: u32, most: u32) -> Option<u32>
    ensures { IsOnly (HasNumber (given options.now) name.now least most) result }
{
    let text = options.value(name)?;
    let number = read_number(text, most)?;
    if number < least {
        return None;
    }
    Some(number)
}

/// The same for a number that one byte holds.
pub fn small_number_of(options: &Options<'_>, name: &str, least: u8, most: u8) -> Option<u8>
    ensures { IsOnly (HasNumber (given options.now) name.now least most) result }
{
    let number = number_of(options, name, u32::from(least), u32::from(most))?;
    Some(number as u8)
}

/// The same for an option that may be left out, and then stands for `other`.
pub fn small_number_or(
    options: &Options<'_>,
    name: &str,
    least: u8,
    most: u8,
    other: u8,
) -> Option<u8>
    ensures { IsOnly (HasNumberOr (given options.now) name.now least most other) result }
{
    if options.value(name).is_none() {
        return Some(other);
    }
    small_number_of(options, name, least, most)
}

/// The seed that the option has, `Some(None)` where it is left out. `None` where its value is no
/// seed.
pub fn seed_of(options: &Options<'_>, name: &str) -> Option<Option<[u8; 32]>>
    ensures { IsOnly (HasSeed (given options.now) name.now) result }
{
    let text = match options.value(name) {
        Some(text) => text,
        None => return Some(None),
    };
    let mut seed = [0; 32];
    match hex::decode_to_slice(text.as_bytes(), seed.as_mut_slice()) {
        Ok(()) => Some(Some(seed)),
        Err(_) => None,
    }
}

/// Whether the option is `yes`. It may be `no`, or left out.
pub fn yes_of(options: &Options<'_>, name: &str) -> Option<bool>
    ensures { IsOnly (HasYes (given options.now) name.now) result }
{
    match options.value(name) {
        None => Some(false),
        Some(text) => yes_or_no(text),
    }
}

/// Whether a text is `yes`, where it is that or `no`.
fn yes_or_no(text: &str) -> Option<bool>
    ensures yes { IfSome result (λ yes. text.now ≡ (if yes then codes "yes" else codes "no")) }
    ensures none { IsNone result → (text.now ≢ codes "yes") × (text.now ≢ codes "no") }
{
    if text == "yes" {
        return Some(true);
    }
    if text == "no" { Some(false) } else { None }
}
