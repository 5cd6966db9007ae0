//! The fields of a reply's line: the words behind its first.

ghost use Rattle.std.specs.Prelude.{◌≡◌, ◌≤◌, [], ◌∷◌, length, decimal, codes};
ghost use Rattle.hex.specs.Hex.{encode_lower};
ghost use Rattle.pot_bytes.specs.Names.{IsName};
ghost use Rattle.pot_client.specs.ReplyWords.{IsByte, IsReplyNumber, IsOnly};

use pot_bytes::{Digest, Name};
use pot_script::Words;

/// The one word that is left, a name.
pub fn read_name(mut words: Words) -> Option<Name>
    ensures { IsOnly (λ name. IsName name × (words.entry ≡ name ∷ [])) result }
{
    let name = words.next_name()?;
    words.end()?;
    Some(name)
}

/// The two words that are left, a name and a number.
pub fn read_sized(mut words: Words) -> Option<(Name, u32)>
    ensures { IsOnly (λ x. IsName x.0 × IsReplyNumber x.1 × (words.entry ≡ x.0 ∷ decimal x.1 ∷ []))
        result }
{
    let name = words.next_name()?;
    let number = words.next_number(u32::MAX)?;
    words.end()?;
    Some((name, number))
}

/// The three words that are left, a name and two numbers.
pub fn read_split(mut words: Words) -> Option<(Name, u32, u32)>
    ensures { IsOnly (λ x. IsName x.0 × IsReplyNumber x.1 × IsReplyNumber x.2
        × (words.entry ≡ x.0 ∷ decimal x.1 ∷ decimal x.2 ∷ [])) result }
{
    let name = words.next_name()?;
    let pieces = words.next_number(u32::MAX)?;
    let shards = words.next_number(u32::MAX)?;
    words.end()?;
    Some((name, pieces, shards))
}

/// The one word that is left, a number of at most `most`.
pub fn read_one(mut words: Words, most: u32) -> Option<u32>
    ensures { IsOnly (λ n. (n ≤ most) × (words.entry ≡ decimal n ∷ [])) result }
{
    let number = words.next_number(most)?;
    words.end()?;
    Some(number)
}

/// The two words that are left, numbers of one byte.
pub fn read_two(mut words: Words) -> Option<(u8, u8)>
    ensures { IsOnly (λ x. IsByte x.0 × IsByte x.1 × (words.entry ≡ decimal x.0 ∷ decimal x.1 ∷ []))
        result }
{
    let first = words.next_number(255)? as u8;
    let second = words.next_number(255)? as u8;
    words.end()?;
    Some((first, second))
}

/// The three words that are left, numbers of which the first is at most `most`.
pub fn read_three(mut words: Words, most: u32) -> Option<(u32, u32, u32)>
    ensures { IsOnly (λ x. (x.0 ≤ most) × IsReplyNumber x.1 × IsReplyNumber x.2
        × (words.entry ≡ decimal x.0 ∷ decimal x.1 ∷ decimal x.2 ∷ [])) result }
{
    let first = words.next_number(most)?;
    let second = words.next_number(u32::MAX)?;
    let third = words.next_number(u32::MAX)?;
    words.end()?;
    Some((first, second, third))
}
