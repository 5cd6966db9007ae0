//! The word of `generate`.

ghost use Rattle.std.specs.Prelude.{map, ◌∷◌, []};
ghost use Rattle.std.specs.String.{string_bytes};
ghost use Rattle.pot_words.specs.Answers.{IsOnly};
ghost use Rattle.pot_words.specs.Tasks.{SpellGenerate};

use crate::numbers::read_number;

/// The number that the words after `generate` spell.
pub fn read_generate(words: &[String]) -> Option<u32>
    ensures { IsOnly (SpellGenerate (map string_bytes words.now)) result }
{
    match words {
        [word] => number_of_word(word.as_str()),
        _ => None,
    }
}

// The number that one word spells.
fn number_of_word(word: &str) -> Option<u32>
    ensures { IsOnly (SpellGenerate (word.now ∷ [])) result }
{
    let number = read_number(word, 1_000_000)?;
    if number == 0 {
        return None;
    }
    Some(number)
}
