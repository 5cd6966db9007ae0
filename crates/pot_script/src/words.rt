//! The words of a line, from left to right.

ghost use Rattle.std.specs.Prelude.{◌≡◌, ◌≢◌, ◌≤◌, ◌↔◌, ℕ, List, [], ◌∷◌, IsSome, IsTrue};
ghost use Rattle.std.specs.Prelude.{MatchOption, decimal};
ghost use Rattle.pot_bytes.specs.Names.{IsName};
ghost use Rattle.pot_script.specs.Words.{words_in};

use crate::cuts::cut_at;
use crate::decimal_number::read_number;
use pot_bytes::Name;
use std::marker::Model;

/// The words that are left of a line. One space stands between two words. Contracts see the list of
/// these words.
#[derive(Drop)]
pub struct Words<'a> {
    // None behind the last word.
    left: Option<&'a [u8]>,
}

impl<'a> Model for Words<'a> {
    ghost use Rattle.std.specs.Prelude.{ℕ, List};
    ghost use Rattle.pot_script.specs.Words.{words_left};

    ghost Value = { List (List ℕ) };

    ghost view = { λ w. words_left w.left };
}

impl<'a> Words<'a> {
    /// The words of a line without its LF.
    pub fn of(line: &'a [u8]) -> Words<'a>
        ensures { result ≡ words_in line.now }
    {
        Words { left: Some(line) }
    }

    /// The next word. None exactly behind the last one.
    pub fn next(&mut self) -> Option<&'a [u8]>
        ensures { MatchOption result (self.old ≡ []) (λ word. self.old ≡ word.now ∷ self.new) }
    {
        let left = self.left?;
        match cut_at(left, b' ') {
            Some((word, others)) => {
                self.left = Some(others);
                Some(word)
            }
            None => {
                self.left = None;
                Some(left)
            }
        }
    }

    /// The next word, where it is a name.
    pub fn next_name(&mut self) -> Option<Name>
        ensures { MatchOption result
            ((name : List ℕ) (others : List (List ℕ)) → IsName name → self.old ≢ name ∷ others)
            (λ name. IsName name × (self.old ≡ name ∷ self.new)) }
    {
        Name::read(self.next()?)
    }

    /// The next word, where it is a number of at most `most`.
    pub fn next_number(&mut self, most: u32) -> Option<u32>
        ensures { MatchOption result
            ((n : ℕ) (others : List (List ℕ)) → n ≤ most → self.old ≢ decimal n ∷ others)
            (λ n. (n ≤ most) × (self.old ≡ decimal n ∷ self.new)) }
    {
        read_number(self.next()?, most)
    }

    /// Some exactly where no word is left.
    pub fn end(&self) -> Option<()>
        ensures { IsSome result ↔ (self.now ≡ []) }
    {
        match self.left {
            Some(_) => None,
            None => Some(()),
        }
    }
}
