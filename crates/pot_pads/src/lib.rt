//! The random bytes of a job, by a ChaCha20 key stream.
//!
//! It is the stream alone: it takes no seed from the system, and erases nothing after its use. Who
//! calls it sees to it that no seed, session and job are taken twice.
//!
//! 1. Each byte of a stream is given once and in order, whatever the cuts between the calls:
//!    `PadStream`'s invariant, and `fill`.
//! 2. No call takes memory or refuses.
#![tactic(auto)]

#[cfg(test)]
mod tests;

ghost use Rattle.std.specs.Prelude.{◌≡◌, ◌↔◌, ◌<◌, ◌%◌, [], ◌∷◌, length, IsTrue};
ghost use Rattle.pot_pads.specs.Pads.{pads_of, next_bytes, moved, GivesThatMany, GivesBytes};
ghost use Rattle.pot_pads.specs.Pads.{CutsAnywhere, StepsAddUp, GoesOnFrom};

use rand_chacha::ChaCha20Rng;
use rand_core::SeedableRng;
use rand_core::utils::{NextWord, fill_bytes_via_u32};
use std::marker::Model;

/// The laws of a stream, for those who cut it.
pub fn stream_laws()
    ensures many { GivesThatMany }
    ensures bytes { GivesBytes }
    ensures cuts { CutsAnywhere }
    ensures steps { StepsAddUp }
    ensures goes_on { GoesOnFrom }
{}

/// The bytes of one stream, from where the last `fill` ended.
///
/// A contract sees it as the stream's key and number and the place of the next byte.
#[derive(Drop)]
pub struct PadStream {
    generator: ChaCha20Rng,
    // The bytes of the generator's last word, of which the last `left` were not given yet.
    word: [u8; 4],
    left: usize,
}

impl Model for PadStream {
    ghost use Rattle.std.specs.Prelude.{◌<◌, ◌^◌};
    ghost use Rattle.pot_pads.specs.Pads.{Pads};
    ghost use Rattle.pot_pads.specs.Inside.{place_of, HoldsRest};

    ghost Value = { Pads };

    ghost view = { λ a. record {
      key = a.generator.key;
      number = a.generator.stream;
      place = place_of a.generator.word_pos a.left;
    } };

    ghost invariant = { λ a. HoldsRest a.generator.key a.generator.stream a.generator.word_pos a.word a.left };
}

impl PadStream {
    /// The stream that a seed, a session and a job name, at its first byte.
    pub fn new(seed: &[u8; 32], session: u32, job: u32) -> PadStream
        ensures { result ≡ pads_of seed.now session job }
    {
        let mut generator = ChaCha20Rng::from_seed(*seed);
        generator.set_stream((u64::from(session) << 32) | u64::from(job));
        PadStream {
            generator,
            word: [0; 4],
            left: 0,
        }
    }

    /// Writes the next bytes of the stream, as many as `out` has room for.
    pub fn fill(&mut self, out: &mut [u8])
        ensures bytes { out.new ≡ next_bytes self.old (length out.old) }
        ensures place { self.new ≡ moved self.old (length out.old) }
    {
        let (head, rest) = out.split_at_mut(self.left.min(out.len()));
        self.fill_bytewise(head);
        let whole = if self.is_between_words() {
            rest.len() / 4 * 4
        } else {
            0
        };
        let (words, tail) = rest.split_at_mut(whole);
        self.fill_words(words);
        self.fill_bytewise(tail);
    }

    // Writes whole words.
    fn fill_words(&mut self, out: &mut [u8])
        requires whole { length out.old % 4 ≡ 0 }
        requires between { 0 < length out.old → self.old.place % 4 ≡ 0 }
        ensures bytes { out.new ≡ next_bytes self.old (length out.old) }
        ensures place { self.new ≡ moved self.old (length out.old) }
    {
        fill_bytes_via_u32(&mut self.generator, out);
    }

    // Writes byte by byte.
    fn fill_bytewise(&mut self, out: &mut [u8])
        ensures bytes { out.new ≡ next_bytes self.old (length out.old) }
        ensures place { self.new ≡ moved self.old (length out.old) }
    {
        // A proof reads in a field that the place is below 2 ^ 70.
        let _ = &self.left;
        let mut at = 0;
        'bytes: while at < out.len() {
            out[at] = self.next_byte();
            at += 1;
        }
    }

    // Whether the next byte is the first of a word.
    fn is_between_words(&self) -> bool
        ensures { IsTrue result ↔ (self.now.place % 4 ≡ 0) }
    {
        self.left == 0
    }

    // The next byte of the stream.
    fn next_byte(&mut self) -> u8
        ensures byte { result ∷ [] ≡ next_bytes self.old 1 }
        ensures place { self.new ≡ moved self.old 1 }
    {
        if self.left == 0 {
            self.word = self.generator.next_word().to_le_bytes();
            self.left = 4;
        }
        let byte = self.word[4 - self.left];
        self.left -= 1;
        byte
    }
}
