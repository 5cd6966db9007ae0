//! A book that is written in turns.
ghost use Rattle.std.specs.Prelude.{◌≡◌};

use pot_turn::Kept;

/// A line, with the author who wrote it and its number among that author's lines.
#[derive(Clone, Copy)]
pub struct Line {
    pub author: u8,
    pub number: u32,
}

/// The lines in the order in which they were written.
#[derive(Drop)]
pub struct Book {
    pub edition: u32,
    pub lines: Vec<Line>,
}

impl Kept for Book {
    type Entry = Line;

    type Origin = u32;

    ghost log = { λ b. b.lines.items };

    ghost origin = { λ b. b.edition };

    fn length(&self) -> u64 {
        self.lines.len() as u64
    }
}
