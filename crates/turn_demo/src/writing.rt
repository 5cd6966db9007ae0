//! Authors who write in turns.
ghost use Rattle.std.specs.Prelude.{◌≡◌, ◌+◌, ◌*◌, ◌<◌, ℕ, [], false, IfSome, IsTrue, filter};
ghost use Rattle.std.specs.Prelude.{length};
ghost use Rattle.pot_turn.specs.Passes.{view, turn_of, IsPassOf};
ghost use Rattle.pot_turn.specs.Views.{stretches_of};
ghost use Rattle.turn_demo.specs.Books.{line, lines_of, by, WroteLine, WroteLines};

use crate::book::{Book, Line};
use pot_turn::{Pass, Turn};
use std::alloc::Global;
use std::sync::Wait;
use std::thread::{Threads, join};

/// Writes a line in one turn, and says whether there was memory for it.
fn write_line<R: Wait>(rt: &R, turn: &Turn<Book>, pass: &mut Pass<Book>, line: Line) -> bool
    requires own { IsPassOf turn.now pass.old }
    requires idle { (view pass.old).holds ≡ false }
    ensures own { IsPassOf turn.now pass.new }
    ensures wrote { IsTrue result → WroteLine line (view pass.old) (view pass.new) }
{
    let mut book = turn.enter(rt, pass);
    let wrote = book.lines.push(line).is_ok();
    turn.leave(pass, book);
    wrote
}

/// One author writes its lines, each in a turn of its own.
fn write_lines<R: Wait>(
    rt: &R,
    turn: &Turn<Book>,
    mut pass: Pass<Book>,
    author: u8,
    count: u32,
) -> Option<Pass<Book>>
    requires own { IsPassOf turn.now pass }
    requires idle { (view pass).holds ≡ false }
    requires fresh { stretches_of (view pass) ≡ [] }
    ensures own { IfSome result (λ p. IsPassOf turn.now p) }
    ensures wrote { IfSome result (λ p. WroteLines author (author + 1) count (view pass) (view p)) }
{
    for number in 0..count {
        if !write_line(rt, turn, &mut pass, Line { author, number }) {
            return None;
        }
    }
    Some(pass)
}

/// Two authors write, each in a thread of its own.
fn write_two<R: Threads + Wait + Sync>(
    rt: &R,
    turn: &Turn<Book>,
    mut pass: Pass<Book>,
    first: u8,
    count: u32,
) -> Option<Pass<Book>>
    requires authors { first < 255 }
    requires own { IsPassOf turn.now pass }
    requires idle { (view pass).holds ≡ false }
    requires fresh { stretches_of (view pass) ≡ [] }
    requires parts { 1 < (view pass).parts }
    ensures own { IfSome result (λ p. IsPassOf turn.now p) }
    ensures wrote { IfSome result (λ p. WroteLines first (first + 2) count (view pass) (view p)) }
{
    let Ok(other) = turn.split(&mut pass, 1) else {
        unreachable!()
    };
    let (mine, theirs) = join(
        rt,
        || -> Option<Pass<Book>>
            requires { IsPassOf turn.now pass × ((view pass).holds ≡ false)
                × (stretches_of (view pass) ≡ []) }
            ensures { IfSome result
                (λ p. IsPassOf turn.entry.now p
                × WroteLines first (first + 1) count (view pass) (view p)) }
        { write_lines(rt, turn, pass, first, count) },
        || -> Option<Pass<Book>>
            requires { IsPassOf turn.now other × ((view other).holds ≡ false)
                × (stretches_of (view other) ≡ []) × (first < 255) }
            ensures { IfSome result
                (λ p. IsPassOf turn.entry.now p
                × WroteLines (first + 1) (first + 2) count (view other) (view p)) }
        { write_lines(rt, turn, other, first + 1, count) },
    );
    let mut mine = mine?;
    turn.join(&mut mine, theirs?);
    Some(mine)
}

/// Four authors write, each in a thread of its own. Where there is memory for all their lines, the
/// book has each author's, once and in their order, and no others.
pub fn write_four<R: Threads + Wait + Sync>(rt: &R, alloc: Global, count: u32) -> Option<Book>
    ensures lines { IfSome result (λ b. (author : ℕ) → author < 4
        → filter (by author) b.lines.items ≡ lines_of author count) }
    ensures all { IfSome result (λ b. length b.lines.items ≡ 4 * count) }
{
    let book = Book {
        edition: 1,
        lines: Vec::new(alloc),
    };
    let (turn, mut pass) = Turn::new(alloc, book).ok()?;
    let Ok(other) = turn.split(&mut pass, 2) else {
        unreachable!()
    };
    let (mine, theirs) = join(
        rt,
        || -> Option<Pass<Book>>
            requires { IsPassOf turn pass × ((view pass).holds ≡ false)
                × (stretches_of (view pass) ≡ []) × (1 < (view pass).parts) }
            ensures { IfSome result (λ p. IsPassOf turn p × WroteLines 0 2 count (view pass)
                (view p)) }
        { write_two(rt, &turn, pass, 0, count) },
        || -> Option<Pass<Book>>
            requires { IsPassOf turn other × ((view other).holds ≡ false)
                × (stretches_of (view other) ≡ []) × (1 < (view other).parts) }
            ensures { IfSome result (λ p. IsPassOf turn p × WroteLines 2 4 count (view other)
                (view p)) }
        { write_two(rt, &turn, other, 2, count) },
    );
    let mut mine = mine?;
    turn.join(&mut mine, theirs?);
    Some(turn.close(mine))
}
