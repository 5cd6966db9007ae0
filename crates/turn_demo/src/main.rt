//! Four authors write numbered lines into one book, each in a thread of its own and each line in a
//! turn.
//!
//! Whatever the schedule, the book then has each author's lines, once and in their order. What is
//! printed tells that, and not how the turns fell.
#![tactic(auto)]

mod book;
#[cfg(test)]
mod tests;
mod writing;

use book::Book;
use std::io;
use writing::write_four;

const LINES: u32 = 2500;

/// The number that the next line of this author has, if its lines so far come in order.
fn lines_in_order(book: &Book, author: u8) -> Option<u32> {
    let mut next = 0;
    for line in &book.lines {
        if line.author == author {
            if line.number != next || next == u32::MAX {
                return None;
            }
            next += 1;
        }
    }
    Some(next)
}

fn main(rt: HostRuntime) -> io::Result<()> {
    let Some(book) = write_four(&rt, rt.alloc(), LINES) else {
        return println!(rt; "no memory");
    };
    println!(rt; "{} lines", book.lines.len())?;
    for author in 0..4 {
        match lines_in_order(&book, author) {
            Some(lines) => println!(rt; "author {author}: {lines} lines in order")?,
            None => println!(rt; "author {author}: lines out of order")?,
        }
    }
    Ok(())
}
