//! Text in lines that fit a sheet of paper.

use std::alloc::AllocError;

/// The most columns of a line.
const WIDTH: usize = 72;

/// Adds a paragraph, in lines of at most 72 columns. From the second on they begin with the indent,
/// which is shorter than that. A word that is longer is cut.
pub fn append_paragraph(out: &mut String, text: &str, indent: &str) -> Result<(), AllocError> {
    let mut column = 0;
    for word in text.split(' ') {
        column = append_word(out, word, indent, column)?;
    }
    out.push_str("\n")
}

// Adds a word behind what the line has, or on a new line. Answers how many columns its line has.
fn append_word(
    out: &mut String,
    word: &str,
    indent: &str,
    column: usize,
) -> Result<usize, AllocError> {
    let count = word.chars().count();
    let mut at = column;
    if at > 0 && at.saturating_add(count) >= WIDTH {
        at = begin_line(out, indent)?;
    } else if at > 0 {
        out.push_str(" ")?;
        at = at.saturating_add(1);
    }
    for letter in word.chars() {
        if at >= WIDTH {
            at = begin_line(out, indent)?;
        }
        out.push(printed(letter))?;
        at = at.saturating_add(1);
    }
    Ok(at)
}

fn begin_line(out: &mut String, indent: &str) -> Result<usize, AllocError> {
    out.push_str("\n")?;
    out.push_str(indent)?;
    Ok(indent.len())
}

// A letter, and a question mark in the place of one that a printer takes for a command.
fn printed(letter: char) -> char {
    if letter.is_control() { '?' } else { letter }
}
