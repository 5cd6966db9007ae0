//! What a call wrote, item by item.
use crate::fault::Fault;
use crate::told::Told;
use crate::words::mark_of;
use std::alloc::Global;
use std::str;

/// The most bytes of an item that is told as text.
const MOST_TEXT: usize = 200;

/// An item of what was written, whether LF stood behind it, and what is behind.
#[derive(Clone, Copy)]
struct Item<'a> {
    bytes: &'a [u8],
    ended: bool,
    rest: &'a [u8],
}

/// The bytes up to the first LF.
fn line_in(bytes: &[u8]) -> Item<'_> {
    let count = bytes
        .iter()
        .position(|b| *b == b'\n')
        .unwrap_or(bytes.len());
    file_in(bytes, count)
}

/// So many bytes, or as many as there are, and a LF behind them.
fn file_in(bytes: &[u8], count: usize) -> Item<'_> {
    let (bytes, behind) = bytes.split_at(count.min(bytes.len()));
    match behind.split_first() {
        Some((b'\n', rest)) => Item {
            bytes,
            ended: true,
            rest,
        },
        _ => Item {
            bytes,
            ended: false,
            rest: behind,
        },
    }
}

/// The text of an item, if it is one.
fn text_of(bytes: &[u8]) -> Option<&str> {
    if bytes.len() <= MOST_TEXT && bytes.iter().all(|b| matches!(*b, 32..=126)) {
        str::from_utf8(bytes).ok()
    } else {
        None
    }
}

/// How many bytes of a file stand behind this line, if it says that.
fn file_behind(bytes: &[u8]) -> Option<usize> {
    let (_, rest) = text_of(bytes)?.strip_prefix("file ")?.split_once(' ')?;
    if rest.len() <= 9 && rest.bytes().all(|b| b.is_ascii_digit()) {
        rest.parse().ok()
    } else {
        None
    }
}

/// Tells an item.
fn tell_item(alloc: Global, item: &Item, told: &mut Told) -> Result<(), Fault> {
    let end = if item.ended { "" } else { "-" };
    match text_of(item.bytes) {
        Some("") => told.outcome(&format!(in alloc; ">{end}")?),
        Some(text) => told.outcome(&format!(in alloc; ">{end} {text}")?),
        None => {
            let count = item.bytes.len();
            let mark = mark_of(alloc, item.bytes)?;
            told.outcome(&format!(in alloc; "#{end} {count} {mark}")?)
        }
    }
}

/// Tells what was written. There are fewer items than bytes, but for a file at the end of which
/// nothing is left.
pub fn tell_written(alloc: Global, written: &[u8], told: &mut Told) -> Result<(), Fault> {
    let mut rest = written;
    let mut file = None;
    for _ in 0..=written.len() {
        if rest.is_empty() && file.is_none() {
            break;
        }
        let item = match file {
            Some(count) => file_in(rest, count),
            None => line_in(rest),
        };
        tell_item(alloc, &item, told)?;
        file = if file.is_none() && item.ended {
            file_behind(item.bytes)
        } else {
            None
        };
        rest = item.rest;
    }
    Ok(())
}
