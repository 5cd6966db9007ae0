//! Lists as they are read.

ghost use Rattle.std.specs.Prelude.{◌≡◌, ◌<◌, ◌++◌, length, IfOk};
ghost use Rattle.pot_tree.specs.Entries.{IsEntry, IsList, entry_text};

use crate::entry::Entry;
use crate::guessing::guess_entry;
use crate::safety::is_safe;
use crate::texts::append_entry;
use std::alloc::{AllocError, AllocFailed, Global};

/// Why bytes are not read as a list.
#[derive(Clone, Copy, Debug, PartialEq, Eq)]
pub enum ListFault {
    /// Memory ran out.
    NoMemory,
    /// The first line is not `#mtree`.
    NoHead,
    /// The line of this number, from 1, is not of the format.
    OddLine(u64),
    /// The path of this line leads out of the folder, or is none.
    OddPath(u64),
}

impl<T: Drop> From<AllocFailed<T>> for ListFault {
    fn from(_: AllocFailed<T>) -> ListFault {
        ListFault::NoMemory
    }
}

impl From<AllocError> for ListFault {
    fn from(_: AllocError) -> ListFault {
        ListFault::NoMemory
    }
}

/// The entries of a list.
///
/// # Errors
/// Want of memory, or the first line that is not of the format.
pub fn read_list(alloc: Global, text: &[u8]) -> Result<Vec<Entry>, ListFault>
    ensures { IfOk result (λ entries. IsList text.now entries.items) }
{
    let Some(mut left) = text.strip_prefix(b"#mtree\n") else {
        return Err(ListFault::NoHead);
    };
    let mut entries = Vec::new(alloc);
    let mut number = 1u64;
    while !left.is_empty() {
        number = number.saturating_add(1);
        let (line, others) = first_line(left);
        entries.push(read_entry(alloc, line, number)?)?;
        left = others;
    }
    Ok(entries)
}

// The first line with its end, and what stands behind it.
fn first_line(text: &[u8]) -> (&[u8], &[u8])
    requires { 0 < length text.now }
    ensures whole { text.now ≡ result.0.now ++ result.1.now }
    ensures shorter { length result.1.now < length text.now }
{
    match text.iter().position(|b| *b == b'\n') {
        Some(at) => text.split_at(at + 1),
        None => text.split_at(text.len()),
    }
}

// The entry of the line of this number.
fn read_entry(alloc: Global, line: &[u8], number: u64) -> Result<Entry, ListFault>
    ensures { IfOk result (λ e. (line.now ≡ entry_text e) × IsEntry e) }
{
    let Some(entry) = guess_entry(alloc, line)? else {
        return Err(ListFault::OddLine(number));
    };
    if !is_safe(alloc, entry.path.as_slice())? {
        return Err(ListFault::OddPath(number));
    }
    let mut text = Vec::new(alloc);
    append_entry(&mut text, &entry)?;
    if entry.mode > 0o7777 || text.as_slice() != line {
        return Err(ListFault::OddLine(number));
    }
    Ok(entry)
}
