//! The files that a recovery found, read from what it wrote.

use pot_script::{Words, cut_after, cut_at};
use std::alloc::{AllocError, Global};
use std::str::from_utf8;

/// A file without its name.
#[derive(Drop)]
pub struct Found {
    /// The 32 hexadecimal digits that stand for it.
    pub id: String,
    /// Its bytes. None where a piece is missing.
    pub bytes: Option<Vec<u8>>,
}

/// The files that a recovery wrote. None where these bytes are those of none.
pub fn read_found(alloc: Global, bytes: &[u8]) -> Result<Option<Vec<Found>>, AllocError> {
    let mut left = bytes;
    let mut files = Vec::new(alloc);
    // Each line has at least one byte.
    for _ in 0..bytes.len() {
        if left.is_empty() {
            break;
        }
        match next_line(alloc, left)? {
            Some((file, rest)) => {
                left = rest;
                if let Some(file) = file {
                    files.push(file)?;
                }
            }
            None => return Ok(None),
        }
    }
    Ok(Some(files))
}

// What the next line tells, and the bytes behind it and behind a file that follows it.
fn next_line<'a>(
    alloc: Global,
    bytes: &'a [u8],
) -> Result<Option<(Option<Found>, &'a [u8])>, AllocError> {
    let Some((line, rest)) = cut_at(bytes, b'\n') else {
        return Ok(None);
    };
    let mut words = Words::of(line);
    match words.next() {
        Some(b"objects") | Some(b"object") => Ok(Some((None, rest))),
        Some(b"file") => next_file(alloc, words, rest),
        Some(b"partial") => next_partial(alloc, words, rest),
        _ => Ok(None),
    }
}

fn next_file<'a>(
    alloc: Global,
    mut words: Words,
    rest: &'a [u8],
) -> Result<Option<(Option<Found>, &'a [u8])>, AllocError> {
    let Some(id) = words.next() else {
        return Ok(None);
    };
    let Some(length) = words.next_number(u32::MAX) else {
        return Ok(None);
    };
    let Some((bytes, rest)) = cut_after(rest, length as usize) else {
        return Ok(None);
    };
    let bytes = Some(Vec::from_slice(alloc, bytes)?);
    let id = id_text(alloc, id)?;
    Ok(Some((Some(Found { id, bytes }), rest)))
}

fn next_partial<'a>(
    alloc: Global,
    mut words: Words,
    rest: &'a [u8],
) -> Result<Option<(Option<Found>, &'a [u8])>, AllocError> {
    let Some(id) = words.next() else {
        return Ok(None);
    };
    let id = id_text(alloc, id)?;
    Ok(Some((Some(Found { id, bytes: None }), rest)))
}

// The digits of a file's id as text.
fn id_text(alloc: Global, id: &[u8]) -> Result<String, AllocError> {
    String::from_str(alloc, from_utf8(id).unwrap_or(""))
}
