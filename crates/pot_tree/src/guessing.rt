//! What entry a line may be of. Nothing is promised: whoever asks writes the entry and compares.

use crate::entry::{Content, Entry};
use hex::FromHex;
use pot_bytes::{Bytes, Digest, Name};
use std::alloc::{AllocError, Global};
use std::str::{Split, from_utf8};

/// The entry that a line may be of. None where it is of none.
pub fn guess_entry(alloc: Global, line: &[u8]) -> Result<Option<Entry>, AllocError> {
    let Some(text) = text_of(line) else {
        return Ok(None);
    };
    let mut words = text.split(' ');
    let Some((path, kind, mode, time)) = head_of(&mut words) else {
        return Ok(None);
    };
    let content = match kind {
        "type=dir" => Some(Content::Folder),
        "type=link" => link_of(alloc, words.next())?,
        _ => file_of(words.next(), words.next(), words.next()),
    };
    let path = unspelled(alloc, path.as_bytes())?;
    Ok(content.map(|content| Entry {
        path,
        mode,
        time,
        content,
    }))
}

// The text of a line without its end.
fn text_of(line: &[u8]) -> Option<&str> {
    from_utf8(line).ok()?.strip_suffix("\n")
}

// The words that every line has.
fn head_of<'a>(words: &mut Split<'a, char>) -> Option<(&'a str, &'a str, u32, u64)> {
    let path = words.next()?.strip_prefix("./")?;
    let kind = words.next()?;
    let mode = words.next()?.strip_prefix("mode=")?;
    let mode = u32::from_str_radix(mode, 8).ok()?;
    let time = words.next()?.strip_prefix("time=")?.strip_suffix(".0")?;
    let time = time.parse::<u64>().ok()?;
    Some((path, kind, mode, time))
}

fn link_of(alloc: Global, word: Option<&str>) -> Result<Option<Content>, AllocError> {
    match word.and_then(|word| word.strip_prefix("link=")) {
        Some(target) => {
            let target = unspelled(alloc, target.as_bytes())?;
            Ok(Some(Content::Link { target }))
        }
        None => Ok(None),
    }
}

fn file_of(size: Option<&str>, digest: Option<&str>, place: Option<&str>) -> Option<Content> {
    let size = size?.strip_prefix("size=")?.parse::<u64>().ok()?;
    let digest = digest?.strip_prefix("sha256digest=")?.as_bytes();
    let bytes = <[u8; 32] as FromHex>::from_hex(digest).ok()?;
    let (pack, _) = place?.strip_prefix("contents=")?.split_once('/')?;
    let pack = Name::read(pack.as_bytes())?;
    Some(Content::File {
        size,
        digest: Digest { bytes },
        pack,
    })
}

// The bytes that are written so.
fn unspelled(alloc: Global, mut text: &[u8]) -> Result<Bytes, AllocError> {
    let mut bytes = Vec::new(alloc);
    while let [first, others @ ..] = text {
        match text {
            [b'\\', a, b, c, behind @ ..] => {
                bytes.push(byte_of(*a, *b, *c))?;
                text = behind;
            }
            _ => {
                bytes.push(*first)?;
                text = others;
            }
        }
    }
    Ok(Bytes::from_vec(bytes))
}

// The byte of three octal digits.
fn byte_of(a: u8, b: u8, c: u8) -> u8 {
    ((a & 3) << 6) | ((b & 7) << 3) | (c & 7)
}
