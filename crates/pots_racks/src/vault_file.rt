//! The file that says that a folder is a vault of racks, and how many there are.
ghost use Rattle.std.specs.Prelude.{◌≡◌, ◌++◌, ◌≤◌, IfOk, OnOk};
ghost use Rattle.pots_racks.specs.Racks.{HasLength, TellsCount, line, vault_text};

use crate::numbers::digit;
use std::alloc::{AllocError, Global};

/// The name of the file. It has capital letters, so no stored file has this name.
pub const VAULT_FILE: &str = "RACKS";

/// What the text of a file of any version begins with.
const WORD: &[u8] = b"potshards-racks ";

/// The text of a vault of so many racks: a line for each.
pub fn vault_text(alloc: Global, count: u32) -> Result<Vec<u8>, AllocError>
    ensures { IfOk result (λ v. v.items ≡ vault_text count) }
{
    let mut text = Vec::from_slice(alloc, b"potshards-racks 1\n")?;
    for before in 0..count {
        text.extend_from_slice(&line_of(before + 1))?;
    }
    text.extend_from_slice(b"end\n")?;
    Ok(text)
}

// The line of a rack: its folder, and the end of the line.
fn line_of(number: u32) -> [u8; 9]
    ensures { result ≡ line number }
{
    [
        b'r',
        b'a',
        b'c',
        b'k',
        b'-',
        digit(number / 100),
        digit(number / 10),
        digit(number),
        b'\n',
    ]
}

/// How many racks the vault has of which this is the text. None exactly where it is the text of no
/// vault: it is damaged, or of another version.
pub fn read_vault(alloc: Global, text: &[u8]) -> Result<Option<u32>, AllocError>
    ensures { IfOk result (λ count. TellsCount text.now count) }
{
    let count = match count_of(text.len()) {
        Some(count) => count,
        None => return Ok(None),
    };
    let wanted = vault_text(alloc, count)?;
    if wanted.as_slice() == text {
        Ok(Some(count))
    } else {
        Ok(None)
    }
}

// How many racks a vault has whose text has so many bytes: each has a line of nine.
fn count_of(length: usize) -> Option<u32>
    ensures { HasLength length result }
{
    let lines = length.checked_sub(22)?;
    let count = lines / 9;
    if lines % 9 != 0 || count < 1 || count > 999 {
        return None;
    }
    Some(count as u32)
}

/// Whether a text is that of a vault, but of a version that is not this one.
pub fn is_of_other_version(text: &[u8]) -> bool {
    match text.strip_prefix(WORD) {
        Some(rest) => !rest.starts_with(b"1\n"),
        None => false,
    }
}
