//! The catalog of a vault: what lists tell of its racks, and how their desks stood then.
//!
//! It is a cache. What it says of a rack counts only as long as the rack's desk stands as it did.
ghost use Rattle.std.specs.Prelude.{◌≡◌, ◌++◌, ◌∷◌, OnOk, IfOk};
ghost use Rattle.hex.specs.Hex.{encode_lower};
ghost use Rattle.pots_racks.specs.Catalog.{catalog_text, file_line, flag, line_text, rack_line};
ghost use Rattle.pots_racks.specs.Catalog.{size, spaced, sum_line};

use hex::encode_to_slice;
use itoa::Buffer;
use pot_bytes::{Digest, Name, digest_of};
use std::alloc::{AllocError, Global};

/// The name of the file. It has capital letters, so no stored file has this name.
pub const CATALOG_FILE: &str = "CATALOG";

/// The first line: it says what the file is.
pub(crate) const HEAD: &[u8] =
    b"potshards-catalog 1: a cache of pots list, which may be deleted at any time\n";

/// How the desk of a rack stood.
#[derive(Clone, Copy, Debug, PartialEq, Eq)]
pub struct RackDesk {
    /// The number of the rack.
    pub rack: u32,
    /// The generation of the desk's image.
    pub generation: u64,
    /// The bytes of the image.
    pub length: u64,
    /// The digest with which the image ends.
    pub digest: Digest,
}

/// What is stored under a name and the names of its parts.
#[derive(Clone, Copy, PartialEq, Eq)]
pub struct Listed {
    pub name: Name,
    /// The length of the file of just this name, in bytes.
    pub direct: Option<u64>,
    /// How many parts there are, and their bytes.
    pub parts: u32,
    pub bytes: u64,
    /// Whether the list of parts is there.
    pub complete: bool,
}

/// A line of a catalog.
#[derive(Clone, Copy, PartialEq, Eq)]
pub enum Line {
    OfRack(RackDesk),
    /// Of a file of the rack in the last such line above.
    OfFile(Listed),
}

/// The text of a catalog of these lines.
pub fn catalog_text(alloc: Global, lines: &[Line]) -> Result<Vec<u8>, AllocError>
    ensures { IfOk result (λ v. v.items ≡ catalog_text lines.now) }
{
    let mut text = Vec::from_slice(alloc, HEAD)?;
    for line in lines {
        append_line(&mut text, line)?;
    }
    let digest = digest_of(&text);
    append_sum(&mut text, &digest)?;
    Ok(text)
}

// Appends a line.
fn append_line(text: &mut Vec<u8>, line: &Line) -> Result<(), AllocError>
    ensures { OnOk result (text.new.items ≡ text.old.items ++ line_text line.now) }
{
    match line {
        Line::OfRack(desk) => append_rack(text, desk),
        Line::OfFile(listed) => append_file(text, listed),
    }
}

// Appends the line of a rack.
fn append_rack(text: &mut Vec<u8>, desk: &RackDesk) -> Result<(), AllocError>
    ensures { OnOk result (text.new.items ≡ text.old.items ++ rack_line desk.now) }
{
    text.extend_from_slice(b"rack")?;
    append_number(text, u64::from(desk.rack))?;
    append_number(text, desk.generation)?;
    append_number(text, desk.length)?;
    text.push(b' ')?;
    append_digest(text, &desk.digest)?;
    text.push(b'\n')?;
    Ok(())
}

// Appends the line of a file.
fn append_file(text: &mut Vec<u8>, listed: &Listed) -> Result<(), AllocError>
    ensures { OnOk result (text.new.items ≡ text.old.items ++ file_line listed.now) }
{
    text.extend_from_slice(b"file ")?;
    text.extend_from_slice(listed.name.bytes())?;
    append_size(text, listed.direct)?;
    append_number(text, u64::from(listed.parts))?;
    append_number(text, listed.bytes)?;
    text.push(b' ')?;
    text.push(flag(listed.complete))?;
    text.push(b'\n')?;
    Ok(())
}

// Appends a space and the length of the file of just a name, or a dash.
fn append_size(text: &mut Vec<u8>, direct: Option<u64>) -> Result<(), AllocError>
    ensures { OnOk result (text.new.items ≡ text.old.items ++ 32 ∷ size direct) }
{
    match direct {
        Some(length) => append_number(text, length),
        None => text.extend_from_slice(b" -"),
    }
}

// Whether the list of parts is there, as a digit.
fn flag(complete: bool) -> u8
    ensures { result ≡ flag complete }
{
    if complete { b'1' } else { b'0' }
}

// Appends the last line.
fn append_sum(text: &mut Vec<u8>, digest: &Digest) -> Result<(), AllocError>
    ensures { OnOk result (text.new.items ≡ text.old.items ++ sum_line digest.now.bytes) }
{
    text.extend_from_slice(b"sum ")?;
    append_digest(text, digest)?;
    text.push(b'\n')?;
    Ok(())
}

// Appends a space and a number.
fn append_number(text: &mut Vec<u8>, number: u64) -> Result<(), AllocError>
    ensures { OnOk result (text.new.items ≡ text.old.items ++ spaced number) }
{
    let mut digits = Buffer::new();
    text.push(b' ')?;
    text.extend_from_slice(digits.format(number).as_bytes())
}

// Appends the hexadecimal digits of a digest.
fn append_digest(text: &mut Vec<u8>, digest: &Digest) -> Result<(), AllocError>
    ensures { OnOk result (text.new.items ≡ text.old.items ++ encode_lower digest.now.bytes) }
{
    let mut digits = [0u8; 64];
    encode_to_slice(digest.bytes, &mut digits).unwrap();
    text.extend_from_slice(&digits)
}
