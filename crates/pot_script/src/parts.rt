//! Writes the parts of a line at the end of a text, all of them or none.

ghost use Rattle.std.specs.Prelude.{◌≡◌, ◌+◌, ◌<◌, ◌≤◌, ◌++◌, take, length, vec_capacity, flat_map};
ghost use Rattle.std.specs.Prelude.{OnOk, OnErr};
ghost use Rattle.hex.specs.Hex.{encode_lower};
ghost use Rattle.pot_script.specs.Parts.{Prints, part_text};
ghost use Rattle.pot_script.specs.Replies.{in_hex, spaced};

use hex::encode_to_slice;
use itoa::Buffer;
use pot_bytes::{Digest, NoMemory};
use std::alloc::AllocError;

/// A part of a line.
#[derive(Clone, Copy)]
pub enum Part<'a> {
    Text(&'a [u8]),
    /// A space and the number in decimal.
    Number(u64),
    /// A space and the digest in hexadecimal digits of lower case.
    Hex(Digest),
}

/// Appends the parts, or nothing.
pub fn append_parts(out: &mut Vec<u8>, parts: &[Part]) -> Result<(), NoMemory>
    ensures { Prints out.old out.new result (flat_map part_text parts.now) }
{
    let start = out.len();
    for part in parts {
        if append_part(out, part).is_err() {
            out.truncate(start);
            return Err(NoMemory);
        }
    }
    Ok(())
}

// Appends a part. On refusal `out` still begins as before.
fn append_part(out: &mut Vec<u8>, part: &Part) -> Result<(), AllocError>
    ensures ok { OnOk result (out.new.items ≡ out.old.items ++ part_text part.now) }
    ensures err { OnErr result (take (length out.old.items) out.new.items ≡ out.old.items) }
    ensures full { OnErr result (vec_capacity out.old
        < length out.old.items + length (part_text part.now)) }
    ensures capacity { vec_capacity out.old ≤ vec_capacity out.new }
{
    match part {
        Part::Text(bytes) => out.extend_from_slice(bytes),
        Part::Number(number) => append_number(out, *number),
        Part::Hex(digest) => append_digest(out, digest),
    }
}

/// Appends a space and the decimal digits of a number. On refusal `out` still begins as before.
pub fn append_number(out: &mut Vec<u8>, number: u64) -> Result<(), AllocError>
    ensures ok { OnOk result (out.new.items ≡ out.old.items ++ spaced number) }
    ensures err { OnErr result (take (length out.old.items) out.new.items ≡ out.old.items) }
    ensures full { OnErr result (vec_capacity out.old
        < length out.old.items + length (spaced number)) }
    ensures capacity { vec_capacity out.old ≤ vec_capacity out.new }
{
    let mut digits = Buffer::new();
    out.extend_from_slice(b" ")?;
    out.extend_from_slice(digits.format(number).as_bytes())
}

/// Appends a space and the 64 hexadecimal digits of a digest. On refusal `out` still begins as
/// before.
pub fn append_digest(out: &mut Vec<u8>, digest: &Digest) -> Result<(), AllocError>
    ensures ok { OnOk result (out.new.items ≡ out.old.items ++ in_hex digest.now) }
    ensures err { OnErr result (take (length out.old.items) out.new.items ≡ out.old.items) }
    ensures full { OnErr result (vec_capacity out.old
        < length out.old.items + length (in_hex digest.now)) }
    ensures capacity { vec_capacity out.old ≤ vec_capacity out.new }
{
    let digits = hex_digits(digest);
    out.extend_from_slice(b" ")?;
    out.extend_from_slice(&digits)
}

// The 64 hexadecimal digits of a digest.
fn hex_digits(digest: &Digest) -> [u8; 64]
    ensures { result ≡ encode_lower digest.now.bytes }
{
    let mut digits = [0u8; 64];
    encode_to_slice(digest.bytes, &mut digits).unwrap();
    digits
}
