//! Writes the parts of a text one after another.

ghost use Rattle.std.specs.Prelude.{◌≡◌, ◌++◌, OnOk, decimal, flat_map};
ghost use Rattle.pot_tree.specs.Parts.{part_text};

use crate::spelling::{append_spelled, digest_digits, mode_digits, size_digits, sum_digits};
use itoa::Buffer;
use pot_bytes::Digest;
use std::alloc::AllocError;

/// A part of a text.
#[derive(Clone, Copy)]
pub enum Part<'a> {
    Text(&'a [u8]),
    /// Bytes of a path or of a link's target.
    Spelled(&'a [u8]),
    /// A number in decimal.
    Number(u64),
    Mode(u32),
    /// A digest in hexadecimal digits of lower case.
    Hex(Digest),
    /// The size of a member of a pack.
    Size(u64),
    /// The checksum of a header in a pack.
    Sum(u64),
}

/// Appends the parts.
pub fn append_parts(out: &mut Vec<u8>, parts: &[Part]) -> Result<(), AllocError>
    ensures { OnOk result (out.new.items ≡ out.old.items ++ flat_map part_text parts.now) }
{
    for part in parts {
        append_part(out, part)?;
    }
    Ok(())
}

fn append_part(out: &mut Vec<u8>, part: &Part) -> Result<(), AllocError>
    ensures { OnOk result (out.new.items ≡ out.old.items ++ part_text part.now) }
{
    match part {
        Part::Text(bytes) => out.extend_from_slice(bytes),
        Part::Spelled(bytes) => append_spelled(out, bytes),
        Part::Number(number) => append_number(out, *number),
        Part::Mode(mode) => out.extend_from_slice(&mode_digits(*mode)),
        Part::Hex(digest) => out.extend_from_slice(&digest_digits(digest)),
        Part::Size(size) => out.extend_from_slice(&size_digits(*size)),
        Part::Sum(sum) => out.extend_from_slice(&sum_digits(*sum)),
    }
}

fn append_number(out: &mut Vec<u8>, number: u64) -> Result<(), AllocError>
    ensures { OnOk result (out.new.items ≡ out.old.items ++ decimal number) }
{
    let mut digits = Buffer::new();
    out.extend_from_slice(digits.format(number).as_bytes())
}
