//! Names and digests as text.

use hex::encode_to_slice;
use pot_bytes::{Digest, Name};
use pot_client::read_part_name;
use std::alloc::{AllocError, Global};
use std::str::from_utf8;

/// A name as text. All bytes of a name are ASCII.
pub fn name_text(name: &Name) -> &str {
    from_utf8(name.bytes()).unwrap_or("")
}

/// A name as it is told: that of a part tells its number and its file.
pub fn spoken_name(alloc: Global, name: &Name) -> Result<String, AllocError> {
    match read_part_name(name) {
        Some((stem, number)) => {
            let stem = name_text(&stem);
            if number == 0 {
                format!(in alloc; "the list of parts of {stem}")
            } else {
                format!(in alloc; "part {number} of {stem}")
            }
        }
        None => String::from_str(alloc, name_text(name)),
    }
}

/// A digest as 64 hexadecimal digits of lower case.
pub fn digest_text(alloc: Global, digest: &Digest) -> Result<String, AllocError> {
    let mut digits = [0u8; 64];
    if encode_to_slice(digest.bytes, &mut digits).is_err() {
        return Ok(String::new(alloc));
    }
    String::from_str(alloc, from_utf8(&digits).unwrap_or(""))
}
