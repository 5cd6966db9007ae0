//! The file that names the places of a vault.
ghost use Rattle.std.specs.Prelude.{◌≡◌, IfOk, MatchOption};
ghost use Rattle.pots_places.specs.Places.{BeginsWith, BeginsWithNone, NamesNone, NamesPlaces};
ghost use Rattle.pots_places.specs.Places.{places_text};

use crate::cuts::first_line;
use crate::naming::{are_places, is_place_name};
use pot_bytes::Name;
use std::alloc::{AllocError, Global};

/// The name of the file. It has capital letters, so no stored file has this name.
pub const PLACES_FILE: &str = "PLACES";

/// What the text of a file of any version begins with.
const WORD: &[u8] = b"potshards-places ";

/// The text that names these places: a line for each, in order.
pub fn places_text(alloc: Global, names: &[Name]) -> Result<Vec<u8>, AllocError>
    ensures { IfOk result (λ v. v.items ≡ places_text names.now) }
{
    let mut text = Vec::from_slice(alloc, b"potshards-places 1\n")?;
    for name in names {
        text.extend_from_slice(b"place ")?;
        text.extend_from_slice(name.bytes())?;
        text.push(b'\n')?;
    }
    text.extend_from_slice(b"end\n")?;
    Ok(text)
}

/// The places that a text names. None exactly where it names those of no vault: it is damaged, or
/// of another version.
pub fn read_places(alloc: Global, text: &[u8]) -> Result<Option<Vec<Name>>, AllocError>
    ensures { IfOk result (λ found. MatchOption found (NamesNone text.now)
        (λ names. NamesPlaces text.now names.items)) }
{
    let Some(mut left) = text.strip_prefix(b"potshards-places 1\n") else {
        return Ok(None);
    };
    let mut names = Vec::new(alloc);
    while let Some((name, behind)) = first_place(left) {
        names.push(name)?;
        left = behind;
    }
    if left == b"end\n".as_slice() && are_places(&names) {
        Ok(Some(names))
    } else {
        Ok(None)
    }
}

// The place that the first line of a text names, and what stands behind the line. None exactly
// where the first line names none.
fn first_place(text: &[u8]) -> Option<(Name, &[u8])>
    ensures { MatchOption result (BeginsWithNone text.now)
        (λ r. BeginsWith text.now r.0 r.1.now) }
{
    let (front, behind) = first_line(text)?;
    let word = front.strip_prefix(b"place ")?;
    let name = Name::read(word)?;
    if is_place_name(&name) {
        Some((name, behind))
    } else {
        None
    }
}

/// Whether a text names places, but in a version that is not this one.
pub fn is_of_other_version(text: &[u8]) -> bool {
    match text.strip_prefix(WORD) {
        Some(rest) => !rest.starts_with(b"1\n"),
        None => false,
    }
}
