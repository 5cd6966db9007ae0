//! Changes of the desk's image.
use crate::fault::Fault;
use crate::words::{bytes_of, number_and_word, numbers_of};
use pot_bytes::digest_of;
use std::alloc::Global;

/// How many bytes a trailer has.
const TRAILER: usize = 32;

/// The bytes before a place.
fn front(image: &[u8], place: u32) -> Result<&[u8], Fault> {
    image.get(..place as usize).ok_or(Fault::NoStep)
}

/// The bytes from a place on.
fn back(image: &[u8], place: u32) -> Result<&[u8], Fault> {
    image.get(place as usize..).ok_or(Fault::NoStep)
}

/// These bytes one after another.
fn joined(alloc: Global, parts: &[&[u8]]) -> Result<Vec<u8>, Fault> {
    let mut bytes = Vec::new(alloc);
    for part in parts {
        bytes.extend_from_slice(part)?;
    }
    Ok(bytes)
}

/// The image with other bytes from a place on.
fn with(alloc: Global, image: &[u8], place: u32, bytes: &[u8]) -> Result<Vec<u8>, Fault> {
    let rest = back(image, place)?;
    match rest.get(bytes.len()..) {
        Some(rest) => joined(alloc, &[front(image, place)?, bytes, rest]),
        None => Err(Fault::NoStep),
    }
}

/// The image with the lowest bit of a byte changed.
fn flipped(alloc: Global, image: &[u8], place: u32) -> Result<Vec<u8>, Fault> {
    match back(image, place)?.first() {
        Some(byte) => with(alloc, image, place, &[*byte ^ 1]),
        None => Err(Fault::NoStep),
    }
}

/// The image with the bytes of one place at another.
fn copied(alloc: Global, image: &[u8], words: &str) -> Result<Vec<u8>, Fault> {
    match numbers_of(alloc, words)?.as_slice() {
        [from, count, to] => {
            let bytes = front(back(image, *from)?, *count)?;
            with(alloc, image, *to, bytes)
        }
        _ => Err(Fault::NoStep),
    }
}

/// The image with a trailer of its own, in place of the old one or behind it.
fn sealed(alloc: Global, image: &[u8], words: &str) -> Result<Vec<u8>, Fault> {
    let text = match words {
        "more" => image,
        "" => image
            .get(..image.len().saturating_sub(TRAILER))
            .unwrap_or(&[]),
        _ => return Err(Fault::NoStep),
    };
    joined(alloc, &[text, &digest_of(text).bytes])
}

/// The first bytes of the image.
pub fn cut(alloc: Global, image: &Option<Vec<u8>>, count: u32) -> Result<Option<Vec<u8>>, Fault> {
    match image {
        Some(image) => Ok(Some(joined(alloc, &[front(image, count)?])?)),
        None => Err(Fault::NoStep),
    }
}

/// The image as a line changes it.
fn changed(alloc: Global, image: &[u8], word: &str, rest: &str) -> Result<Vec<u8>, Fault> {
    match word {
        "set" => {
            let (place, word) = number_and_word(rest)?;
            with(alloc, image, place, &bytes_of(alloc, word)?)
        }
        "insert" => {
            let (place, word) = number_and_word(rest)?;
            let bytes = bytes_of(alloc, word)?;
            joined(alloc, &[front(image, place)?, &bytes, back(image, place)?])
        }
        "copy" => copied(alloc, image, rest),
        "flip" => flipped(alloc, image, crate::words::number_of(rest)?),
        "seal" => sealed(alloc, image, rest),
        _ => Err(Fault::NoStep),
    }
}

/// So many zeros.
fn zeros(alloc: Global, count: u32) -> Result<Vec<u8>, Fault> {
    let mut bytes = Vec::new(alloc);
    for _ in 0..count {
        bytes.push(0)?;
    }
    Ok(bytes)
}

/// The desk's image as a line changes it.
pub fn change_image(
    alloc: Global,
    image: &Option<Vec<u8>>,
    word: &str,
    rest: &str,
) -> Result<Option<Vec<u8>>, Fault> {
    match (word, image) {
        ("none", _) => Ok(None),
        ("zeros", _) => Ok(Some(zeros(alloc, crate::words::number_of(rest)?)?)),
        ("cut", image) => cut(alloc, image, crate::words::number_of(rest)?),
        (_, Some(image)) => Ok(Some(changed(alloc, image, word, rest)?)),
        (_, None) => Err(Fault::NoStep),
    }
}
