//! The words of a line.
use crate::fault::Fault;
use pot_bytes::digest_of;
use std::alloc::{AllocError, Global};

/// The number that a word spells.
pub fn number_of(word: &str) -> Result<u32, Fault> {
    word.parse().map_err(|_| Fault::NoStep)
}

/// The numbers that these words spell.
pub fn numbers_of(alloc: Global, words: &str) -> Result<Vec<u32>, Fault> {
    let mut numbers = Vec::new(alloc);
    for word in words.split(' ') {
        numbers.push(number_of(word)?)?;
    }
    Ok(numbers)
}

/// The bytes that a word spells, two digits each.
pub fn bytes_of(alloc: Global, word: &str) -> Result<Vec<u8>, Fault> {
    hex::decode(alloc, word).map_err(|_| Fault::NoStep)
}

/// The byte that a word spells by two digits.
pub fn byte_of(word: &str) -> Result<u8, Fault> {
    let mut bytes = [0; 1];
    match hex::decode_to_slice(word, &mut bytes) {
        Ok(()) => Ok(bytes[0]),
        Err(_) => Err(Fault::NoStep),
    }
}

/// A number and a word.
pub fn number_and_word(words: &str) -> Result<(u32, &str), Fault> {
    let Some((number, word)) = words.split_once(' ') else {
        return Err(Fault::NoStep);
    };
    Ok((number_of(number)?, word))
}

/// The first four bytes of a digest, as text.
pub fn short(alloc: Global, digest: &[u8; 32]) -> Result<String, AllocError> {
    hex::encode(alloc, &digest[..4])
}

/// The first four bytes of the digest of these bytes, as text.
pub fn mark_of(alloc: Global, bytes: &[u8]) -> Result<String, AllocError> {
    short(alloc, &digest_of(bytes).bytes)
}
