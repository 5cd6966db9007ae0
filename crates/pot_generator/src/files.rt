//! The files that a script stores.

ghost use Rattle.std.specs.Prelude.{◌≡◌, ◌<◌, ◌≤◌, ◌+◌, ◌++◌, IfOk, length, take, drop};
ghost use Rattle.pot_generator.specs.Generated.{byte_of, file_of, files, length_of, name_of};

use itoa::Buffer;
use pot_bytes::{Bytes, Name};
use std::alloc::{AllocError, Global};

/// How many files a script stores.
pub const FILES: u32 = 24;

/// How many bytes a file has.
fn length_of(number: u32, place: u32) -> u32
    requires number { number ≤ 1000000 }
    requires place { place < files }
    ensures { result ≡ length_of number place }
{
    (1000 * number + 777 * place) % 4001
}

/// The byte of a file at a place of it.
fn byte_of(number: u32, place: u32, at: u32) -> u8
    requires number { number ≤ 1000000 }
    requires place { place < files }
    requires at { at < 4001 }
    ensures { result ≡ byte_of number place at }
{
    ((31 * at + 17 * place + number) % 256) as u8
}

/// A file's bytes.
pub fn file_of(alloc: Global, number: u32, place: u32) -> Result<Bytes, AllocError>
    requires number { number ≤ 1000000 }
    requires place { place < files }
    ensures { IfOk result (λ file. file ≡ file_of number place) }
{
    let mut bytes = Vec::new(alloc);
    for at in 0..length_of(number, place) {
        bytes.push(byte_of(number, place, at))?;
    }
    Ok(Bytes::from_vec(bytes))
}

/// Writes digits behind the first byte of a text.
fn put_digits(text: &mut [u8], digits: &[u8])
    requires { length digits.now + 1 ≤ length text.old }
    ensures { text.new ≡ take 1 text.old ++ digits.now ++ drop (length digits.now + 1) text.old }
{
    text[1..digits.len() + 1].copy_from_slice(digits);
}

/// A file's name.
pub fn name_of(place: u32) -> Name
    requires { place < files }
    ensures { result ≡ name_of place }
{
    let mut digits = Buffer::new();
    let digits = digits.format(place).as_bytes();
    let mut text = [b'f'; 3];
    put_digits(&mut text, digits);
    let Some(name) = Name::read(&text[..digits.len() + 1]) else {
        unreachable!()
    };
    name
}
