//! Shares computed apart from this crate, and each subset of some shares.
ghost use Rattle.std.specs.Prelude.{◌≤◌, length};
ghost use Rattle.pot_desk_shares.specs.Making.{AreTerms};

use crate::share::append_digest;
use crate::{DeskShare, JoinFault, Joined, Terms, join, make_share, random_len, read_share};
use pot_bytes::NoMemory;
use std::alloc::Global;
use std::test::Fail;

/// The last 32 bytes of three shares, which are the digest of all before them, by
/// tools/reader/potdesk.py.
const HELLO: [u8; 32] = [
    0x09, 0x08, 0x6d, 0xe5, 0x9d, 0x41, 0x50, 0x72, 0xf0, 0xc1, 0x6e, 0x3c, 0xca, 0x64, 0xe5, 0x89,
    0x36, 0xed, 0x47, 0x56, 0x1d, 0x83, 0x5b, 0x11, 0xcc, 0x04, 0x74, 0x26, 0xa6, 0x62, 0xe2, 0x5f,
];

const EMPTY: [u8; 32] = [
    0xee, 0x36, 0x44, 0xed, 0x0c, 0x0f, 0x03, 0x3d, 0xf1, 0x1b, 0xb2, 0x71, 0xaa, 0x82, 0x12, 0xfb,
    0x06, 0x1f, 0x12, 0x33, 0x6b, 0xc5, 0x48, 0xf8, 0xe8, 0x1e, 0xa2, 0xe5, 0x49, 0x47, 0x58, 0x9e,
];

const DESK: [u8; 32] = [
    0xb7, 0xc2, 0xba, 0x35, 0x7c, 0xfb, 0xeb, 0xc6, 0x3d, 0x56, 0x36, 0x18, 0x4b, 0xb3, 0xe1, 0xa3,
    0x14, 0xb1, 0xc5, 0xdf, 0x0b, 0x81, 0x58, 0x90, 0xfb, 0x2b, 0xc8, 0xf1, 0x1d, 0xab, 0x24, 0x20,
];

/// The share of a text at a point, with random bytes that all tests take.
fn made(alloc: Global, text: &[u8], terms: &Terms, point: u8) -> Result<Vec<u8>, NoMemory>
    requires terms { AreTerms terms.now }
    requires short { length text.now ≤ 100 }
    requires first { 1 ≤ point }
    requires last { point ≤ terms.now.count }
{
    let size = random_len(terms, text.len() as u64) as usize;
    let mut random = vec![in alloc; 0; size]?;
    let mut next = 11u8;
    for byte in random.iter_mut() {
        *byte = next;
        next = next.wrapping_add(37);
    }
    make_share(alloc, text, terms, &random, point)
}

/// The five shares of a text, of which three are needed.
fn five(alloc: Global, text: &[u8], generation: u64) -> Result<[Vec<u8>; 5], NoMemory>
    requires { length text.now ≤ 100 }
{
    let terms = Terms {
        need: 3,
        count: 5,
        generation,
    };
    Ok([
        made(alloc, text, &terms, 1)?,
        made(alloc, text, &terms, 2)?,
        made(alloc, text, &terms, 3)?,
        made(alloc, text, &terms, 4)?,
        made(alloc, text, &terms, 5)?,
    ])
}

/// What those of some shares are joined to whose bits stand in a number.
fn joined(alloc: Global, all: &[Vec<u8>], bits: u16) -> Result<Joined, JoinFault> {
    let mut some: Vec<DeskShare> = Vec::new(alloc);
    for (at, bytes) in all.iter().enumerate() {
        if at < 16 && bits >> at & 1 == 1 {
            if let Some(share) = read_share(bytes) {
                if some.push(share).is_err() {
                    return Err(JoinFault::NoMemory);
                }
            }
        }
    }
    join(alloc, &some)
}

#[test]
fn shares_computed_apart(rt: HostRuntime) -> Result<(), Fail> {
    let alloc = rt.alloc();
    let terms = Terms {
        need: 3,
        count: 5,
        generation: 7,
    };
    let bytes = made(alloc, b"hello", &terms, 5)?;
    assert!(rt; bytes.ends_with(&HELLO));
    let terms = Terms {
        need: 1,
        count: 1,
        generation: 1,
    };
    let bytes = made(alloc, b"", &terms, 1)?;
    assert!(rt; bytes.ends_with(&EMPTY));
    let terms = Terms {
        need: 2,
        count: 3,
        generation: u64::MAX,
    };
    let bytes = made(alloc, b"desk", &terms, 2)?;
    assert!(rt; bytes.ends_with(&DESK));
    Ok(())
}

/// Each of the subsets of five shares: as many as are needed give the text, and fewer are told.
#[test]
fn each_subset(rt: HostRuntime) -> Result<(), Fail> {
    let alloc = rt.alloc();
    let all = five(alloc, b"names and places", 9)?;
    for bits in 0..32u16 {
        let have = bits.count_ones() as u8;
        match joined(alloc, &all, bits) {
            Ok(j) => {
                assert!(rt; have >= 3);
                assert_eq!(rt; j.text.as_slice(), b"names and places".as_slice());
                assert_eq!(rt; j.head.generation, 9);
            }
            Err(JoinFault::NoShare) => assert_eq!(rt; have, 0),
            Err(JoinFault::Few { head, have: told }) => {
                assert!(rt; have < 3 && told == have && head.generation == 9);
            }
            Err(_) => assert!(rt; false),
        }
    }
    Ok(())
}

/// A share of which a byte is another is none.
#[test]
fn changed_bytes(rt: HostRuntime) -> Result<(), Fail> {
    let alloc = rt.alloc();
    let all = five(alloc, b"desk", 2)?;
    let mut bytes = all[0].to_vec(alloc)?;
    assert!(rt; read_share(&bytes).is_some());
    for at in 0..bytes.as_slice().len() {
        bytes[at] ^= 1;
        assert!(rt; read_share(&bytes).is_none());
        bytes[at] ^= 1;
    }
    bytes.pop();
    assert!(rt; read_share(&bytes).is_none());
    assert!(rt; read_share(&[]).is_none());
    Ok(())
}

/// Of two generations the newer is given where enough of its shares are there, and else the older.
/// Shares of two are not joined.
#[test]
fn generations(rt: HostRuntime) -> Result<(), Fail> {
    let alloc = rt.alloc();
    let old = five(alloc, b"the old desk", 4)?;
    let new = five(alloc, b"the new desk", 5)?;
    let [a, b, c, d, e] = &old;
    let [f, g, h, _, _] = &new;
    let three: [&[u8]; 6] = [a, f, b, g, c, h];
    assert_eq!(rt; text_of(alloc, &three)?, Some(*b"the new desk"));
    let two: [&[u8]; 6] = [g, a, c, b, f, g];
    assert_eq!(rt; text_of(alloc, &two)?, Some(*b"the old desk"));
    let none: [&[u8]; 4] = [d, e, f, g];
    assert_eq!(rt; text_of(alloc, &none)?, None);
    Ok(())
}

/// A share with other values, under a digest of their own, is found out behind the join.
#[test]
fn forged(rt: HostRuntime) -> Result<(), Fail> {
    let alloc = rt.alloc();
    let all = five(alloc, b"the old desk", 4)?;
    let [a, b, c, _, _] = &all;
    let mut bytes = a.to_vec(alloc)?;
    bytes.truncate(76);
    if let Some(byte) = bytes.get_mut(40) {
        *byte ^= 1;
    }
    let forged = append_digest(bytes)?;
    let some: [&[u8]; 3] = [&forged, b, c];
    assert!(rt; read_share(&forged).is_some());
    assert_eq!(rt; text_of(alloc, &some)?, None);
    Ok(())
}

/// The text of twelve bytes that some shares give.
fn text_of(alloc: Global, shares: &[&[u8]]) -> Result<Option<[u8; 12]>, NoMemory> {
    let mut some: Vec<DeskShare> = Vec::new(alloc);
    for bytes in shares {
        if let Some(share) = read_share(bytes) {
            if some.push(share).is_err() {
                return Err(NoMemory);
            }
        }
    }
    let Ok(j) = join(alloc, &some) else {
        return Ok(None);
    };
    let mut text = [0; 12];
    if j.text.as_slice().len() == 12 {
        text.copy_from_slice(&j.text);
    }
    Ok(Some(text))
}
