//! The fields at the front of some bytes. Each reader gives what the field says and the bytes
//! behind it.
ghost use Rattle.std.specs.Prelude.{◌≡◌, ◌==◌};
ghost use Rattle.pot_image.specs.Following.{Gives};
ghost use Rattle.pot_image.specs.Reading.{reading};
ghost use Rattle.pot_image.specs.Numbers.{natural, any, between, zeros, flag, digest};

use crate::fault::Fault;
use byteorder::{BigEndian, ByteOrder};
use pot_bytes::Digest;

/// A byte within these bounds.
#[tactic(auto, unfolding(crate::specs::Reading::reading, crate::specs::Numbers::natural))]
pub(crate) fn read_byte(bytes: &[u8], least: u8, most: u8) -> Result<(u8, &[u8]), Fault>
    ensures { Gives (λ x. (x.0, x.1.now)) result
        (reading (natural 1 (between least most)) bytes.now) }
{
    match bytes {
        [] => Err(Fault::at(bytes)),
        [byte, rest @ ..] => {
            if *byte < least || *byte > most {
                return Err(Fault::at(bytes));
            }
            Ok((*byte, rest))
        }
    }
}

/// Any number of four bytes.
#[tactic(auto, unfolding(crate::specs::Reading::reading, crate::specs::Numbers::natural))]
pub(crate) fn read_number(bytes: &[u8]) -> Result<(u32, &[u8]), Fault>
    ensures { Gives (λ x. (x.0, x.1.now)) result (reading (natural 4 any) bytes.now) }
{
    if bytes.len() < 4 {
        return Err(Fault::at(bytes));
    }
    let (field, rest) = bytes.split_at(4);
    Ok((BigEndian::read_u32(field), rest))
}

/// Any number of eight bytes.
#[tactic(auto, unfolding(crate::specs::Reading::reading, crate::specs::Numbers::natural))]
pub(crate) fn read_long(bytes: &[u8]) -> Result<(u64, &[u8]), Fault>
    ensures { Gives (λ x. (x.0, x.1.now)) result (reading (natural 8 any) bytes.now) }
{
    if bytes.len() < 8 {
        return Err(Fault::at(bytes));
    }
    let (field, rest) = bytes.split_at(8);
    Ok((BigEndian::read_u64(field), rest))
}

/// Three bytes of zero.
#[tactic(auto, unfolding(crate::specs::Reading::reading, crate::specs::Numbers::natural))]
pub(crate) fn skip_padding(bytes: &[u8]) -> Result<&[u8], Fault>
    ensures { Gives (λ x. (0, x.now)) result (reading (zeros 3) bytes.now) }
{
    if bytes.len() < 3 {
        return Err(Fault::at(bytes));
    }
    let (field, rest) = bytes.split_at(3);
    if BigEndian::read_u24(field) != 0 {
        return Err(Fault::at(bytes));
    }
    Ok(rest)
}

/// A byte of 0 or 1.
#[tactic(auto, unfolding(crate::specs::Reading::reading, crate::specs::Numbers::flag))]
pub(crate) fn read_flag(bytes: &[u8]) -> Result<(bool, &[u8]), Fault>
    ensures { Gives (λ x. (x.0, x.1.now)) result (reading flag bytes.now) }
{
    match bytes {
        [0, rest @ ..] => Ok((false, rest)),
        [1, rest @ ..] => Ok((true, rest)),
        _ => Err(Fault::at(bytes)),
    }
}

/// 32 bytes.
#[tactic(auto, unfolding(crate::specs::Reading::reading, crate::specs::Numbers::digest))]
pub(crate) fn read_digest(bytes: &[u8]) -> Result<(Digest, &[u8]), Fault>
    ensures { Gives (λ x. (x.0, x.1.now)) result (reading digest bytes.now) }
{
    if bytes.len() < 32 {
        return Err(Fault::at(bytes));
    }
    let (field, rest) = bytes.split_at(32);
    let mut kept = [0; 32];
    kept.copy_from_slice(field);
    Ok((Digest { bytes: kept }, rest))
}
