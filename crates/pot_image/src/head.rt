//! What stands before the tables of an image.
ghost use Rattle.std.specs.Prelude.{◌≡◌};
ghost use Rattle.pot_image.specs.Following.{Gives};
ghost use Rattle.pot_image.specs.Reading.{reading};
ghost use Rattle.pot_image.specs.Numbers.{natural, between, zeros};
ghost use Rattle.pot_image.specs.Heads.{geometry, parity, head};

use crate::fault::Fault;
use crate::fields::{read_byte, read_number};
use crate::format::Format;
use byteorder::{BigEndian, ByteOrder};
use pot_bytes::{Geometry, Rack};

/// The session of an image and its rack.
#[derive(Clone, Copy, PartialEq, Eq, Debug)]
pub(crate) struct Head {
    pub session: u32,
    pub rack: Rack,
}

/// A number of stripes.
fn read_stripes(bytes: &[u8]) -> Result<(u32, &[u8]), Fault>
    ensures { Gives (λ x. (x.0, x.1.now)) result (reading (natural 4 (between 1 4096)) bytes.now) }
{
    let (number, rest) = read_number(bytes)?;
    if number < 1 || number > 4096 {
        return Err(Fault::at(bytes));
    }
    Ok((number, rest))
}

/// A byte of zero.
#[tactic(auto, unfolding(crate::specs::Reading::reading, crate::specs::Numbers::natural))]
fn skip_byte(bytes: &[u8]) -> Result<&[u8], Fault>
    ensures { Gives (λ x. (0, x.now)) result (reading (zeros 1) bytes.now) }
{
    match bytes {
        [] => Err(Fault::at(bytes)),
        [byte, rest @ ..] => {
            if *byte != 0 {
                return Err(Fault::at(bytes));
            }
            Ok(rest)
        }
    }
}

/// Two bytes of zero.
#[tactic(auto, unfolding(crate::specs::Reading::reading, crate::specs::Numbers::natural))]
fn skip_two(bytes: &[u8]) -> Result<&[u8], Fault>
    ensures { Gives (λ x. (0, x.now)) result (reading (zeros 2) bytes.now) }
{
    if bytes.len() < 2 {
        return Err(Fault::at(bytes));
    }
    let (field, rest) = bytes.split_at(2);
    if BigEndian::read_u16(field) != 0 {
        return Err(Fault::at(bytes));
    }
    Ok(rest)
}

/// How a file is split, over so many groups.
pub(crate) fn read_geometry(bytes: &[u8], groups: u8) -> Result<(Geometry, &[u8]), Fault>
    ensures { Gives (λ x. (x.0, x.1.now)) result (reading (geometry groups) bytes.now) }
{
    let (fragments, after_fragments) = read_byte(bytes, 2, 8)?;
    let (need, after_need) = read_byte(after_fragments, 1, 255)?;
    let (shards, after_shards) = read_byte(after_need, need, 16)?;
    if shards > groups {
        return Err(Fault::at(after_need));
    }
    let (blur, rest) = read_byte(after_shards, 0, 63)?;
    let geometry = Geometry {
        fragments,
        need,
        shards,
        blur,
    };
    Ok((geometry, rest))
}

/// The number of parity columns.
fn read_parity(bytes: &[u8], format: Format) -> Result<(u8, &[u8]), Fault>
    ensures { Gives (λ x. (x.0, x.1.now)) result (reading (parity format) bytes.now) }
{
    match format {
        Format::First => {
            let padding = skip_two(bytes)?;
            Ok((1, padding))
        }
        Format::Second => {
            let (parity, after_parity) = read_byte(bytes, 1, 2)?;
            let zero = skip_byte(after_parity)?;
            Ok((parity, zero))
        }
    }
}

/// The session and the rack.
pub(crate) fn read_head(bytes: &[u8], format: Format) -> Result<(Head, &[u8]), Fault>
    ensures { Gives (λ x. (x.0, x.1.now)) result (reading (head format) bytes.now) }
{
    let (session, after_session) = read_number(bytes)?;
    let (groups, after_groups) = read_byte(after_session, 0, 16)?;
    let (columns, after_columns) = read_byte(after_groups, 1, 16)?;
    let (geometry, after_geometry) = read_geometry(after_columns, groups)?;
    let (parity, after_parity) = read_parity(after_geometry, format)?;
    let (stripes, rest) = read_stripes(after_parity)?;
    let rack = Rack {
        groups,
        columns,
        parity,
        stripes,
        geometry,
    };
    Ok((Head { session, rack }, rest))
}
