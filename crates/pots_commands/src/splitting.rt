//! Numbers that the words give, and how files are split by them.

use clap::ArgMatches;
use pot_bytes::Geometry;
use pots_vault::{Stop, Visit, number_in};

/// A small number, and one that is beyond all limits as such.
pub fn small(number: u32) -> u8 {
    u8::try_from(number).unwrap_or(u8::MAX)
}

/// The number of an option, and another one where the words give none.
pub fn number(visit: &Visit, words: &ArgMatches, name: &str, otherwise: u32) -> Result<u32, Stop> {
    Ok(number_in(visit, name, words.get_str(name))?.unwrap_or(otherwise))
}

/// A geometry with those numbers in the place of its own that the words give.
pub fn geometry_of(visit: &Visit, words: &ArgMatches, own: Geometry) -> Result<Geometry, Stop> {
    Ok(Geometry {
        fragments: small(number(visit, words, "fragments", u32::from(own.fragments))?),
        need: small(number(visit, words, "need", u32::from(own.need))?),
        shards: small(number(visit, words, "shards", u32::from(own.shards))?),
        blur: small(number(visit, words, "blur", u32::from(own.blur))?),
    })
}
