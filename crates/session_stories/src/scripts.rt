//! The script that stands below a call.
use crate::fault::Fault;
use std::alloc::AllocError;

/// A line of a script.
#[derive(Clone, Copy)]
pub enum Part<'a> {
    /// A text and LF.
    Line(&'a str),
    /// A text.
    Text(&'a str),
    /// So many bytes, each 31 above the one before modulo 256, from this one on.
    Climbing { count: u32, first: u8 },
    /// So many times this byte.
    Repeated { count: u32, byte: u8 },
}

/// Whether a line is one of a script.
pub fn is_part(line: &str) -> bool {
    line == "|"
        || line.starts_with("| ")
        || line.starts_with("|- ")
        || line.starts_with("+ ")
        || line.starts_with("* ")
}

/// A count and a byte.
fn counted(words: &str) -> Result<(u32, u8), Fault> {
    let Some((count, byte)) = words.split_once(' ') else {
        return Err(Fault::NoStep);
    };
    match (count.parse(), byte.parse()) {
        (Ok(count), Ok(byte)) => Ok((count, byte)),
        _ => Err(Fault::NoStep),
    }
}

/// The part that a line of a script says.
pub fn part_of(line: &str) -> Result<Part<'_>, Fault> {
    let (word, rest) = line.split_once(' ').unwrap_or((line, ""));
    match word {
        "|" => Ok(Part::Line(rest)),
        "|-" => Ok(Part::Text(rest)),
        "+" => {
            let (count, first) = counted(rest)?;
            Ok(Part::Climbing { count, first })
        }
        _ => {
            let (count, byte) = counted(rest)?;
            Ok(Part::Repeated { count, byte })
        }
    }
}

/// Puts a part behind a script.
pub fn append(script: &mut Vec<u8>, part: Part) -> Result<(), AllocError> {
    match part {
        Part::Line(text) => {
            script.extend_from_slice(text.as_bytes())?;
            script.push(b'\n')?;
            Ok(())
        }
        Part::Text(text) => script.extend_from_slice(text.as_bytes()),
        Part::Climbing { count, first } => climb(script, count, first, 31),
        Part::Repeated { count, byte } => climb(script, count, byte, 0),
    }
}

/// So many bytes, each so far above the one before.
fn climb(script: &mut Vec<u8>, count: u32, first: u8, step: u8) -> Result<(), AllocError> {
    let mut byte = first;
    for _ in 0..count {
        script.push(byte)?;
        byte = byte.wrapping_add(step);
    }
    Ok(())
}
