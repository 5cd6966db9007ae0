//! What a catalog says of one rack.
ghost use Rattle.std.specs.Prelude.{◌≡◌, MatchOption};
ghost use Rattle.pots_racks.specs.Catalog.{HasNone, IsCount, IsPlaceOf, IsSection, is_file, is_of};

use crate::catalog::{Line, RackDesk};

/// How the desk of a rack stood, and the lines of its files. The first line of the rack counts.
/// None exactly where no line is that of the rack.
pub fn section_of(lines: &[Line], rack: u32) -> Option<(RackDesk, &[Line])>
    ensures { MatchOption result (HasNone lines.now rack)
        (λ s. IsSection lines.now rack s.0 s.1.now) }
{
    let at = place_of(lines, rack)?;
    let behind = &lines[at + 1..];
    let count = count_files(behind);
    match lines[at] {
        Line::OfRack(desk) => Some((desk, &behind[..count])),
        Line::OfFile(_) => None,
    }
}

// Whether a line is that of this rack.
fn is_of(line: &Line, rack: u32) -> bool
    ensures { result ≡ is_of rack line.now }
{
    match line {
        Line::OfRack(desk) => desk.rack == rack,
        Line::OfFile(_) => false,
    }
}

// The place of the first line of a rack.
fn place_of(lines: &[Line], rack: u32) -> Option<usize>
    ensures { MatchOption result (HasNone lines.now rack) (IsPlaceOf lines.now rack) }
{
    for at in 0..lines.len() {
        if is_of(&lines[at], rack) {
            return Some(at);
        }
    }
    None
}

// How many lines of files stand at the front.
fn count_files(lines: &[Line]) -> usize
    ensures { IsCount lines.now result }
{
    for at in 0..lines.len() {
        if !is_file(&lines[at]) {
            return at;
        }
    }
    lines.len()
}

// Whether a line is that of a file.
fn is_file(line: &Line) -> bool
    ensures { result ≡ is_file line.now }
{
    match line {
        Line::OfRack(_) => false,
        Line::OfFile(_) => true,
    }
}
