//! Patterns of paths: `*` stands for any bytes, slashes among them, and `?` for one byte.

use std::alloc::{AllocError, Global};

/// Whether a path fits a pattern as a whole.
pub fn fits(alloc: Global, pattern: &[u8], path: &[u8]) -> Result<bool, AllocError> {
    // Which lengths of the path's front fit the pattern's front so far.
    let mut fronts = Vec::new(alloc);
    fronts.push(true)?;
    for _ in path {
        fronts.push(false)?;
    }
    for byte in pattern {
        fronts = next_fronts(alloc, &fronts, *byte, path)?;
    }
    Ok(fronts.last() == Some(&true))
}

/// Whether a pattern finds a path: one with a slash where it fits the whole path, any other where
/// it fits the last part of it.
pub fn fits_path(alloc: Global, pattern: &[u8], path: &[u8]) -> Result<bool, AllocError> {
    if pattern.contains(&b'/') {
        return fits(alloc, pattern, path);
    }
    let last = match path.iter().rposition(|byte| *byte == b'/') {
        Some(at) => path.get(at.saturating_add(1)..).unwrap_or(path),
        None => path,
    };
    fits(alloc, pattern, last)
}

// The fronts that fit with one byte more of the pattern.
fn next_fronts(
    alloc: Global,
    fronts: &[bool],
    byte: u8,
    path: &[u8],
) -> Result<Vec<bool>, AllocError> {
    let mut next = Vec::new(alloc);
    let mut before = false;
    let mut fitted = false;
    for (place, front) in fronts.iter().enumerate() {
        let last = place.checked_sub(1).and_then(|last| path.get(last));
        fitted = match byte {
            b'*' => *front || fitted,
            b'?' => before && last.is_some(),
            _ => before && last == Some(&byte),
        };
        before = *front;
        next.push(fitted)?;
    }
    Ok(next)
}
