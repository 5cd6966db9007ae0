//! Lists of numbers of archives and of groups, as people write them.

use std::alloc::{AllocError, Global};

/// The most archives that a desk names.
pub const MOST_ARCHIVES: u32 = 512;

/// The numbers that a text lists, as `4,5` or `0-3`, each below `bound`. None where it lists none.
pub fn read_numbers(alloc: Global, text: &str, bound: u32) -> Result<Option<Vec<u32>>, AllocError> {
    let mut numbers = Vec::new(alloc);
    for part in text.split(',') {
        let Some((first, last)) = read_range(part) else {
            return Ok(None);
        };
        if last < first || last >= bound {
            return Ok(None);
        }
        for number in first..=last {
            numbers.push(number)?;
        }
    }
    Ok(Some(numbers))
}

// The first and the last number of a range, or a number twice.
fn read_range(text: &str) -> Option<(u32, u32)> {
    match text.split_once('-') {
        Some((first, last)) => Some((read_number(first)?, read_number(last)?)),
        None => {
            let number = read_number(text)?;
            Some((number, number))
        }
    }
}

/// The number of these decimal digits.
pub fn read_number(text: &str) -> Option<u32> {
    if text.bytes().all(|byte| byte.is_ascii_digit()) {
        text.parse::<u32>().ok()
    } else {
        None
    }
}

/// Numbers in their order as a text that `read_numbers` reads, as `0-3,12`. Of more than one in a
/// row the first and the last are told.
pub fn ranges_text(alloc: Global, numbers: &[u32]) -> Result<String, AllocError> {
    let mut text = String::new(alloc);
    let mut before = None;
    for (place, number) in numbers.iter().enumerate() {
        let goes_on = before.is_some_and(|last: u32| last.checked_add(1) == Some(*number));
        let next = numbers.get(place.saturating_add(1)).copied();
        let is_last = number.checked_add(1) != next || next.is_none();
        before = Some(*number);
        if !goes_on {
            let comma = if text.is_empty() { "" } else { "," };
            text.push_str(format!(in alloc; "{comma}{number}")?.as_str())?;
        } else if is_last {
            text.push_str(format!(in alloc; "-{number}")?.as_str())?;
        }
    }
    Ok(text)
}
