//! Archives and groups by rack and number, as `002/0-3,5` and `001/4,002/0`. A rack stands for all
//! numbers behind it, up to the next rack. Numbers before the first rack are of every rack.

use crate::numbers::read_rack;
use std::alloc::{AllocError, Global};

/// The numbers that a list names of a rack, joined by commas. None where it names none.
pub fn part_for(alloc: Global, list: &str, rack: u32) -> Result<Option<String>, AllocError> {
    let mut numbers = String::new(alloc);
    let mut is_named = true;
    for item in list.split(',') {
        let own = match item.split_once('/') {
            Some((front, behind)) => {
                is_named = read_rack(front.as_bytes()) == Some(rack);
                behind
            }
            None => item,
        };
        if is_named {
            if !numbers.is_empty() {
                numbers.push_str(",")?;
            }
            numbers.push_str(own)?;
        }
    }
    Ok(if numbers.is_empty() {
        None
    } else {
        Some(numbers)
    })
}

/// Whether each rack that a list names is one of so many.
pub fn are_of_racks(list: &str, count: u32) -> bool {
    for item in list.split(',') {
        if let Some((front, _)) = item.split_once('/') {
            match read_rack(front.as_bytes()) {
                Some(number) if number <= count => {}
                _ => return false,
            }
        }
    }
    true
}

/// Whether a list begins with a rack, so that each of its numbers is of one.
pub fn begins_with_rack(list: &str) -> bool {
    match list.split_once('/') {
        Some((front, _)) => read_rack(front.as_bytes()).is_some(),
        None => false,
    }
}

/// Whether a list names a rack at all.
pub fn names_one(list: &str) -> bool {
    list.contains('/')
}
