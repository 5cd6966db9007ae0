//! Dates as the names of lists have them: `20260131t235959z`, in UTC.

use std::alloc::{AllocError, Global};

/// How many days there are from 1 March of the year 0 to 1 January 1970.
const DAYS_BEFORE: u64 = 719_468;

/// The days of 400 years.
const DAYS_OF_ERA: u64 = 146_097;

/// The date of a time in seconds since 1970.
pub fn stamp_of(alloc: Global, seconds: u64) -> Result<String, AllocError> {
    let (year, month, day) = day_of(seconds / 86_400);
    let hour = seconds / 3600 % 24;
    let minute = seconds / 60 % 60;
    let second = seconds % 60;
    format!(in alloc; "{year:04}{month:02}{day:02}t{hour:02}{minute:02}{second:02}z")
}

/// The minute of a time in seconds since 1970, as people read it: `2026-01-31 23:59`, in UTC.
pub fn minute_text(alloc: Global, seconds: u64) -> Result<String, AllocError> {
    let (year, month, day) = day_of(seconds / 86_400);
    let hour = seconds / 3600 % 24;
    let minute = seconds / 60 % 60;
    format!(in alloc; "{year:04}-{month:02}-{day:02} {hour:02}:{minute:02}")
}

// The year, month and day of a day since 1970, by the Gregorian calendar. Years are counted from
// March, so that a leap day is the last of its year.
fn day_of(days: u64) -> (u64, u64, u64) {
    let days = days.saturating_add(DAYS_BEFORE);
    let era = days / DAYS_OF_ERA;
    let day_of_era = days % DAYS_OF_ERA;
    let leaps = day_of_era / 1460;
    let centuries = day_of_era / 36_524;
    let last = day_of_era / 146_096;
    let year = day_of_era
        .saturating_sub(leaps)
        .saturating_add(centuries)
        .saturating_sub(last)
        / 365;
    let before = (year * 365 + year / 4).saturating_sub(year / 100);
    let day_of_year = day_of_era.saturating_sub(before);
    let month = (day_of_year.saturating_mul(5).saturating_add(2)) / 153;
    let start = (month.saturating_mul(153).saturating_add(2)) / 5;
    let day = day_of_year.saturating_sub(start).saturating_add(1);
    let is_next = month >= 10;
    let month = if is_next {
        month - 9
    } else {
        month.saturating_add(3)
    };
    let year = year
        .saturating_add(era.saturating_mul(400))
        .saturating_add(u64::from(is_next));
    (year, month, day)
}

/// A date that was given, as the names of lists have it: without `-` and `:`, in lower case. None
/// where it has another byte, or is longer.
pub fn date_of(alloc: Global, text: &str) -> Result<Option<String>, AllocError> {
    let mut date = String::new(alloc);
    for byte in text.bytes() {
        match byte.to_ascii_lowercase() {
            b'-' | b':' => {}
            b' ' => date.push('t')?,
            lower @ (b'0'..=b'9' | b't' | b'z') => date.push(char::from(lower))?,
            _ => return Ok(None),
        }
    }
    if date.is_empty() || date.len() > 16 {
        return Ok(None);
    }
    Ok(Some(date))
}
