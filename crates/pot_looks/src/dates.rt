//! Days as people write them.
ghost use Rattle.std.specs.Prelude.{◌≡◌, ◌-◌, ◌/◌};

use std::alloc::{AllocError, Global};

/// The seconds of a day.
const DAY: u64 = 86_400;

/// How many whole days lie between two moments.
pub fn days_between(from: u64, to: u64) -> u64
    ensures { result ≡ (to - from) / 86400 }
{
    to.saturating_sub(from) / DAY
}

/// The day of a moment, as `2026-11-30`, by universal time.
pub fn date_text(alloc: Global, seconds: u64) -> Result<String, AllocError> {
    let (year, month, day) = date_of(seconds / DAY);
    format!(in alloc; "{year:04}-{month:02}-{day:02}")
}

// The year, the month and the day of a number of days since 1970. Years begin in March, so that the
// day that some have more is the last one; 400 of them have 146,097 days.
fn date_of(days: u64) -> (u64, u64, u64) {
    let shifted = days.saturating_add(719_468);
    let of_cycle = shifted % 146_097;
    let year_of_cycle = of_cycle
        .saturating_sub(of_cycle / 1460)
        .saturating_add(of_cycle / 36_524)
        .saturating_sub(of_cycle / 146_096)
        / 365;
    let before = year_of_cycle
        .saturating_mul(365)
        .saturating_add(year_of_cycle / 4)
        .saturating_sub(year_of_cycle / 100);
    let of_year = of_cycle.saturating_sub(before);
    let from_march = of_year.saturating_mul(5).saturating_add(2) / 153;
    let first = from_march.saturating_mul(153).saturating_add(2) / 5;
    let day = of_year.saturating_sub(first).saturating_add(1);
    let year = (shifted / 146_097)
        .saturating_mul(400)
        .saturating_add(year_of_cycle);
    if from_march < 10 {
        (year, from_march.saturating_add(3), day)
    } else {
        (year.saturating_add(1), from_march.saturating_sub(9), day)
    }
}
