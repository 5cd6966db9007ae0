//! Sizes in bytes, as people write and read them.

use std::fmt;

/// A number of bytes, written with one decimal and a unit of a power of 1,000.
#[derive(Clone, Copy, Debug, PartialEq, Eq)]
pub struct Size(pub u64);

/// The units behind bytes, each 1,000 times the one before.
const UNITS: [&str; 6] = ["kB", "MB", "GB", "TB", "PB", "EB"];

impl fmt::Display for Size {
    fn fmt<W: fmt::Write>(&self, f: &mut fmt::Formatter<W>) -> fmt::Result {
        let Size(bytes) = *self;
        if bytes < 1000 {
            return write!(f, "{bytes} B");
        }
        let (tenths, unit) = scaled(bytes);
        let whole = tenths / 10;
        let tenth = tenths % 10;
        write!(f, "{whole}.{tenth} {unit}")
    }
}

// The tenths of the greatest unit of which there is at least one, and the unit.
fn scaled(bytes: u64) -> (u64, &'static str) {
    let mut tenths = bytes / 100;
    let mut last = "kB";
    for unit in UNITS {
        last = unit;
        if tenths < 10_000 {
            break;
        }
        tenths /= 1000;
    }
    (tenths, last)
}

/// The number of bytes that a text says: decimal digits, and behind them nothing, `B`, or `K`, `M`,
/// `G` or `T` with or without `B` for powers of 1,000 and with `iB` for powers of 1,024. None where
/// it says none, or more than 2^64 - 1.
pub fn read_size(text: &str) -> Option<u64> {
    let digits = text
        .bytes()
        .take_while(|byte| byte.is_ascii_digit())
        .count();
    let (number, unit) = text.split_at_checked(digits)?;
    let factor = factor_of(unit.trim_start())?;
    number.parse::<u64>().ok()?.checked_mul(factor)
}

// How many bytes the unit has.
fn factor_of(unit: &str) -> Option<u64> {
    match unit {
        "" | "B" => Some(1),
        "K" | "KB" | "k" | "kB" => Some(1000),
        "M" | "MB" => Some(1_000_000),
        "G" | "GB" => Some(1_000_000_000),
        "T" | "TB" => Some(1_000_000_000_000),
        "KiB" => Some(1 << 10),
        "MiB" => Some(1 << 20),
        "GiB" => Some(1 << 30),
        "TiB" => Some(1 << 40),
        _ => None,
    }
}
