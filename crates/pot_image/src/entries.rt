//! The entries of a group's log in an image.
ghost use Rattle.std.specs.Prelude.{◌≡◌, ◌≤◌};
ghost use Rattle.pot_bytes.specs.Rack.{IsRack};
ghost use Rattle.pot_image.specs.Following.{Gives};
ghost use Rattle.pot_image.specs.Reading.{reading};
ghost use Rattle.pot_image.specs.Logs.{stripe, column, place, placed, kinds, entry_of, entry};

use crate::columns::read_at_most;
use crate::fault::Fault;
use crate::fields::{read_byte, read_digest, read_flag, read_number};
use crate::format::Format;
use pot_bytes::Rack;
use pot_machine::Entry;

/// A stripe that the rack has.
fn read_stripe<'a>(bytes: &'a [u8], rack: &Rack) -> Result<(u32, &'a [u8]), Fault>
    requires { IsRack rack.now }
    ensures { Gives (λ x. (x.0, x.1.now)) result (reading (stripe rack.now) bytes.now) }
{
    read_at_most(bytes, rack.stripes - 1)
}

/// A column that the rack's groups have.
fn read_column<'a>(bytes: &'a [u8], rack: &Rack) -> Result<(u8, &'a [u8]), Fault>
    requires { IsRack rack.now }
    ensures { Gives (λ x. (x.0, x.1.now)) result (reading (column rack.now) bytes.now) }
{
    read_byte(bytes, 0, rack.columns + rack.parity - 1)
}

/// A stripe of the rack, and a column of its groups.
fn read_place<'a>(bytes: &'a [u8], rack: &Rack) -> Result<(u32, u8, &'a [u8]), Fault>
    requires { IsRack rack.now }
    ensures { Gives (λ x. ((x.0, x.1), x.2.now)) result (reading (place rack.now) bytes.now) }
{
    let (stripe, after_stripe) = read_stripe(bytes, rack)?;
    let (column, rest) = read_column(after_stripe, rack)?;
    Ok((stripe, column, rest))
}

/// A put into a group with one parity column.
fn read_put<'a>(bytes: &'a [u8], rack: &Rack, job: u32) -> Result<(Entry, &'a [u8]), Fault>
    requires { IsRack rack.now }
    ensures { Gives (λ x. (x.0, x.1.now)) result (reading (entry_of rack.now job 1) bytes.now) }
{
    let (stripe, column, after_place) = read_place(bytes, rack)?;
    let (digest, after_digest) = read_digest(after_place)?;
    let (parity_digest, after_parity) = read_digest(after_digest)?;
    let (kept, rest) = read_flag(after_parity)?;
    let entry = Entry::Put {
        job,
        stripe,
        column,
        digest,
        parity_digest,
        kept,
    };
    Ok((entry, rest))
}

/// A put into a group with two parity columns.
fn read_second_put<'a>(bytes: &'a [u8], rack: &Rack, job: u32) -> Result<(Entry, &'a [u8]), Fault>
    requires { IsRack rack.now }
    ensures { Gives (λ x. (x.0, x.1.now)) result (reading (entry_of rack.now job 18) bytes.now) }
{
    let (stripe, column, after_place) = read_place(bytes, rack)?;
    let (digest, after_digest) = read_digest(after_place)?;
    let (parity_digest, after_parity) = read_digest(after_digest)?;
    let (second_digest, after_second) = read_digest(after_parity)?;
    let (kept, after_kept) = read_flag(after_second)?;
    let (kept2, rest) = read_flag(after_kept)?;
    let entry = Entry::Put2 {
        job,
        stripe,
        column,
        digest,
        parity_digest,
        second_digest,
        kept,
        kept2,
    };
    Ok((entry, rest))
}

/// The entry of a kind from 3 to 9, which says a place and no more.
fn placed(kind: u8, job: u32, stripe: u32, column: u8) -> Entry
    ensures { result ≡ placed kind job stripe column }
{
    match kind {
        3 => Entry::Seen {
            job,
            stripe,
            column,
        },
        4 => Entry::Gone {
            job,
            stripe,
            column,
        },
        5 => Entry::Broke {
            job,
            stripe,
            column,
        },
        6 => Entry::Fault {
            job,
            stripe,
            column,
        },
        7 => Entry::Begin {
            job,
            stripe,
            column,
        },
        8 => Entry::Hop {
            job,
            stripe,
            column,
        },
        _ => Entry::Mended {
            job,
            stripe,
            column,
        },
    }
}

/// An entry of a kind from 3 to 9.
fn read_placed<'a>(
    bytes: &'a [u8],
    rack: &Rack,
    job: u32,
    kind: u8,
) -> Result<(Entry, &'a [u8]), Fault>
    requires rack { IsRack rack.now }
    requires least { 3 ≤ kind }
    requires most { kind ≤ 9 }
    ensures { Gives (λ x. (x.0, x.1.now)) result (reading (entry_of rack.now job kind) bytes.now) }
{
    let (stripe, column, rest) = read_place(bytes, rack)?;
    Ok((placed(kind, job, stripe, column), rest))
}

/// A cursor that left a stripe.
fn read_skip<'a>(bytes: &'a [u8], rack: &Rack, job: u32) -> Result<(Entry, &'a [u8]), Fault>
    requires { IsRack rack.now }
    ensures { Gives (λ x. (x.0, x.1.now)) result (reading (entry_of rack.now job 2) bytes.now) }
{
    let (stripe, rest) = read_stripe(bytes, rack)?;
    let entry = Entry::Skip { job, stripe };
    Ok((entry, rest))
}

/// A relay that ended at a column.
fn read_gave_up<'a>(bytes: &'a [u8], rack: &Rack, job: u32) -> Result<(Entry, &'a [u8]), Fault>
    requires { IsRack rack.now }
    ensures { Gives (λ x. (x.0, x.1.now)) result (reading (entry_of rack.now job 10) bytes.now) }
{
    let (stripe, column, after_place) = read_place(bytes, rack)?;
    let (other, rest) = read_column(after_place, rack)?;
    let entry = Entry::GaveUp {
        job,
        stripe,
        column,
        other,
    };
    Ok((entry, rest))
}

/// A relay that ended with another block.
fn read_oddly<'a>(bytes: &'a [u8], rack: &Rack, job: u32) -> Result<(Entry, &'a [u8]), Fault>
    requires { IsRack rack.now }
    ensures { Gives (λ x. (x.0, x.1.now)) result (reading (entry_of rack.now job 11) bytes.now) }
{
    let (stripe, column, after_place) = read_place(bytes, rack)?;
    let (found, rest) = read_digest(after_place)?;
    let entry = Entry::Oddly {
        job,
        stripe,
        column,
        found,
    };
    Ok((entry, rest))
}

/// A relay that could not begin.
fn read_stuck<'a>(bytes: &'a [u8], rack: &Rack, job: u32) -> Result<(Entry, &'a [u8]), Fault>
    requires { IsRack rack.now }
    ensures { Gives (λ x. (x.0, x.1.now)) result (reading (entry_of rack.now job 12) bytes.now) }
{
    let (stripe, column, after_place) = read_place(bytes, rack)?;
    let (other, rest) = read_column(after_place, rack)?;
    let entry = Entry::Stuck {
        job,
        stripe,
        column,
        other,
    };
    Ok((entry, rest))
}

/// A column that began to move.
fn read_move_begin<'a>(bytes: &'a [u8], rack: &Rack, job: u32) -> Result<(Entry, &'a [u8]), Fault>
    requires { IsRack rack.now }
    ensures { Gives (λ x. (x.0, x.1.now)) result (reading (entry_of rack.now job 13) bytes.now) }
{
    let (column, after_column) = read_column(bytes, rack)?;
    let (to, rest) = read_at_most(after_column, 511)?;
    let entry = Entry::MoveBegin { job, column, to };
    Ok((entry, rest))
}

/// A move that went over a stripe.
fn read_moved<'a>(bytes: &'a [u8], rack: &Rack, job: u32) -> Result<(Entry, &'a [u8]), Fault>
    requires { IsRack rack.now }
    ensures { Gives (λ x. (x.0, x.1.now)) result (reading (entry_of rack.now job 14) bytes.now) }
{
    let (stripe, column, after_place) = read_place(bytes, rack)?;
    let (copied, rest) = read_flag(after_place)?;
    let entry = Entry::Moved {
        job,
        stripe,
        column,
        copied,
    };
    Ok((entry, rest))
}

/// A move that ended.
fn read_move_end<'a>(bytes: &'a [u8], rack: &Rack, job: u32) -> Result<(Entry, &'a [u8]), Fault>
    requires { IsRack rack.now }
    ensures { Gives (λ x. (x.0, x.1.now)) result (reading (entry_of rack.now job 15) bytes.now) }
{
    let (column, rest) = read_column(bytes, rack)?;
    let entry = Entry::MoveEnd { job, column };
    Ok((entry, rest))
}

/// A column that got another archive.
fn read_swapped<'a>(bytes: &'a [u8], rack: &Rack, job: u32) -> Result<(Entry, &'a [u8]), Fault>
    requires { IsRack rack.now }
    ensures { Gives (λ x. (x.0, x.1.now)) result (reading (entry_of rack.now job 16) bytes.now) }
{
    let (column, after_column) = read_column(bytes, rack)?;
    let (to, rest) = read_at_most(after_column, 511)?;
    let entry = Entry::Swapped { job, column, to };
    Ok((entry, rest))
}

/// What stands behind the kind and the job of an entry.
fn read_entry_of<'a>(
    bytes: &'a [u8],
    rack: &Rack,
    job: u32,
    kind: u8,
) -> Result<(Entry, &'a [u8]), Fault>
    requires rack { IsRack rack.now }
    requires least { 1 ≤ kind }
    requires most { kind ≤ 18 }
    ensures { Gives (λ x. (x.0, x.1.now)) result (reading (entry_of rack.now job kind) bytes.now) }
{
    match kind {
        1 => read_put(bytes, rack, job),
        2 => read_skip(bytes, rack, job),
        3..=9 => read_placed(bytes, rack, job, kind),
        10 => read_gave_up(bytes, rack, job),
        11 => read_oddly(bytes, rack, job),
        12 => read_stuck(bytes, rack, job),
        13 => read_move_begin(bytes, rack, job),
        14 => read_moved(bytes, rack, job),
        15 => read_move_end(bytes, rack, job),
        16 => read_swapped(bytes, rack, job),
        17 => Ok((Entry::Counted { job }, bytes)),
        _ => read_second_put(bytes, rack, job),
    }
}

/// How many kinds of entries a group's log has.
fn kinds(format: Format) -> u8
    ensures value { result ≡ kinds format }
    ensures most { result ≤ 18 }
{
    match format {
        Format::First => 17,
        Format::Second => 18,
    }
}

/// An entry of a group's log.
pub(crate) fn read_entry<'a>(
    bytes: &'a [u8],
    format: Format,
    rack: &Rack,
) -> Result<(Entry, &'a [u8]), Fault>
    requires { IsRack rack.now }
    ensures { Gives (λ x. (x.0, x.1.now)) result (reading (entry format rack.now) bytes.now) }
{
    let kinds = kinds(format);
    let (kind, after_kind) = read_byte(bytes, 1, kinds)?;
    let (job, after_job) = read_number(after_kind)?;
    let (entry, rest) = read_entry_of(after_job, rack, job, kind)?;
    Ok((entry, rest))
}
