//! How the entries of a group's log are written.
ghost use Rattle.std.specs.Prelude.{◌≡◌, ◌++◌, OnOk};
ghost use Rattle.pot_image.specs.Rules.{IsJob, IsWholeEntry};
ghost use Rattle.pot_image.specs.Spelling.{lead_bytes, place_bytes, entry_bytes};

use crate::writing::{append_digest, append_flag, append_number, append_place};
use pot_machine::Entry;
use std::alloc::AllocError;

/// The kind of an entry and its job.
pub(crate) fn append_lead(out: &mut Vec<u8>, kind: u8, job: u32) -> Result<(), AllocError>
    ensures bytes { OnOk result (out.new.items ≡ out.old.items ++ lead_bytes kind job) }
    ensures whole { IsJob job }
{
    out.extend_from_slice(&[kind])?;
    append_number(out, job)
}

/// A kind, a job, a stripe and a column.
fn append_placed(
    out: &mut Vec<u8>,
    kind: u8,
    job: u32,
    stripe: u32,
    column: u8,
) -> Result<(), AllocError>
    ensures bytes { OnOk result
        (out.new.items ≡ out.old.items ++ (lead_bytes kind job ++ place_bytes stripe column)) }
    ensures whole { IsJob job }
{
    append_lead(out, kind, job)?;
    append_place(out, stripe, column)
}

/// An entry.
#[tactic(auto, unfolding(crate::specs::Spelling::entry_bytes))]
pub(crate) fn append_entry(out: &mut Vec<u8>, entry: &Entry) -> Result<(), AllocError>
    ensures bytes { OnOk result (out.new.items ≡ out.old.items ++ entry_bytes entry.now) }
    ensures whole { OnOk result (IsWholeEntry entry.now) }
{
    match *entry {
        Entry::Put {
            job,
            stripe,
            column,
            digest,
            parity_digest,
            kept,
        } => {
            append_placed(out, 1, job, stripe, column)?;
            append_digest(out, digest)?;
            append_digest(out, parity_digest)?;
            append_flag(out, kept)
        }
        Entry::Skip { job, stripe } => {
            append_lead(out, 2, job)?;
            append_number(out, stripe)
        }
        Entry::Seen {
            job,
            stripe,
            column,
        } => append_placed(out, 3, job, stripe, column),
        Entry::Gone {
            job,
            stripe,
            column,
        } => append_placed(out, 4, job, stripe, column),
        Entry::Broke {
            job,
            stripe,
            column,
        } => append_placed(out, 5, job, stripe, column),
        Entry::Fault {
            job,
            stripe,
            column,
        } => append_placed(out, 6, job, stripe, column),
        Entry::Begin {
            job,
            stripe,
            column,
        } => append_placed(out, 7, job, stripe, column),
        Entry::Hop {
            job,
            stripe,
            column,
        } => append_placed(out, 8, job, stripe, column),
        Entry::Mended {
            job,
            stripe,
            column,
        } => append_placed(out, 9, job, stripe, column),
        Entry::GaveUp {
            job,
            stripe,
            column,
            other,
        } => {
            append_placed(out, 10, job, stripe, column)?;
            out.extend_from_slice(&[other])
        }
        Entry::Oddly {
            job,
            stripe,
            column,
            found,
        } => {
            append_placed(out, 11, job, stripe, column)?;
            append_digest(out, found)
        }
        Entry::Stuck {
            job,
            stripe,
            column,
            other,
        } => {
            append_placed(out, 12, job, stripe, column)?;
            out.extend_from_slice(&[other])
        }
        Entry::MoveBegin { job, column, to } => {
            append_lead(out, 13, job)?;
            out.extend_from_slice(&[column])?;
            append_number(out, to)
        }
        Entry::Moved {
            job,
            stripe,
            column,
            copied,
        } => {
            append_placed(out, 14, job, stripe, column)?;
            append_flag(out, copied)
        }
        Entry::MoveEnd { job, column } => {
            append_lead(out, 15, job)?;
            out.extend_from_slice(&[column])
        }
        Entry::Swapped { job, column, to } => {
            append_lead(out, 16, job)?;
            out.extend_from_slice(&[column])?;
            append_number(out, to)
        }
        Entry::Counted { job } => append_lead(out, 17, job),
        Entry::Put2 {
            job,
            stripe,
            column,
            digest,
            parity_digest,
            second_digest,
            kept,
            kept2,
        } => {
            append_placed(out, 18, job, stripe, column)?;
            append_digest(out, digest)?;
            append_digest(out, parity_digest)?;
            append_digest(out, second_digest)?;
            append_flag(out, kept)?;
            append_flag(out, kept2)
        }
    }
}
