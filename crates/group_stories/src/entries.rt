//! Entries of a group's log, as they are written.
use crate::outcomes::DigestText;
use pot_machine::Entry;
use std::alloc::{AllocError, Global};

/// Whether a parity block was kept.
fn kept_word(kept: bool) -> &'static str {
    if kept { "kept" } else { "unkept" }
}

/// An entry in words.
pub fn entry_text(alloc: Global, entry: &Entry) -> Result<String, AllocError> {
    if let Some(place) = at_place(entry) {
        let (word, job, stripe, column) = place;
        return format!(in alloc; "{word} {job} {stripe} {column}");
    }
    match *entry {
        Entry::Put {
            job,
            stripe,
            column,
            digest,
            parity_digest,
            kept,
        } => {
            let (of, parity) = (DigestText(digest), DigestText(parity_digest));
            let kept = kept_word(kept);
            format!(in alloc; "put {job} {stripe} {column} {of} {parity} {kept}")
        }
        Entry::Put2 {
            job,
            stripe,
            column,
            digest,
            parity_digest,
            second_digest,
            kept,
            kept2,
        } => {
            let (of, parity, second) = (
                DigestText(digest),
                DigestText(parity_digest),
                DigestText(second_digest),
            );
            let (kept, kept2) = (kept_word(kept), kept_word(kept2));
            format!(in alloc; "put2 {job} {stripe} {column} {of} {parity} {second} {kept} {kept2}")
        }
        _ => other_text(alloc, entry),
    }
}

/// The word of an entry that says no more than a place, with its job, its stripe and its column.
fn at_place(entry: &Entry) -> Option<(&'static str, u32, u32, u8)> {
    match *entry {
        Entry::Seen {
            job,
            stripe,
            column,
        } => Some(("seen", job, stripe, column)),
        Entry::Gone {
            job,
            stripe,
            column,
        } => Some(("gone", job, stripe, column)),
        Entry::Broke {
            job,
            stripe,
            column,
        } => Some(("broke", job, stripe, column)),
        Entry::Fault {
            job,
            stripe,
            column,
        } => Some(("fault", job, stripe, column)),
        Entry::Begin {
            job,
            stripe,
            column,
        } => Some(("begin", job, stripe, column)),
        Entry::Hop {
            job,
            stripe,
            column,
        } => Some(("hop", job, stripe, column)),
        Entry::Mended {
            job,
            stripe,
            column,
        } => Some(("mended", job, stripe, column)),
        _ => None,
    }
}

/// An entry of a relay's end, of a move or of the whole group, in words.
fn other_text(alloc: Global, entry: &Entry) -> Result<String, AllocError> {
    match *entry {
        Entry::Skip { job, stripe } => format!(in alloc; "skip {job} {stripe}"),
        Entry::GaveUp {
            job,
            stripe,
            column,
            other,
        } => format!(in alloc; "gave_up {job} {stripe} {column} {other}"),
        Entry::Oddly {
            job,
            stripe,
            column,
            found,
        } => {
            let found = DigestText(found);
            format!(in alloc; "oddly {job} {stripe} {column} {found}")
        }
        Entry::Stuck {
            job,
            stripe,
            column,
            other,
        } => format!(in alloc; "stuck {job} {stripe} {column} {other}"),
        Entry::Counted { job } => format!(in alloc; "counted {job}"),
        _ => move_text(alloc, entry),
    }
}

/// An entry of a move or of a swap, in words.
fn move_text(alloc: Global, entry: &Entry) -> Result<String, AllocError> {
    match *entry {
        Entry::MoveBegin { job, column, to } => {
            format!(in alloc; "move_begin {job} {column} {to}")
        }
        Entry::Moved {
            job,
            stripe,
            column,
            copied,
        } => {
            let copied = if copied { "copied" } else { "passed" };
            format!(in alloc; "moved {job} {stripe} {column} {copied}")
        }
        Entry::MoveEnd { job, column } => format!(in alloc; "move_end {job} {column}"),
        Entry::Swapped { job, column, to } => format!(in alloc; "swapped {job} {column} {to}"),
        _ => format!(in alloc; "another entry"),
    }
}

/// What the entry tells of calls that failed: of a Fault its place, and the place of each parity
/// block that was not kept. `first` is the column of the first parity block.
pub fn told_by(alloc: Global, entry: &Entry, first: u8) -> Result<Option<String>, AllocError> {
    match *entry {
        Entry::Fault { stripe, column, .. } => Ok(Some(format!(in alloc;
            "fault {stripe} {column}"
        )?)),
        Entry::Put { stripe, kept, .. } => unkept(alloc, stripe, first, (kept, true)),
        Entry::Put2 {
            stripe,
            kept,
            kept2,
            ..
        } => unkept(alloc, stripe, first, (kept, kept2)),
        _ => Ok(None),
    }
}

/// The places of the parity blocks of a stripe that were not kept.
fn unkept(
    alloc: Global,
    stripe: u32,
    first: u8,
    kept: (bool, bool),
) -> Result<Option<String>, AllocError> {
    let second = first.saturating_add(1);
    match kept {
        (true, true) => Ok(None),
        (false, true) => Ok(Some(format!(in alloc; "unkept {stripe} {first}")?)),
        (true, false) => Ok(Some(format!(in alloc; "unkept {stripe} {second}")?)),
        (false, false) => Ok(Some(format!(in alloc;
            "unkept {stripe} {first}, unkept {stripe} {second}"
        )?)),
    }
}
