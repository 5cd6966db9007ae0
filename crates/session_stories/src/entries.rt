//! Entries of logs in words: the kind, and the fields in the order in which an image has them.
use crate::words::short;
use pot_bytes::{Digest, Name};
use pot_index::IndexEntry;
use pot_machine::Entry;
use std::alloc::{AllocError, Global};
use std::str;

/// A kind with the fields of a slot.
fn at_slot(
    alloc: Global,
    kind: &str,
    job: u32,
    stripe: u32,
    column: u8,
) -> Result<String, AllocError> {
    format!(in alloc; "{kind} {job} {stripe} {column}")
}

/// A text with a column behind it.
fn beside(alloc: Global, text: &str, other: u8) -> Result<String, AllocError> {
    format!(in alloc; "{text} {other}")
}

/// A text with a digest behind it.
fn with_digest(alloc: Global, text: &str, digest: &Digest) -> Result<String, AllocError> {
    let digest = short(alloc, &digest.bytes)?;
    format!(in alloc; "{text} {digest}")
}

/// A text with a flag behind it.
fn with_flag(alloc: Global, text: &str, flag: bool) -> Result<String, AllocError> {
    format!(in alloc; "{text} {}", u8::from(flag))
}

/// A kind with the fields of a column and an archive.
fn to_archive(
    alloc: Global,
    kind: &str,
    job: u32,
    column: u8,
    to: u32,
) -> Result<String, AllocError> {
    format!(in alloc; "{kind} {job} {column} {to}")
}

/// The entry of a put.
fn put_entry(alloc: Global, entry: &Entry) -> Result<String, AllocError> {
    match *entry {
        Entry::Put {
            job,
            stripe,
            column,
            digest,
            parity_digest,
            kept,
        } => {
            let head = at_slot(alloc, "put", job, stripe, column)?;
            let head = with_digest(alloc, &head, &digest)?;
            let head = with_digest(alloc, &head, &parity_digest)?;
            with_flag(alloc, &head, kept)
        }
        Entry::Put2 {
            job,
            stripe,
            column,
            digest,
            parity_digest,
            second_digest,
            kept,
            kept2,
        } => {
            let head = at_slot(alloc, "put2", job, stripe, column)?;
            let head = with_digest(alloc, &head, &digest)?;
            let head = with_digest(alloc, &head, &parity_digest)?;
            let head = with_digest(alloc, &head, &second_digest)?;
            let head = with_flag(alloc, &head, kept)?;
            with_flag(alloc, &head, kept2)
        }
        Entry::Skip { job, stripe } => format!(in alloc; "skip {job} {stripe}"),
        _ => Ok(String::new(alloc)),
    }
}

/// The entry of a relay.
fn relay_entry(alloc: Global, entry: &Entry) -> Result<String, AllocError> {
    match *entry {
        Entry::Begin {
            job,
            stripe,
            column,
        } => at_slot(alloc, "begin", job, stripe, column),
        Entry::Hop {
            job,
            stripe,
            column,
        } => at_slot(alloc, "hop", job, stripe, column),
        Entry::Mended {
            job,
            stripe,
            column,
        } => at_slot(alloc, "mended", job, stripe, column),
        Entry::GaveUp {
            job,
            stripe,
            column,
            other,
        } => beside(
            alloc,
            &at_slot(alloc, "gaveup", job, stripe, column)?,
            other,
        ),
        Entry::Oddly {
            job,
            stripe,
            column,
            found,
        } => with_digest(
            alloc,
            &at_slot(alloc, "oddly", job, stripe, column)?,
            &found,
        ),
        Entry::Stuck {
            job,
            stripe,
            column,
            other,
        } => beside(alloc, &at_slot(alloc, "stuck", job, stripe, column)?, other),
        _ => put_entry(alloc, entry),
    }
}

/// The entry of a column that moves, or of a count.
fn move_entry(alloc: Global, entry: &Entry) -> Result<String, AllocError> {
    match *entry {
        Entry::MoveBegin { job, column, to } => to_archive(alloc, "movebegin", job, column, to),
        Entry::Moved {
            job,
            stripe,
            column,
            copied,
        } => with_flag(
            alloc,
            &at_slot(alloc, "moved", job, stripe, column)?,
            copied,
        ),
        Entry::MoveEnd { job, column } => format!(in alloc; "moveend {job} {column}"),
        Entry::Swapped { job, column, to } => to_archive(alloc, "swapped", job, column, to),
        Entry::Counted { job } => format!(in alloc; "counted {job}"),
        _ => relay_entry(alloc, entry),
    }
}

/// An entry of a group in words.
pub fn group_entry(alloc: Global, entry: &Entry) -> Result<String, AllocError> {
    match *entry {
        Entry::Seen {
            job,
            stripe,
            column,
        } => at_slot(alloc, "seen", job, stripe, column),
        Entry::Gone {
            job,
            stripe,
            column,
        } => at_slot(alloc, "gone", job, stripe, column),
        Entry::Broke {
            job,
            stripe,
            column,
        } => at_slot(alloc, "broke", job, stripe, column),
        Entry::Fault {
            job,
            stripe,
            column,
        } => at_slot(alloc, "fault", job, stripe, column),
        _ => move_entry(alloc, entry),
    }
}

/// A kind with the fields of a name.
fn at_name(alloc: Global, kind: &str, job: u32, name: &Name) -> Result<String, AllocError> {
    let name = str::from_utf8(name.bytes()).unwrap_or("");
    format!(in alloc; "{kind} {job} {name}")
}

/// An entry of the index in words.
pub fn index_entry(alloc: Global, entry: &IndexEntry) -> Result<String, AllocError> {
    match entry {
        IndexEntry::Reserve { job, name } => at_name(alloc, "reserve", *job, name),
        IndexEntry::Taken { job, name } => at_name(alloc, "taken", *job, name),
        IndexEntry::Publish { job, name, mark } => with_digest(
            alloc,
            &at_name(alloc, "publish", *job, name)?,
            mark,
        ),
        IndexEntry::Abandon { job, name } => at_name(alloc, "abandon", *job, name),
        IndexEntry::Find { job, name, found } => with_flag(
            alloc,
            &at_name(alloc, "find", *job, name)?,
            *found,
        ),
        IndexEntry::Listed { job } => format!(in alloc; "listed {job}"),
        IndexEntry::Renew { job, name, mark } => with_digest(
            alloc,
            &at_name(alloc, "renew", *job, name)?,
            mark,
        ),
        IndexEntry::Often { job, name } => at_name(alloc, "often", *job, name),
    }
}
