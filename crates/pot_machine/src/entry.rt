//! The entries of a group's log.
use pot_bytes::Digest;

/// An entry of a group's log.
///
/// `job` is the number of the job that logged it, 0 for the opening. `stripe` and `column` name the
/// slot that it speaks of. `digest` is that of the block that was put, `parity_digest` and
/// `second_digest` are those of the new blocks of P and Q, and `kept` and `kept2` say whether these
/// were written. `other` is the column that was in the way, `found` the digest of the block that a
/// relay came to, `to` the number of an archive, and `copied` says whether the block was copied.
#[derive(Clone, Copy, PartialEq, Eq, Debug)]
pub enum Entry {
    /// A block was put, and the one parity block changed.
    Put {
        job: u32,
        stripe: u32,
        column: u8,
        digest: Digest,
        parity_digest: Digest,
        kept: bool,
    },
    /// The cursor left a stripe that takes no put.
    Skip {
        job: u32,
        stripe: u32,
    },
    /// A block of the slot's digest was read.
    Seen {
        job: u32,
        stripe: u32,
        column: u8,
    },
    /// The slot's block is missing.
    Gone {
        job: u32,
        stripe: u32,
        column: u8,
    },
    /// The opening found that the stripe does not give the slot's block back.
    Broke {
        job: u32,
        stripe: u32,
        column: u8,
    },
    /// A call on the slot's archive failed.
    Fault {
        job: u32,
        stripe: u32,
        column: u8,
    },
    /// A relay began.
    Begin {
        job: u32,
        stripe: u32,
        column: u8,
    },
    /// The stripe's relay went over a column.
    Hop {
        job: u32,
        stripe: u32,
        column: u8,
    },
    /// The stripe's relay ended, and its target was written.
    Mended {
        job: u32,
        stripe: u32,
        column: u8,
    },
    /// The stripe's relay ended at a column whose block is missing.
    GaveUp {
        job: u32,
        stripe: u32,
        column: u8,
        other: u8,
    },
    /// The stripe's relay ended with a block of another digest.
    Oddly {
        job: u32,
        stripe: u32,
        column: u8,
        found: Digest,
    },
    /// No relay can begin: another slot is Lost or Broken.
    Stuck {
        job: u32,
        stripe: u32,
        column: u8,
        other: u8,
    },
    /// A column began to move.
    MoveBegin {
        job: u32,
        column: u8,
        to: u32,
    },
    /// A move went over a stripe.
    Moved {
        job: u32,
        stripe: u32,
        column: u8,
        copied: bool,
    },
    /// A move ended.
    MoveEnd {
        job: u32,
        column: u8,
    },
    /// A column got another archive.
    Swapped {
        job: u32,
        column: u8,
        to: u32,
    },
    /// The slots were counted.
    Counted {
        job: u32,
    },
    /// A block was put, and both parity blocks changed.
    Put2 {
        job: u32,
        stripe: u32,
        column: u8,
        digest: Digest,
        parity_digest: Digest,
        second_digest: Digest,
        kept: bool,
        kept2: bool,
    },
}
