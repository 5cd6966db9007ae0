//! What the calls of a group answer.

/// Why a put did not place its block.
#[derive(Clone, Copy, PartialEq, Eq, Debug)]
pub enum PutFault {
    /// The log was full at once, or a stripe is still to be tried and the log has no room for its
    /// entry. Nothing was written.
    LogFull,
    /// No stripe is left. Nothing was written.
    Full,
    /// The archive of this column failed.
    Faulted { column: u8 },
}

/// What a look came to.
#[derive(Clone, Copy, PartialEq, Eq, Debug)]
pub enum Looked {
    /// The slot is Live, and its block was read.
    Seen,
    /// The slot is not Live, or its archive has no block of its digest.
    Gone,
    /// The archive of this column failed.
    Faulted { column: u8 },
    /// The log has no room. Nothing changed.
    LogFull,
}
