//! Why a call that mends a group or moves a column did not come to its end.

/// Why a call did not come to its end. What it did before stands.
#[derive(Clone, Copy, PartialEq, Eq, Debug)]
pub enum MendFault {
    /// The archive of this column failed.
    Faulted { group: u8, column: u8 },
    /// The log of the group has no room.
    LogFull { group: u8 },
}
