//! Where a group is filled.

/// Where the next put goes.
#[derive(Clone, Copy, PartialEq, Eq, Debug)]
pub struct Cursor {
    /// The stripe, or the number of stripes where the group is full.
    pub stripe: u32,
    /// The data column, or 0 where the group is full.
    pub column: u8,
}
