/// A column of a group of archives.
#[derive(Clone, Copy, PartialEq, Eq, Debug, Default)]
pub struct Spot {
    /// The number of the group, at most 15.
    pub group: u8,
    /// The number of the column, at most 17: 16 data columns and two parity columns.
    pub column: u8,
}
