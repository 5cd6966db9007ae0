/// A column of a group.
#[derive(Clone, Copy, PartialEq, Eq, Debug, Default)]
pub struct Spot {
    /// The number of the group.
    pub group: u8,
    /// The number of the column: the parity columns stand behind the data columns.
    pub column: u8,
}
