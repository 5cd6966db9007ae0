/// The format of an image, by the number that it carries.
#[derive(Clone, Copy, PartialEq, Eq, Debug)]
pub(crate) enum Format {
    /// Number 1: one parity column, and one split of the rack's geometry for each record.
    First,
    /// Number 2: one or two parity columns, and each split with its geometry.
    Second,
}
