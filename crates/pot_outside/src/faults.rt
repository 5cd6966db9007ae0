/// The object failed. Its count of faults rose in the call that answers this.
#[derive(Clone, Copy, PartialEq, Eq, Debug)]
pub struct Failed;

/// Why a room could not give an archive.
#[derive(Clone, Copy, PartialEq, Eq, Debug)]
pub enum RoomFault {
    /// The room failed. Its count of faults rose, and that of its own failures.
    Failed,
    NoMemory,
}

/// Why a desk could not read its image.
#[derive(Clone, Copy, PartialEq, Eq, Debug)]
pub enum DeskFault {
    /// The desk failed. Its count of faults rose.
    Failed,
    NoMemory,
}
