//! Why a story does not go on.
use std::alloc::{AllocError, AllocFailed};

/// Why a step was not taken.
#[derive(Clone, Copy, PartialEq, Eq, Debug)]
pub enum Fault {
    /// The line is no step, or none that can be taken here.
    NoStep,
    NoMemory,
}

impl From<AllocError> for Fault {
    fn from(_: AllocError) -> Self {
        Fault::NoMemory
    }
}

impl<T: Drop> From<AllocFailed<T>> for Fault {
    fn from(_: AllocFailed<T>) -> Self {
        Fault::NoMemory
    }
}

/// A story that did not go on at this place.
#[derive(Clone, Copy, PartialEq, Eq, Debug)]
pub struct Stuck {
    pub at: usize,
    pub fault: Fault,
}
