//! Why the index refuses.
ghost use Rattle.std.specs.Prelude.{◌≡◌};

use crate::record::Record;
use pot_bytes::NoMemory;

/// Why a name is not reserved.
#[derive(Clone, Copy, PartialEq, Eq, Debug)]
pub enum ReserveFault {
    /// The log has no room for two more entries beside those that it owes to the reserved names.
    LogFull,
    /// The name is published or reserved.
    Exists,
    NoMemory,
}

/// Why a record is not found.
#[derive(Clone, Copy, PartialEq, Eq, Debug)]
pub enum FindFault {
    /// The log has no room for one more entry beside those that it owes to the reserved names.
    LogFull,
    /// The name is not published.
    Absent,
    NoMemory,
}

/// Why the names are not listed.
#[derive(Clone, Copy, PartialEq, Eq, Debug)]
pub enum ListFault {
    /// The log has no room for one more entry beside those that it owes to the reserved names.
    LogFull,
    NoMemory,
}

/// Why a record gets no new split.
#[derive(Clone, Copy, PartialEq, Eq, Debug)]
pub enum RenewFault {
    /// The log has no room for one more entry beside those that it owes to the reserved names.
    LogFull,
    /// The record has 16 splits.
    TooOften,
    NoMemory,
}

/// The index was not begun for want of memory. The records come back as they were.
#[derive(Drop)]
pub struct IndexRefused {
    pub records: Vec<Record>,
}

impl From<NoMemory> for ReserveFault {
    ghost use Rattle.pot_index.specs.declared.fault.ReserveFault.TheVariants.{NoMemory};

    ghost from_gives = { λ _ e. e ≡ NoMemory };

    fn from(_: NoMemory) -> Self {
        ReserveFault::NoMemory
    }
}

impl From<NoMemory> for FindFault {
    ghost use Rattle.pot_index.specs.declared.fault.FindFault.TheVariants.{NoMemory};

    ghost from_gives = { λ _ e. e ≡ NoMemory };

    fn from(_: NoMemory) -> Self {
        FindFault::NoMemory
    }
}

impl From<NoMemory> for ListFault {
    ghost use Rattle.pot_index.specs.declared.fault.ListFault.TheVariants.{NoMemory};

    ghost from_gives = { λ _ e. e ≡ NoMemory };

    fn from(_: NoMemory) -> Self {
        ListFault::NoMemory
    }
}

impl From<NoMemory> for RenewFault {
    ghost use Rattle.pot_index.specs.declared.fault.RenewFault.TheVariants.{NoMemory};

    ghost from_gives = { λ _ e. e ≡ NoMemory };

    fn from(_: NoMemory) -> Self {
        RenewFault::NoMemory
    }
}
