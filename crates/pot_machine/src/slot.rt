//! The states of a slot.
ghost use Rattle.std.specs.Prelude.{◌≡◌, ◌↔◌, IsTrue, Some};
ghost use Rattle.pot_machine.specs.Slot.{digest_in, is_void, is_live, lost_of, broken_of, live_of};
ghost use Rattle.pot_machine.specs.Slot.{parity_slot, meets};

use pot_bytes::Digest;

/// What a table knows of one slot.
#[derive(Clone, Copy, PartialEq, Eq, Debug)]
pub enum SlotState {
    /// Nothing was put there.
    Void,
    /// A block of this digest was put there, and nothing speaks against it.
    Live(Digest),
    /// A block of this digest was put there, and it is missing.
    Lost(Digest),
    /// A block of this digest was put there, and its stripe does not give it back.
    Broken(Digest),
}

/// A question about one slot.
#[derive(Clone, Copy)]
pub(crate) enum Condition {
    Lost,
    Broken,
    Unsound,
}

impl SlotState {
    /// Whether the slot is Void.
    pub fn is_void(self) -> bool
        ensures { result ≡ is_void self }
    {
        match self {
            SlotState::Void => true,
            SlotState::Live(_) => false,
            SlotState::Lost(_) => false,
            SlotState::Broken(_) => false,
        }
    }

    /// Whether the slot is Live.
    pub fn is_live(self) -> bool
        ensures { result ≡ is_live self }
    {
        match self {
            SlotState::Void => false,
            SlotState::Live(_) => true,
            SlotState::Lost(_) => false,
            SlotState::Broken(_) => false,
        }
    }

    /// Whether a block of this digest was put there.
    pub fn has_digest(self, digest: Digest) -> bool
        ensures { IsTrue result ↔ (digest_in self ≡ Some digest) }
    {
        match self {
            SlotState::Void => false,
            SlotState::Live(own) => own == digest,
            SlotState::Lost(own) => own == digest,
            SlotState::Broken(own) => own == digest,
        }
    }

    /// Whether the condition is met.
    pub(crate) fn meets(self, condition: Condition) -> bool
        ensures { result ≡ meets condition self }
    {
        match self {
            SlotState::Void => false,
            SlotState::Live(_) => false,
            SlotState::Lost(_) => match condition {
                Condition::Lost => true,
                Condition::Broken => false,
                Condition::Unsound => true,
            },
            SlotState::Broken(_) => match condition {
                Condition::Lost => false,
                Condition::Broken => true,
                Condition::Unsound => true,
            },
        }
    }

    /// The slot after its block went missing: Live becomes Lost, and all else stays.
    pub(crate) fn lost(self) -> SlotState
        ensures { result ≡ lost_of self }
    {
        match self {
            SlotState::Void => SlotState::Void,
            SlotState::Live(digest) => SlotState::Lost(digest),
            SlotState::Lost(digest) => SlotState::Lost(digest),
            SlotState::Broken(digest) => SlotState::Broken(digest),
        }
    }

    /// The slot after its stripe proved to be unable to give its block back.
    pub(crate) fn broken(self) -> SlotState
        ensures { result ≡ broken_of self }
    {
        match self {
            SlotState::Void => SlotState::Void,
            SlotState::Live(digest) => SlotState::Broken(digest),
            SlotState::Lost(digest) => SlotState::Broken(digest),
            SlotState::Broken(digest) => SlotState::Broken(digest),
        }
    }

    /// The slot after its block was written again.
    pub(crate) fn live(self) -> SlotState
        ensures { result ≡ live_of self }
    {
        match self {
            SlotState::Void => SlotState::Void,
            SlotState::Live(digest) => SlotState::Live(digest),
            SlotState::Lost(digest) => SlotState::Live(digest),
            SlotState::Broken(digest) => SlotState::Live(digest),
        }
    }

    /// A parity slot after a put.
    pub(crate) fn parity(digest: Digest, kept: bool) -> SlotState
        ensures { result ≡ parity_slot digest kept }
    {
        if kept {
            SlotState::Live(digest)
        } else {
            SlotState::Lost(digest)
        }
    }
}
