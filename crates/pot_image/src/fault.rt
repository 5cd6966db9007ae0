//! Why an image could not be read.
ghost use Rattle.std.specs.Prelude.{◌≡◌, length};
ghost use Rattle.pot_image.specs.declared.fault.Fault.TheVariants.{Form, Memory};

use pot_bytes::{Digest, NoMemory};
use std::alloc::{AllocError, AllocFailed};

/// Why bytes are no image.
#[derive(Clone, Copy, PartialEq, Eq, Debug)]
pub enum ImageFault {
    /// There are fewer than 48 bytes, or fewer than the image says that it has.
    Cut,
    /// The last 32 bytes are not the digest of all before.
    Trailer { kept: Digest, computed: Digest },
    /// The field at this place breaks its rule or does not end, or the image should end there.
    Form { place: u64 },
    NoMemory,
}

/// Why a part of an image could not be read.
#[derive(Clone, Copy, PartialEq, Eq, Debug)]
pub(crate) enum Fault {
    /// A field breaks its rule or does not end. So many bytes are left from its first one on.
    Form { left: usize },
    Memory,
}

impl Fault {
    /// The field at the front of these bytes breaks its rule or does not end.
    pub(crate) fn at(bytes: &[u8]) -> Fault
        ensures { result ≡ Form (length bytes.now) }
    {
        Fault::Form { left: bytes.len() }
    }
}

impl From<AllocError> for Fault {
    ghost from_gives = { λ _ e. e ≡ Memory };

    fn from(_: AllocError) -> Fault {
        Fault::Memory
    }
}

impl<T: Drop> From<AllocFailed<T>> for Fault {
    ghost from_gives = { λ _ e. e ≡ Memory };

    fn from(_: AllocFailed<T>) -> Fault {
        Fault::Memory
    }
}

impl From<NoMemory> for Fault {
    ghost from_gives = { λ _ e. e ≡ Memory };

    fn from(_: NoMemory) -> Fault {
        Fault::Memory
    }
}
