//! Why a call of the program stops, and what it writes then.

ghost use Rattle.std.specs.Prelude.{◌≡◌, IfOk};
ghost use Rattle.pot_session.specs.Stops.{status_of, stop_text};

use crate::ending::status::Status;
use pot_bytes::{Digest, NoMemory};
use pot_script::{append_digest, append_number, print_bad_line, print_words_refused};
use std::alloc::{AllocError, Global};

/// Why a call stops, before its commands or at its close.
#[derive(Clone, Copy, PartialEq, Eq, Debug)]
pub enum Stop {
    /// The words spell no task, or a column that the rack has not.
    Words,
    /// The source failed.
    SourceFault,
    /// The script leaves its grammar at this line; 0 where it is too long, or the source of a drill
    /// has no two files of one length.
    BadLine { number: u32 },
    /// The desk failed.
    DeskFault,
    /// The desk holds no image.
    NoImage,
    /// The desk's image has fewer bytes than it says.
    Cut,
    /// The last bytes of the image are not the digest of all before.
    Trailer { kept: Digest, computed: Digest },
    /// The field of the image at this place breaks its rule or does not end.
    Form { place: u64 },
    /// The image is that of the last session that there can be: its number is the last one, or
    /// its records leave no room for those of one more.
    Spent,
    /// The desk holds an image already.
    Exists,
    /// The room failed, or an archive that `recover` read.
    RoomFault,
    /// Recovery has too many chains or choices.
    TooWide,
    NoMemory,
}

impl From<NoMemory> for Stop {
    ghost use Rattle.std.specs.Prelude.{◌≡◌};
    ghost use Rattle.pot_session.specs.declared.ending.stop.Stop.TheVariants as stop;

    ghost from_gives = { λ _ e. e ≡ stop.NoMemory };

    fn from(_: NoMemory) -> Stop {
        Stop::NoMemory
    }
}

impl From<AllocError> for Stop {
    ghost use Rattle.std.specs.Prelude.{◌≡◌};
    ghost use Rattle.pot_session.specs.declared.ending.stop.Stop.TheVariants as stop;

    ghost from_gives = { λ _ e. e ≡ stop.NoMemory };

    fn from(_: AllocError) -> Stop {
        Stop::NoMemory
    }
}

impl Stop {
    /// The status that it gives.
    pub(crate) fn status(self) -> Status
        ensures { result ≡ status_of self }
    {
        match self {
            Stop::Words => Status::WordsRefused,
            Stop::SourceFault => Status::SourceFault,
            Stop::BadLine { .. } => Status::ScriptRefused,
            Stop::DeskFault => Status::DeskFault,
            Stop::NoImage | Stop::Cut | Stop::Trailer { .. } | Stop::Form { .. } => {
                Status::ImageRefused
            }
            Stop::Spent => Status::SessionSpent,
            Stop::Exists => Status::ImageExists,
            Stop::RoomFault => Status::RoomFault,
            Stop::TooWide => Status::TooWide,
            Stop::NoMemory => Status::NoMemory,
        }
    }
}

/// The text that is written for it, which is empty where nothing is.
pub(crate) fn text_of(alloc: Global, stop: Stop) -> Result<Vec<u8>, NoMemory>
    ensures { IfOk result (λ v. v.items ≡ stop_text stop) }
{
    let mut text = Vec::new(alloc);
    match stop {
        Stop::Words => print_words_refused(&mut text)?,
        Stop::BadLine { number } => print_bad_line(number, &mut text)?,
        Stop::NoImage => text.extend_from_slice(b"image refused none\n")?,
        Stop::Cut => text.extend_from_slice(b"image refused cut\n")?,
        Stop::Trailer { kept, computed } => {
            text.extend_from_slice(b"image refused trailer")?;
            append_digest(&mut text, &kept)?;
            append_digest(&mut text, &computed)?;
            text.extend_from_slice(b"\n")?;
        }
        Stop::Form { place } => {
            text.extend_from_slice(b"image refused form")?;
            append_number(&mut text, place)?;
            text.extend_from_slice(b"\n")?;
        }
        Stop::Spent => text.extend_from_slice(b"session spent\n")?,
        Stop::Exists => text.extend_from_slice(b"image exists\n")?,
        Stop::TooWide => text.extend_from_slice(b"too wide\n")?,
        Stop::SourceFault | Stop::DeskFault | Stop::RoomFault | Stop::NoMemory => {}
    }
    Ok(text)
}
