//! How a call of the program ended.

ghost use Rattle.std.specs.Prelude.{◌≡◌};

/// The status of a call of the program.
#[derive(Clone, Copy, PartialEq, Eq, Debug)]
pub enum Status {
    /// All that was asked for was answered, and no reply is a refusal.
    Good,
    /// As `Good`, but some reply is a refusal, some file is partial, or some piece is exposed.
    Refusals,
    /// The words of the command line spell no task, or a column that the rack has not.
    WordsRefused,
    /// The script leaves its grammar, or the source of a drill has no two files of one length.
    ScriptRefused,
    /// The source failed.
    SourceFault,
    /// The sink failed.
    SinkFault,
    /// The desk failed.
    DeskFault,
    /// The desk holds no image that can be read.
    ImageRefused,
    /// The room failed, or an archive that `recover` read.
    RoomFault,
    /// No number is left for a session, or no room for its records.
    SessionSpent,
    /// A new archive was asked for, and the desk holds an image.
    ImageExists,
    /// Recovery has too many chains or choices.
    TooWide,
    NoMemory,
}

impl Status {
    ghost use Rattle.pot_session.specs.Stops.{code_of};

    /// Its number, the exit status of the program.
    pub(crate) fn code(self) -> u8
        ensures { result ≡ code_of self }
    {
        match self {
            Status::Good => 0,
            Status::Refusals => 1,
            Status::WordsRefused => 2,
            Status::ScriptRefused => 3,
            Status::SourceFault => 4,
            Status::SinkFault => 5,
            Status::DeskFault => 6,
            Status::ImageRefused => 7,
            Status::RoomFault => 8,
            Status::SessionSpent => 9,
            Status::ImageExists => 10,
            Status::TooWide => 11,
            Status::NoMemory => 70,
        }
    }
}
