//! The kinds of replies, each with its first word.

ghost use Rattle.std.specs.Prelude.{◌≡◌, ◌≢◌, MatchOption};
ghost use Rattle.pot_client.specs.ReplyKinds.{keyword};
ghost use Rattle.pot_client.specs.declared.kind.ReplyKind.{ReplyKind};

/// A kind of reply. The first word of a reply tells its kind.
#[derive(Clone, Copy)]
pub enum ReplyKind {
    Stored,
    File,
    Names,
    Group,
    Scrubbed,
    Repaired,
    Replaced,
    Migrated,
    Long,
    Exists,
    Full,
    Absent,
    Lost,
    Odd,
    Fault,
    LogFull,
    NoArchive,
    InUse,
    Renewed,
    Often,
}

const KINDS: [ReplyKind; 20] = [
    ReplyKind::Stored,
    ReplyKind::File,
    ReplyKind::Names,
    ReplyKind::Group,
    ReplyKind::Scrubbed,
    ReplyKind::Repaired,
    ReplyKind::Replaced,
    ReplyKind::Migrated,
    ReplyKind::Long,
    ReplyKind::Exists,
    ReplyKind::Full,
    ReplyKind::Absent,
    ReplyKind::Lost,
    ReplyKind::Odd,
    ReplyKind::Fault,
    ReplyKind::LogFull,
    ReplyKind::NoArchive,
    ReplyKind::InUse,
    ReplyKind::Renewed,
    ReplyKind::Often,
];

impl ReplyKind {
    /// The kind of the replies that begin with this word. None exactly where no reply does.
    pub fn read(word: &[u8]) -> Option<ReplyKind>
        ensures { MatchOption result ((kind : ReplyKind) → word.now ≢ keyword kind)
            (λ kind. word.now ≡ keyword kind) }
    {
        for kind in KINDS {
            if kind.keyword() == word {
                return Some(kind);
            }
        }
        None
    }

    // The first word of its replies.
    fn keyword(self) -> &'static [u8]
        ensures { result.now ≡ keyword self }
    {
        match self {
            ReplyKind::Stored => b"stored",
            ReplyKind::File => b"file",
            ReplyKind::Names => b"names",
            ReplyKind::Group => b"group",
            ReplyKind::Scrubbed => b"scrubbed",
            ReplyKind::Repaired => b"repaired",
            ReplyKind::Replaced => b"replaced",
            ReplyKind::Migrated => b"migrated",
            ReplyKind::Long => b"long",
            ReplyKind::Exists => b"exists",
            ReplyKind::Full => b"full",
            ReplyKind::Absent => b"absent",
            ReplyKind::Lost => b"lost",
            ReplyKind::Odd => b"odd",
            ReplyKind::Fault => b"fault",
            ReplyKind::LogFull => b"logfull",
            ReplyKind::NoArchive => b"noarchive",
            ReplyKind::InUse => b"inuse",
            ReplyKind::Renewed => b"renewed",
            ReplyKind::Often => b"often",
        }
    }
}
