//! The kinds of lines, each with its first word.

ghost use Rattle.std.specs.Prelude.{◌≡◌, ◌≢◌, MatchOption};
ghost use Rattle.pot_script.specs.Kinds.{keyword};
ghost use Rattle.pot_script.specs.declared.kind.Kind.{Kind};

/// A kind of line. The first word of a line tells its kind.
#[derive(Clone, Copy)]
pub enum Kind {
    Store,
    Fetch,
    List,
    Status,
    Scrub,
    Repair,
    Replace,
    Migrate,
    Together,
    End,
    Renew,
    Quit,
}

const KINDS: [Kind; 12] = [
    Kind::Store,
    Kind::Fetch,
    Kind::List,
    Kind::Status,
    Kind::Scrub,
    Kind::Repair,
    Kind::Replace,
    Kind::Migrate,
    Kind::Together,
    Kind::End,
    Kind::Renew,
    Kind::Quit,
];

impl Kind {
    /// The kind of the lines that begin with this word. None exactly where no line does.
    pub fn read(word: &[u8]) -> Option<Kind>
        ensures { MatchOption result ((kind : Kind) → word.now ≢ keyword kind)
            (λ kind. word.now ≡ keyword kind) }
    {
        for kind in KINDS {
            if kind.keyword() == word {
                return Some(kind);
            }
        }
        None
    }

    // The first word of its lines.
    fn keyword(self) -> &'static [u8]
        ensures { result.now ≡ keyword self }
    {
        match self {
            Kind::Store => b"store",
            Kind::Fetch => b"fetch",
            Kind::List => b"list",
            Kind::Status => b"status",
            Kind::Scrub => b"scrub",
            Kind::Repair => b"repair",
            Kind::Replace => b"replace",
            Kind::Migrate => b"migrate",
            Kind::Together => b"together",
            Kind::End => b"end",
            Kind::Renew => b"renew",
            Kind::Quit => b"quit",
        }
    }
}
