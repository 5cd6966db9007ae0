ghost use Rattle.std.specs.Prelude.{◌≡◌};

use pot_bytes::{Bytes, Digest, Name, Sequence};
use pot_index::Listed;

/// Published names with the lengths of their files, in the order in which they are printed.
pub type NameList = Sequence<Listed>;

/// What a command of the script answers.
#[derive(Drop)]
pub enum Reply {
    /// The file is stored in this many pieces and shards.
    Stored {
        name: Name,
        pieces: u32,
        shards: u32,
    },
    /// The bytes of a stored file.
    File {
        name: Name,
        bytes: Bytes,
    },
    /// The names that are stored.
    Names {
        names: NameList,
    },
    /// How a group stands: its Live, Lost and Broken slots, and where its next block goes.
    Group {
        group: u8,
        live: u32,
        lost: u32,
        broken: u32,
        stripe: u32,
        column: u8,
    },
    /// Of the group's blocks so many were seen, and so many are gone.
    Scrubbed {
        group: u8,
        seen: u32,
        gone: u32,
    },
    /// Of the group's lost blocks so many were rebuilt, and so many are left.
    Repaired {
        group: u8,
        mended: u32,
        left: u32,
    },
    /// The second archive stands in for the first, at so many slots.
    Replaced {
        from: u32,
        to: u32,
        slots: u32,
    },
    /// So many slots of the first archive were copied to the second.
    Migrated {
        from: u32,
        to: u32,
        slots: u32,
    },
    /// The file of a store line is longer, in bytes, than a file may be.
    Long {
        name: Name,
        length: u64,
    },
    /// A file of this name is stored already.
    Exists {
        name: Name,
    },
    /// The group has no slot left.
    Full {
        group: u8,
    },
    /// No file of this name is stored.
    Absent {
        name: Name,
    },
    /// Of one fragment of a piece fewer shards can be had than it needs.
    Lost {
        name: Name,
        piece: u32,
        fragment: u8,
        have: u8,
        need: u8,
    },
    /// The bytes that were had are not those that were stored: their digests differ.
    Odd {
        name: Name,
        wanted: Digest,
        found: Digest,
    },
    /// The archive of a group's column failed.
    Fault {
        group: u8,
        column: u8,
    },
    /// The log of a group is full.
    LogFull {
        group: u8,
    },
    /// The log of the index is full.
    IndexLogFull,
    /// No column of a group is on this archive.
    NoArchive {
        number: u32,
    },
    /// The archive is in use.
    InUse {
        number: u32,
    },
    /// The file is split anew, in this many pieces and shards.
    Renewed {
        name: Name,
        pieces: u32,
        shards: u32,
    },
    /// The file was split anew as often as a file may be.
    Often {
        name: Name,
    },
}

impl Reply {
    ghost use Rattle.pot_script.specs.Replies.{is_refusal};

    /// Whether the command was refused.
    pub fn is_refusal(&self) -> bool
        ensures { result ≡ is_refusal self.now }
    {
        match self {
            Reply::Stored { .. }
            | Reply::File { .. }
            | Reply::Names { .. }
            | Reply::Group { .. }
            | Reply::Scrubbed { .. }
            | Reply::Repaired { .. }
            | Reply::Replaced { .. }
            | Reply::Migrated { .. }
            | Reply::Renewed { .. } => false,
            Reply::Long { .. }
            | Reply::Exists { .. }
            | Reply::Full { .. }
            | Reply::Absent { .. }
            | Reply::Lost { .. }
            | Reply::Odd { .. }
            | Reply::Fault { .. }
            | Reply::LogFull { .. }
            | Reply::IndexLogFull
            | Reply::NoArchive { .. }
            | Reply::InUse { .. }
            | Reply::Often { .. } => true,
        }
    }
}
