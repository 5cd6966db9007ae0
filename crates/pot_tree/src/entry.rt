//! What a list says of a path.

use pot_bytes::{Bytes, Digest, Name};

/// What a list says of a path.
#[derive(Drop)]
pub struct Entry {
    /// The path below the folder, with slashes between its parts.
    pub path: Bytes,
    /// The twelve bits of its mode.
    pub mode: u32,
    /// When it was changed, in seconds since 1970.
    pub time: u64,
    pub content: Content,
}

/// What stands at a path.
#[derive(Drop)]
pub enum Content {
    Folder,
    Link {
        target: Bytes,
    },
    File {
        size: u64,
        digest: Digest,
        /// The name of the pack that holds its bytes.
        pack: Name,
    },
}
