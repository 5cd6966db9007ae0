use pot_bytes::Name;

/// A published name, and the length of its file in bytes.
#[derive(Clone, Copy, PartialEq, Eq)]
pub struct Listed {
    pub name: Name,
    pub length: u64,
}
