//! The drill of a file, and the two files of its source.
pub(crate) mod drilling;
pub(crate) mod pairing;
