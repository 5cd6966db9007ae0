//! Recovery from the archives alone, and the lines that it writes.
pub(crate) mod listing;
pub(crate) mod recovering;
