//! A session, from the taking of its archives to its close.
pub(crate) mod archives;
pub(crate) mod closing;
pub(crate) mod holding;
pub(crate) mod preparing;
pub(crate) mod scripting;
pub(crate) mod serving;
