//! How a call of the program ends: its status, why it stops, and what it writes then.
pub(crate) mod refusing;
pub(crate) mod status;
pub(crate) mod stop;
