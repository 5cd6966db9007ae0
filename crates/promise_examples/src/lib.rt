//! Examples of laws of sessions and runs: a few steps of a script and their replies, and what the
//! laws of `pot_promises` say of them.
//!
//! A law does nothing and nothing calls it, so a premise too many or a conjunct too few in its
//! statement breaks no other proof. Each function here applies laws to steps, replies, tables and
//! statuses that are written out. The session, the run or the desk itself is given, with all that
//! the contract of a run says of it. It has no calls of its own, and nothing stands on it.
#![tactic(auto)]

mod archives;
mod desks;
mod files;

pub use archives::{
    blinds_are_two, fault_is_counted, lost_saw_few, opening_says_gone, streams_are_two,
};
pub use desks::{
    begins_after_recheck, failed_closes, goes_on_from_new, good_is_written, init_is_made,
    never_turned_away, none_is_refused,
};
pub use files::{
    fetch_says_so, given_back, odd_has_cause, renewed_odd_has_cause, stored_is_veiled,
};
