//! A group of archives that keeps track of its calls.
//!
//! `TrackedGroup` is a `Group` of `pot_group`, with the same calls and the same contracts. Its type
//! keeps one thing more (`HasExecution`), said of archives that tell what they hold: the group has
//! an execution. That is the opening of its table, once and first of all, and a list of calls, each
//! with what was handed to it and its answer. They lead from the state before the opening to the
//! state now, each by its step of `pot_steps`. In the first state the archives of the table hold,
//! and have heard, what they meant when they were taken. Each step logs its entries and no others,
//! so the log is the entries of the opening and of these calls.
//!
//! So what the archives hold, in whatever slot, and what they have heard, comes of what they meant
//! at their taking by these steps alone. A call that met a failing archive is a step like any
//! other. The execution costs nothing when the program runs.
//!
//! A group can't keep it itself: between a fold and the entry of its hop, say, no call has ended.
//! The calls `begin` and `advance` of a group are left out, since a session mends by `mend` alone.
#![tactic(auto)]

mod tracked_group;

pub use tracked_group::TrackedGroup;
