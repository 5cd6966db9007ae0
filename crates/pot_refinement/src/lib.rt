//! Refinement: each execution of a running group is one of the world.
//!
//! A group of `pot_world` simulates a running group (`Simulates`): it keeps its rules, and has the
//! same table, flights, contents and sums heard. It does so through all calls of an execution that
//! went well (`execution_simulated`), and so do all groups together (`executions_reach`): what a
//! world says of all groups that moves lead to holds of the running ones. An opening is losses and
//! looks; a count and a look that failed are losses. Whether calls went well is told by what a
//! group shows at its end (`well_by_log`): its log, the marks of its archives, and what those meant
//! that came.
//!
//! `first_session`, `next_session` and `sessions_reach` say it of groups as sessions leave them, by
//! what these show alone. It runs no code.
#![tactic(auto)]

mod laws;

pub use laws::{
    execution_simulated, executions_reach, first_session, next_session, reopened_simulates,
    session_reaches, sessions_reach, well_by_log,
};
