//! The one theorem of runs: what sessions of the program leave, from the first one on, is what
//! moves of a world lead to; and so what worlds say of stripes, places and secrecy holds of it.
//!
//! It has definitions and laws alone, and no code that does anything. A law is a function whose
//! `ensures` is its statement.
//!
//! 1. A run has one session that closed, or none, and the first steps of one that closed have their
//!    replies by its logs (`run_laws`).
//! 2. A chain of sessions that closed, each over what the one before left and none of them
//!    disturbed, is sessions of moves of a world: its last groups are those that the last session
//!    left, with what the room means then (`runs_reach`).
//! 3. Hence each stripe is a codeword, each block put is in it at its place, and what a coalition
//!    of columns sees is what other bytes would have given as well. Where it sees too few points of
//!    a stored file, those bytes are the blocks of any other file of that length
//!    (`the_hard_property`).
//!
//! What is asked of a chain can be had: `run_examples` has two sessions that meet it.
#![tactic(auto)]

ghost use Rattle.pot_theorem.specs.Hard.{TheHardProperty};
ghost use Rattle.pot_theorem.specs.Sessions.{RunsClose, RunsReply};
ghost use Rattle.pot_theorem.specs.Worlds.{RunsReach};

/// What a run is: one session that closed, or none; and the replies of one that closed. It does
/// nothing.
pub fn run_laws()
    ensures closes { RunsClose }
    ensures reply { RunsReply }
{}

/// What sessions from the first one on leave, as moves of a world. It does nothing.
pub fn runs_reach()
    ensures { RunsReach }
{}

/// Stripes, places and the veil of what runs leave. It does nothing.
pub fn the_hard_property()
    ensures { TheHardProperty }
{}
