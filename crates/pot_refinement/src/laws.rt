//! Executions of running groups, as moves of a world.
ghost use Rattle.pot_refinement.specs.Refinement.{ExecutionSimulated, ExecutionsReach, FirstSession, NextSession};
ghost use Rattle.pot_refinement.specs.Refinement.{ReopenedSimulates, SessionReaches, SessionsReach, WellByLog};

/// A group of the world that simulates a running group does so through its calls, where none of
/// them met a failing archive.
pub fn execution_simulated()
    ensures { ExecutionSimulated }
{}

/// So it is with all groups of a world.
pub fn executions_reach()
    ensures { ExecutionsReach }
{}

/// A first session is moves from the first groups of a rack.
pub fn session_reaches()
    ensures { SessionReaches }
{}

/// A group of the world still simulates a running group when the next session begins.
pub fn reopened_simulates()
    ensures { ReopenedSimulates }
{}

/// Whether its calls went well is told by what a group shows at its end.
pub fn well_by_log()
    ensures { WellByLog }
{}

/// What a first session leaves.
pub fn first_session()
    ensures { FirstSession }
{}

/// What a later one leaves, from what the one before had left.
pub fn next_session()
    ensures { NextSession }
{}

/// What all sessions from the first one on leave.
pub fn sessions_reach()
    ensures { SessionsReach }
{}
