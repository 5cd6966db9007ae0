//! The parts of a world.
use crate::ledger::Ledger;
use crate::seat::Seat;
use crate::split::OpenSplit;
use pot_world::Groups;
use std::snapshot::Snapshot;

/// The groups, the names, the actors, and what clauses alone see: the splits that were begun, and
/// those that were published.
#[derive(Drop)]
pub(crate) struct Parts {
    pub(crate) groups: Groups,
    pub(crate) names: Ledger,
    pub(crate) seats: Vec<Seat>,
    pub(crate) begun: Vec<Snapshot<OpenSplit>>,
    pub(crate) ended: Vec<Snapshot<OpenSplit>>,
}
