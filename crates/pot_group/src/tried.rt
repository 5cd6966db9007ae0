//! The blocks of puts whose write failed.
ghost use Rattle.std.specs.Prelude.{◌≡◌, ◌<◌, ◌++◌, [], ◌∷◌, IfOk, length};
ghost use Rattle.pot_bytes.specs.Rack.{log_bound};

use pot_bytes::{Block, LOG_BOUND};
use std::alloc::{AllocError, Global};
use std::marker::Model;
use std::snapshot::Snapshot;

/// A block that an archive was to take, and how many entries the log had then.
#[derive(Clone, Copy)]
pub(crate) struct Try {
    at: u64,
    block: Block,
}

/// The block of each put of which the log says only that its write failed, with the number of
/// entries that stand before that Fault. They take no memory, and only contracts see them.
#[derive(Drop)]
pub(crate) struct Tried {
    tries: Vec<Snapshot<Try>>,
}

impl Model for Tried {
    ghost use Rattle.std.specs.Prelude.{◌≤◌, ℕ, List, map};
    ghost use Rattle.std.specs.Vec.{vec_capacity};
    ghost use Rattle.pot_bytes.specs.Rack.{log_bound};

    ghost Value = { List (ℕ × List ℕ) };

    ghost view = { λ t. map (λ s. (s.value.at, s.value.block)) t.tries.items };

    ghost invariant = { λ t. log_bound ≤ vec_capacity t.tries };
}

impl Tried {
    /// None so far, with room for one at each entry of a log.
    pub(crate) fn none(alloc: Global) -> Result<Tried, AllocError>
        ensures { IfOk result (λ t. t ≡ []) }
    {
        let tries = Vec::with_capacity(alloc, LOG_BOUND)?;
        Ok(Tried { tries })
    }

    /// Keeps the block of a put.
    pub(crate) fn keep(&mut self, at: u64, block: &Block)
        requires room { length self.old < log_bound }
        ensures { self.new ≡ self.old ++ (at, block.now) ∷ [] }
    {
        let attempt = Try { at, block: *block };
        self.tries.push_reserved(Snapshot::of(&attempt));
    }
}
