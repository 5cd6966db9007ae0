//! The calls that mend the groups of a session, and those that move their columns, over its vault.
//!
//! 1. A scrub looks at each Live slot once, in order of stripe and column: `scrub_group`.
//! 2. A repair goes to each slot that is Lost or Broken once, in the same order, and drives the
//!    relay of the slot, or the one that stands in its way, until the slot is sound or can't be
//!    mended: `repair_group`. Each relay has the next blind of the job's stream.
//! 3. A move copies a column to another archive, stripe by stripe: `migrate`. Whether an archive
//!    can be moved to or stand in for another is asked first, and changes nothing: `check_migrate`,
//!    `check_replace`.
//! 4. All of them stop at the first fault and at a full log.
//! 5. Counts are those of the job's own entries; a slot is mended by `Vault::mend_place`, whose
//!    answers say what each step logged.
//! 6. What an answer says is said of the logs, and holds where nobody else logged an entry of the
//!    job: `ScrubRow`, `RepairRow`.
//!
//! It knows no script and no seed, and it starts no thread.
#![tactic(auto)]

mod checking;
mod fault;
mod moving;
mod repairing;
mod scrubbing;

pub use checking::{MoveAt, UseFault, check_migrate, check_replace};
pub use fault::MendFault;
pub use moving::migrate;
pub use repairing::{Repaired, repair_group};
pub use scrubbing::{Scrubbed, scrub_group};
