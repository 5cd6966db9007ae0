//! What a vault still has is not given up: lost blocks are found again, and the parity of the
//! stripes that are being filled is kept over a session that may be stopped.
//!
//! A session fills a stripe further in place, and the desk learns the new parity at its close
//! alone. So a session that is stopped may leave a parity block of which the desk does not know.
//! Before it begins, the old block is copied into a slot behind all stripes (`keep_parity`), and
//! behind it that copy is put back (`put_parity_back`).
//!
//! 1. `parity_slots` names the parity slots of the stripes at the cursors, and no others.
//! 2. `bring` writes into one slot alone, and there a block of the wanted digest alone.
//! 3. So each slot that was sound is sound again behind a session that was stopped
//!    (`stopping_laws`).
//! 4. `found_bytes` changes slots alone that were Lost or Broken (`find_again` of `pot_recheck`).
#![tactic(auto)]

mod bringing;
mod finding;
mod keeping;
mod kept_file;
mod laws;
mod opening;
mod parity;

pub use bringing::{Brought, bring, read_sound};
pub use finding::{find_lost, found_bytes};
pub use keeping::{keep_parity, put_parity_back};
pub use kept_file::KeptFile;
pub use laws::{keeping_laws, stopping_laws};
pub use parity::{ParitySlot, parity_slots};
