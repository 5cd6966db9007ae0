//! The laws of a stripe, of a relay's flight over it, and of the steps of a group, as relations
//! over plain data, and the pure steps of relays and moves over a table.
//!
//! It knows no archive, no thread and no file: a stripe is what the table says of its slots and
//! what the archives hold of it, each a function of the column, and a step is a relation between
//! what was and what is. A pure step takes blocks that a caller read or folded, and says which
//! entry they lead to. A function of `laws` does nothing, and its contract is a law.
//!
//! A stripe has 1 to 16 data columns, 0 to C-1, and one or two parity columns, C (P) and C+1 (Q). A
//! *filling* gives each column a block: one of its slot's digest, the block held where the slot is
//! sound, and zeros where it is Void. The XOR of the data blocks and P is zero, and so is that of
//! 3^c times the block of each data column c, and Q, in the field of FIPS 197. With one parity
//! column there is no second sum.
//!
//! A relay rebuilds one slot. It takes a times the first sum and b times the second, so that its
//! target has weight 1 and one other column weight 0 (`weight_of`), and folds weight times block of
//! each other column that is not Void into a sum that began with random bytes, its blind.
//!
//! Invariants, each with the law that keeps it:
//! 1. A stripe without a Broken slot that has a relay, or no more Lost slots than parity columns,
//!    has a filling (`StripeLaw`). The opening makes it hold (`StartMakes`); every entry
//!    (`ActKeeps`) and any loss (`LossKeepsAll`) keep it, wherever relays stand and columns move,
//!    and so does every step of a group (`group_laws`, `step_laws`).
//! 2. Hence in a whole stripe the sums are zero (`WholeSums`), a place that can be rebuilt stands
//!    in a stripe that has a filling (`RebuildableFilled`), and with one parity column the XOR of
//!    all blocks but one has that one's digest (`SingleParity`).
//! 3. A Live slot is sound, or the count of losses of the archive that serves it rose since the
//!    group took it (`LiveLaw`), whatever a layer above means by that (`LossCount`): a count that
//!    stands at its last value may be said to have risen. The opening makes it hold
//!    (`StartMakesLive`), and every entry (`ActKeepsLive`) and any loss (`LossesKeepLive`) keep it.
//! 4. The partial of a flight is the XOR of weight times block over the columns that it went over,
//!    where no slot is Broken with the blocks of one filling (`FlightLaw`), and no slot beside the
//!    target is Broken (`IsFlying`). It begins so (`BeginKeeps`, `SumBegins`), a hop keeps it
//!    (`HopKeeps`, `SumGrows`), and so do every entry and any loss.
//! 5. Hence a relay that went over all its columns has the target's block (`RelayRebuilds`). The
//!    relays of a table are such relays, with the same next columns (`StandingIsRelay`,
//!    `NextIsNext`, `NoneIsNoNext`, `BeginHasFew`).
//! 6. What an archive hears at a hop is the blind XOR the partial (`HeardIsBlinded`,
//!    `FlightHands`), and it fits every content of the columns before it, by a bijection of blinds
//!    (`ListenerFits`).
//! 7. A stripe of which all but two columns were read, or all but one with one parity column, has a
//!    filling exactly where the computed blocks may stand for those (`FillingComputed`,
//!    `ComputedFilling`). With one parity column that is where the XOR of all blocks is zero
//!    (`SingleWhole`), or the XOR of all but one has that one's digest (`SingleBut`).
//! 8. A place that can be rebuilt is sound after a look and (1+p)C + 2 + p calls of `mend`, with p
//!    parity columns, where no device fails, no log is full and no block is lost (`MendingLaw`).
#![tactic(auto)]

mod flight;
mod laws;
mod moving;
mod rebuilding;
mod weighing;

pub use flight::Flight;
pub use laws::{
    LossCount, act_laws, ahead_laws, entry_laws, filling_laws, flight_laws, group_laws,
    listener_laws, live_laws, mending_laws, relay_laws, single_laws, step_laws, stripe_laws,
};
pub use moving::{move_begin, move_end, move_one};
pub use rebuilding::{Finished, Hopped, begin, finish, give_up, hop, mended};
pub use weighing::{power_of_three, q_weight, times_of, weight_of};
