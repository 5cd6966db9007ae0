//! Recovery without an index: the archives alone give the files back. Blocks hold shards, shards
//! are linked into rings by approximate pointers, rings that close give fragments, and fragments
//! give objects.
//!
//! It knows blocks in memory, and no archive, no desk and no file of many pieces. It copies no
//! block: a shard that takes part is a few numbers and where its share lies.
//!
//! 1. What is recovered is what the definition calls recovered, in byte order and each once, and
//!    nothing else: `recover`. The definition speaks of sets of shards and of polynomials alone
//!    (`specs/Held`, `Rings`, `Recovered`).
//! 2. Blocks are a set: equal ones count once, one outside the grammar is no shard, and a shard of
//!    another blur takes no part (`specs/Held`).
//! 3. What chains and sets find is just what closes: `ring_laws`. A chain is cut at m, where the
//!    content decides whether it goes on, and past it go the pointers of a set alone:
//!    `pointer_laws`.
//! 4. Chains and choices are counted before they are followed, and more than 4,000,000 of one are
//!    refused (`specs/Wide`).
//! 5. A ring of shards as it is stored is a ring here: `link_laws`.
//! 6. A ring some of whose shares are wrong closes by those that agree: `recover_robust` gives what
//!    the definition calls robustly recovered (`specs/Robust`). Chains go to n there, for no m of
//!    the shares are known to be right.
//! 7. A fragment as it is stored closes with its content, so the objects of a file come back from
//!    its blocks, and robustly where no more than half of the shares beyond m were altered:
//!    `stored_laws`, `altered_laws` (`specs/StoredFragments`, `Altered`).
//! 8. Where shards are gone, m that follow one another have the content: `recover_open` gives what
//!    the definition calls openly recovered, and `open_laws` says that all that rings give is among
//!    it (`specs/Open`, `OpenStored`).
#![tactic(auto)]

mod choices;
mod closing;
mod distinct;
mod fronts;
mod group;
mod held;
mod joining;
mod laws;
mod open_chains;
mod parts;
mod rings;
mod robust;
mod robust_closing;
mod robust_rings;
mod sets;
mod top;
mod window;

pub use laws::{link_laws, open_laws, pointer_laws, ring_laws};
pub use top::{RecoverFault, Recovered, recover, recover_open, recover_robust};
