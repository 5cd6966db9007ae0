//! A world as code: actors that store, renew, fetch, mend and move over groups and an index, one
//! step after another.
//!
//! It runs the steps of `pot_world` and knows no archive and no thread. What the definition of a
//! world has as a function is a list here (`world_of`, `specs/Worlds.antt`). The splits that were
//! begun and those that were published are kept for clauses alone.
//!
//! 1. A step is made exactly where it is allowed, and then as the definition makes it; where it is
//!    not allowed, or memory is not found, the world is as before (`Steps`; one method of `Parts`
//!    for each step).
//! 2. A run stops exactly at the first step that is not allowed (`RunsTo`; `World::run`).
//! 3. Every `World` was reached by allowed steps from the world of a rack (`IsReached`), so the
//!    laws of `pot_world` hold of it.
//! 4. An actor has a file exactly where m blocks of each fragment of the record that it found last
//!    were gathered, and it is what these blocks give (`IsTold`, kept by `Seat`). So `fetched`
//!    takes no memory, and gives the very file that was stored (`Fetched`).
#![tactic(auto)]

mod blocks;
mod fetching;
mod joining;
mod ledger;
mod moving;
mod parts;
mod publishing;
mod seat;
mod split;
mod storing;
mod world;

pub use pot_world::Step;
pub use world::{World, WorldFault};
