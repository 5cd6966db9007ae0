//! What the commands of a session share, and who works its steps.
use pot_outside::Archive;
use pot_shared::Vault;
use std::alloc::Global;

/// What the commands of a session share.
#[derive(Drop)]
pub struct Shared<'a, A: Archive, X> {
    /// The handle by which a command waits for a turn.
    pub rt: &'a X,
    /// Where its memory is from.
    pub alloc: Global,
    /// The vault that it works over.
    pub vault: &'a Vault<A>,
    /// The seed of the random bytes.
    pub seed: &'a [u8; 32],
    /// The session: together with the seed and the job it gives the stream of random bytes.
    pub session: u32,
}

/// Who works the steps of a session: the workers of its batches, with what its commands share.
#[derive(Drop)]
pub struct Crew<'a, A: Archive, X, W> {
    /// What the commands share.
    pub shared: Shared<'a, A, X>,
    /// On how many workers the lines of a batch are worked.
    pub workers: u8,
    /// What is called before each of these lines is worked, and after it.
    pub gate: &'a W,
}
