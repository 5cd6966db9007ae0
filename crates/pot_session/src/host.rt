//! What a call of the program works with beside its words and its objects, and a session too.
use std::alloc::Global;

/// What a call of the program works with beside its words and its objects.
#[derive(Drop)]
pub(crate) struct Host<'a, X, W> {
    /// The handle by which threads start and turns are waited for.
    pub rt: &'a X,
    /// Where its memory is from.
    pub alloc: Global,
    /// The seed of its random bytes: the one that was drawn, and in a session the one that the
    /// words give, if they give one.
    pub seed: &'a [u8; 32],
    /// What is called before each line of a batch is worked, and after it.
    pub gate: &'a W,
}

/// Who works a session, and how: the workers of its batches, with what its call works with.
#[derive(Drop)]
pub(crate) struct Staff<'a, X, W> {
    /// What its call works with.
    pub host: Host<'a, X, W>,
    /// On how many workers the lines of a batch are worked.
    pub workers: u8,
    /// Whether a close that could not keep its image tells so, whatever failed before.
    pub careful: bool,
}
