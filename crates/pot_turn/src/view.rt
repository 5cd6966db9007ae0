//! What a pass knows. No value of these types is made.
use std::collections::LinkedList;

/// The entries of a log from one position up to another, which is not among them.
pub struct Stretch {
    pub from: u64,
    pub upto: u64,
}

/// What a pass knows of its turn.
pub struct View<E, O> {
    /// Whether the pass has the value.
    pub holds: bool,
    /// The log that the value had when the turn was made.
    pub opened: LinkedList<E>,
    /// The log, as far as the pass has seen it.
    pub seen: LinkedList<E>,
    /// The stretches that were logged while this pass had the value, one for each of its turns.
    pub turns: LinkedList<Stretch>,
    /// The stretches of the passes that were joined into this one.
    pub joined: LinkedList<Stretch>,
    /// How many entries this pass and those joined into it logged.
    pub made: u64,
    /// Its parts of the turn, of 2^62.
    pub parts: u64,
    /// The origin of the value. A spent pass has none.
    pub origin: Option<O>,
}

/// What a join leaves for a look to tell.
pub struct Told<E, O> {
    /// The shorter of the two logs.
    pub seen: LinkedList<E>,
    /// The opening log of the pass that was joined.
    pub opened: LinkedList<E>,
    /// Its origin.
    pub origin: Option<O>,
}

/// What the rule keeps for a pass.
pub struct Sight<E, O> {
    pub view: View<E, O>,
    pub told: Told<E, O>,
}
