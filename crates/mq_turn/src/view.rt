//! What a pass knows.
use std::collections::LinkedList;

/// A pass that was made, by its number, and how the history began that it has seen. No value of it is made.
pub struct Known<E> {
    pub number: u64,
    pub seen: LinkedList<E>,
}

/// Where a pass stands: it has no ticket, or waits with one, or is served and has the value.
pub enum Stage {
    Idle,
    Waiting { ticket: u64 },
    Serving { ticket: u64 },
}

/// What a pass knows: the settings, unless another took it in; its number and what it has seen; which passes it took in;
/// and the first how many passes were made. No value of it is made.
pub struct View<E, S> {
    pub stage: Stage,
    pub settings: Option<S>,
    pub number: u64,
    pub seen: LinkedList<E>,
    pub taken_in: LinkedList<Known<E>>,
    pub made: u64,
}
