//! What a step of a connection came to.

/// What a step of a connection came to. The note of what was done is in the caller's `told`.
#[derive(Clone, Copy, Debug, PartialEq, Eq)]
pub enum Stepped {
    /// It has nothing to do, or what it could do waits for the outside.
    Quiet,
    /// It did something, and lives on.
    Did,
    /// It is over.
    Ended,
}
