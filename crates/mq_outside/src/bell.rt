//! What wakes a worker that has nothing to do. Nothing is promised of it.

/// Rung by one thread, waited for by another. A wait may return at once.
pub trait Bell {
    /// Wakes who waits.
    fn ring(&self);
    /// Waits until it is rung, or not at all.
    fn wait(&self);
}

/// Passed before each turn of a worker: by it a test chooses in which order workers go on.
pub trait Gate {
    /// Passes where this actor begins this turn.
    fn pass(&self, actor: u32, turn: u32);
}
