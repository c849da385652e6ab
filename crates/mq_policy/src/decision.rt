//! What becomes of a request.

use mq_talk::Goal;

/// What becomes of a request for a target.
#[derive(Clone, Copy, Debug, PartialEq, Eq)]
pub enum Decision {
    /// It is allowed, and leads there.
    Go(Goal),
    /// It is denied by the rule of this number, counted from 1, or by none of them, which is number 0.
    Denied(u32),
    /// Its name isn't in the table.
    UnknownName,
}
