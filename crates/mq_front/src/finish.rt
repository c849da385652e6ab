//! What the end of a link does to its connection.
use mq_talk::{End, Why};

/// The connection ends for this reason, or its tunnel closes for this.
#[derive(Clone, Copy, Debug, PartialEq, Eq)]
pub enum Finish {
    Ends(End),
    Closes(Why),
}
