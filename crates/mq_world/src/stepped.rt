//! What a world answers.

use mq_talk::Note;
use thiserror::Error;

/// What a world answers where the event names what was there.
#[derive(Drop)]
pub enum Stepped {
    /// It happened. Of a link or a tunnel that is gone nothing changed.
    Done,
    /// The actor took a step, of which this is the note.
    Did(Note),
    /// The actor has no step, and nothing changed.
    Idle,
    /// The actor's step was refused memory: the connection whose turn it was is ending with that, or the link stays offered, or
    /// the packet waits on the network.
    Refused,
}

/// What a step of an actor came to. Its note is in the caller's `told`.
#[derive(Clone, Copy, Debug, PartialEq, Eq)]
pub enum Acted {
    /// The actor took a step, of which there is a note.
    Did,
    /// The actor has no step, and nothing changed.
    Idle,
    /// The actor's step was refused memory, as with `Stepped::Refused`.
    Refused,
}

/// Why nothing happened.
#[derive(Clone, Copy, Debug, PartialEq, Eq, Error)]
pub enum WorldFault {
    /// The event names what never was: an actor, a link or a tunnel for UDP; or it is a piece behind the end of its link, or
    /// one link too many.
    #[error("nothing of that name is there, its link has ended, or there is no room for one more")]
    Missing,
    /// Memory for a new link, a piece, a datagram or a packet was refused.
    #[error("memory ran out")]
    NoMemory,
}
