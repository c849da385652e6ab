//! Whether a read of a link or a send of a port would now do something: by it a worker knows that it is quiet.
ghost use Rattle.mq_actor.specs.Ready.{WouldRead, WouldSend};

use mq_mem::{MemLink, MemPort};
use mq_outside::{Link, Port};

/// A link that says whether a read would now be answered other than that nothing is there. One that doesn't tell what it
/// holds always says `true`: a read may be tried.
pub trait ReadReady: Link {
    /// Whether a read may now give something, or fail. Takes no memory.
    fn would_read(&self) -> bool
        ensures { WouldRead (Self.holds self.now) result };
}

/// A port that says whether a send would now be answered other than that nothing is taken. One that doesn't tell what it
/// holds always says `true`: a send may be tried.
pub trait SendReady: Port {
    /// Whether a send may now take a payload, or fail. Takes no memory.
    fn would_send(&self) -> bool
        ensures { WouldSend (Self.holds self.now) result };
}

impl ReadReady for MemLink {
    fn would_read(&self) -> bool {
        !self.tells() || MemLink::would_read(self)
    }
}

/// Its sends never wait.
impl SendReady for MemPort {
    fn would_send(&self) -> bool {
        true
    }
}
