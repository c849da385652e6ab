//! Whether a call of a link or a port would now do something: by it a connection takes memory only where something can be
//! done.
ghost use Rattle.mq_held.specs.Ready.{WouldWrite, WouldReceive};

use mq_mem::{MemLink, MemPort};
use mq_outside::{Link, Port};

/// A link that says whether a write would now be answered other than that nothing is taken. One that doesn't tell what it
/// holds always says `true`: a write may be tried.
pub trait WriteReady: Link {
    /// Whether a write may now take something, or fail. Takes no memory.
    fn would_write(&self) -> bool
        ensures { WouldWrite (Self.holds self.now) result };
}

/// A port that says whether a receive would now be answered other than that nothing is there. One that doesn't tell what it
/// holds always says `true`: a receive may be tried.
pub trait ReceiveReady: Port {
    /// Whether a receive may now give a datagram, or fail. Takes no memory.
    fn would_receive(&self) -> bool
        ensures { WouldReceive (Self.holds self.now) result };
}

impl WriteReady for MemLink {
    fn would_write(&self) -> bool {
        !self.tells() || MemLink::would_write(self)
    }
}

impl ReceiveReady for MemPort {
    fn would_receive(&self) -> bool {
        !self.tells() || self.would_recv()
    }
}
