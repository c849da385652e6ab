//! The outside of the program: where bytes come from and where they go.
#![tactic(auto)]

mod acceptor;
mod bell;
mod count;
mod link;
mod net;
mod outside;
mod port;
mod ports;
mod sink;
mod source;

pub use acceptor::{Acceptor, Arrival};
pub use bell::{Bell, Gate};
pub use count::{risen, risen_by, rises};
pub use link::Link;
pub use net::Net;
pub use outside::Outside;
pub use port::Port;
pub use ports::{Binding, Failed, Ports};
pub use sink::Sink;
pub use source::Source;

/// What a read answers.
#[derive(Clone, Copy, Debug, PartialEq, Eq)]
pub enum Got {
    /// So many bytes, at least one, stand at the front of the buffer.
    Bytes(u32),
    /// No byte is left.
    End,
    /// Nothing was read, and the faults rose.
    Failed,
}

/// What a write answers.
#[derive(Clone, Copy, Debug, PartialEq, Eq)]
pub enum Put {
    /// So many bytes, at least one, were taken from the front.
    Took(u32),
    /// Nothing was taken, and the faults rose.
    Failed,
}

/// What a read of a link answers.
#[derive(Clone, Copy, Debug, PartialEq, Eq)]
pub enum LinkGot {
    /// So many bytes, at least one, stand at the front of the buffer.
    Bytes(u32),
    /// Nothing is there yet, and the read waits rose.
    NotNow,
    /// No byte is left.
    End,
    /// Nothing was read, and the faults rose.
    Failed,
}

/// What a write to a link answers.
#[derive(Clone, Copy, Debug, PartialEq, Eq)]
pub enum LinkPut {
    /// So many bytes, at least one, were taken from the front.
    Took(u32),
    /// Nothing was taken, and the write waits rose.
    NotNow,
    /// Nothing was taken, and the faults rose.
    Failed,
}

/// What a send to a port or a network answers.
#[derive(Clone, Copy, Debug, PartialEq, Eq)]
pub enum PortPut {
    /// All of it was taken.
    Sent,
    /// Nothing was taken, and the send waits rose.
    NotNow,
    /// Nothing was taken, and the faults rose.
    Failed,
}

/// What a receive answers.
#[derive(Clone, Copy, Debug, PartialEq, Eq)]
pub enum PortGot {
    /// A datagram of so many bytes stands at the front of the buffer.
    Datagram(u32),
    /// Nothing is there yet, and the receive waits rose.
    NotNow,
    /// Nothing was received, and the faults rose.
    Failed,
}
