//! The notes that a replay prints, one for each act.

use crate::place::{Cause, Place};
use mq_addr::{Given, Kind};
use mq_wire::{Bytes, Seq};

/// Why a tunnel closes.
#[derive(Clone, Copy, Debug, PartialEq, Eq)]
pub enum Why {
    /// Its data ended between capsules.
    End,
    /// Its data stream is malformed.
    Malformed,
    /// Its data ended inside a capsule.
    Truncated,
    /// The client reset its stream.
    Reset,
    /// Its port failed.
    Port,
    /// Too much waits in it, or the history has no place.
    Full,
    /// Its connection is ending.
    Conn,
}

/// Why a connection ends.
#[derive(Clone, Copy, Debug, PartialEq, Eq)]
pub enum End {
    /// Its link ended at a boundary, and all owed bytes are written.
    Done,
    /// Its link ended elsewhere.
    Truncated,
    /// Its link failed.
    Link,
    /// It broke the protocol.
    Protocol { code: u32 },
    /// Its request was refused.
    Refused,
    /// Its tunnel closed.
    Tunnel,
    /// It was refused memory.
    NoMemory,
}

/// Where a payload comes from.
#[derive(Clone, Copy, Debug, PartialEq, Eq)]
pub enum From {
    /// The client of this tunnel.
    Tunnel(u32),
    /// The network.
    Net,
    /// The port of this tunnel.
    Port(u32),
}

/// One act. The stream of an HTTP/1.1 tunnel is 0.
#[derive(Drop)]
pub enum Note {
    /// An actor took an offered connection.
    Accepted {
        conn: u32,
        actor: u32,
    },
    /// So many bytes were read.
    Took {
        conn: u32,
        count: u32,
    },
    /// The link answered that it ended.
    Finished {
        conn: u32,
    },
    /// The UDP port of a request was bound.
    Ported {
        conn: u32,
        stream: u32,
    },
    /// A tunnel opened.
    Opened {
        tunnel: u32,
        conn: u32,
        stream: u32,
        kind: Kind,
    },
    /// A request was refused, at status 403 by the rule of this number; else `rule` is 0.
    Refused {
        conn: u32,
        stream: u32,
        status: u16,
        rule: u32,
    },
    /// A stream without a tunnel was reset.
    Reset {
        conn: u32,
        stream: u32,
        code: u32,
    },
    /// The book answered a request for addresses at this place.
    Assigned {
        tunnel: u32,
        at: u32,
        list: Seq<Given>,
    },
    /// The book accepted an advertisement at this place, or didn't.
    Advertised {
        tunnel: u32,
        at: u32,
        yes: bool,
    },
    /// A packet may go on, by the first `at` entries of the book.
    Passed {
        from: From,
        n: u64,
        at: u32,
        to: Place,
    },
    /// A packet went into an inbox.
    PushedNote {
        from: From,
        n: u64,
        to: Place,
    },
    /// The pump holds a packet that the network doesn't take yet.
    Waits {
        from: From,
        n: u64,
    },
    /// Payload number `n` went to the tunnel's port, or to the network.
    Sent {
        from: From,
        n: u64,
        packet: Bytes,
    },
    /// A packet waits in a tunnel.
    Queued {
        from: From,
        n: u64,
        to: u32,
    },
    /// So many bytes of the front capsule of a tunnel were framed, not its last.
    Part {
        tunnel: u32,
        count: u32,
    },
    /// The last byte of a packet's capsule was framed.
    Delivered {
        from: From,
        n: u64,
        to: u32,
        packet: Bytes,
    },
    /// The last byte of a control capsule was framed.
    Control {
        tunnel: u32,
        capsule: Bytes,
    },
    /// Payload number `n` was dropped.
    Dropped {
        from: From,
        n: u64,
        cause: Cause,
    },
    /// Bytes were written to the client.
    Wrote {
        conn: u32,
        bytes: Bytes,
    },
    /// A tunnel closed, while `left` packets waited in it.
    Closed {
        tunnel: u32,
        why: Why,
        left: u32,
    },
    /// A connection ended.
    Ended {
        conn: u32,
        why: End,
    },
}
