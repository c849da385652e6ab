//! What the bytes of a connection ask for.

use mq_addr::{Asked, Flow, Range};
use mq_talk::{Cause, Goal, Place, Why};
use mq_wire::{Bytes, Seq};

/// What is asked of a tunnel, by its data stream.
#[derive(Drop)]
pub enum StreamAct {
    /// Payload number `n` is to go to the port.
    Payload { n: u64, payload: Bytes },
    /// Packet number `n` is to be judged.
    Packet { n: u64, packet: Bytes, flow: Flow },
    /// Packet number `n` was judged, and is to be pushed.
    Push { n: u64, to: Place, packet: Bytes },
    /// Payload number `n` is to be dropped.
    Drop { n: u64, cause: Cause },
    /// Addresses are asked for.
    Assign { asked: Seq<Asked> },
    /// What the client reaches.
    Advertise { ranges: Seq<Range> },
    /// The tunnel is to close.
    Close { why: Why },
}

/// One act, on a stream of its connection. The stream of an HTTP/1.1 connection is 0.
#[derive(Drop)]
pub enum Act {
    /// A request for a tunnel: its UDP port is to be bound.
    Bind { stream: u32, goal: Goal },
    /// A request that may open: its tunnel is to be opened.
    Open { stream: u32, goal: Goal },
    /// A request that is to be refused with this status, at status 403 by the rule of this number; else `rule` is 0.
    Refuse { stream: u32, status: u16, rule: u32 },
    /// A stream without a tunnel was reset.
    Reset { stream: u32, code: u32 },
    /// What is asked of the stream's tunnel.
    OfStream { stream: u32, act: StreamAct },
}

/// An act that isn't done, or a mark between acts, which is no act itself.
#[derive(Drop)]
pub enum Due {
    Do(Act),
    /// All that a DATA frame asks for stands before this.
    Spend { stream: u32, size: u32 },
    /// The protocol is broken here.
    Fault { code: u32 },
}
