//! The book of tunnels and addresses: what it is asked, what it answers, and the entries that it keeps of both. A tunnel's
//! number is the place of the entry that opened it.

use crate::goal::Goal;
use mq_addr::{Asked, Given, Prefix, Range};
use mq_wire::Seq;

/// What the operator gives: blocks to assign, blocks to which clients may lead, the ways that the proxy offers, how many
/// entries the history holds, and how many workers there are.
#[derive(Drop)]
pub struct Config {
    pub pool: Seq<Prefix>,
    pub reach: Seq<Prefix>,
    pub routes: Seq<Range>,
    pub history: u32,
    pub workers: u32,
}

/// What the book is asked.
#[derive(Drop)]
pub enum Call {
    /// A tunnel opens on this stream of a connection, for this actor.
    Open {
        conn: u32,
        stream: u32,
        actor: u32,
        goal: Goal,
    },
    /// A tunnel asks for blocks of addresses (RFC 9484, section 4.7.2): 1 to 16, each with a Request ID that isn't 0.
    Assign {
        tunnel: u32,
        asked: Seq<Asked>,
    },
    /// A tunnel offers ways to ranges of addresses (RFC 9484, section 4.7.3): at most 32, in order.
    Advertise {
        tunnel: u32,
        ranges: Seq<Range>,
    },
    /// A tunnel closes.
    Close {
        tunnel: u32,
    },
}

/// What the book answers. `at` is the place of the entry.
#[derive(Drop)]
pub enum Reply {
    /// The number of the tunnel, and the ways that it is offered.
    Opened { tunnel: u32, routes: Seq<Range> },
    /// The history has no place: it has so many entries, and so many tunnels are live. Nothing was written.
    HistoryFull { entries: u32, live: u32 },
    /// All blocks that the tunnel holds, then what is denied.
    Assigned { list: Seq<Given>, at: u32 },
    /// Whether the ranges are accepted. Where they aren't, the tunnel has none.
    Accepted { yes: bool, at: u32 },
    Closed,
}

/// What an actor asked, and what it was answered.
#[derive(Drop)]
pub struct Entry {
    pub actor: u32,
    pub call: Call,
    pub reply: Reply,
}
