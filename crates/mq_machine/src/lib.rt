//! The machine that a proxy is a run of: for many links, workers and tunnels.
//!
//! # Theory of operation
//!
//! A proxy is some *actors*: the workers, and the pump. A *worker* owns links that are offered to it, connections that it
//! accepted, and for each connection its link and the ports of its UDP tunnels. The *pump* owns the network and holds at
//! most two packets, one to push and one to send. Whatever one actor owns, no other looks at.
//!
//! A *step* of an actor is one *note*: it accepts a link, reads, does one act, frames one capsule (over HTTP/2 one DATA frame,
//! which may be a part of one), writes, receives one datagram, or ends a connection. Whose turn it is among what an actor owns is decided by its state alone: a worker tries
//! its seats in a ring, from the one behind that which acted last (its offered links, its inbox, each connection), and a
//! connection tries what it wants, then a frame, a write, a read, and a receive on each port. The first that can be done is
//! done. Where none can, the actor is *quiet*.
//!
//! What the bytes of a connection ask for is a list of *acts*, in the order of the bytes that complete them. A read adds to
//! it; a step does the first. A connection never calls anything: it says what it *wants* (a bind, a call of the book, a
//! judgement, a push, a send), is given the *answer*, and is then another connection, with a note. Both are functions of its
//! state (`want_of`, `done`), so a reader can compute them.
//!
//! Four things are shared, and no others: by the tunnels of a connection its order of reading, what waits in it for writing and,
//! in HTTP/2, its windows; by all actors the *book* (which tunnels are live, and whose each address is), the *inboxes* (packets on their
//! way from one actor to another), and the network behind the pump. So a payload meets another's tunnel in the book's
//! judgement alone.
//!
//! A step that is refused memory has no note: its connection is then ending, and nothing of any other changes.
//!
//! A connection of HTTP/2 has the state of its streams and windows in its front, in the words of its core (mq_h2): a read is
//! the core's read, an act puts what the core puts for it, and at the end of each act the next WINDOW_UPDATE is put, where
//! nothing is owed. The client's preface leads there; while the bytes of a connection are a part of it, nothing is decided.
//!
//! The definitions stand in specs/, in this reading order: State, Want, Http2, Putting, Settle, Done, Shared, Steps, Reading
//! (what bytes ask for), Turn, Silent; then Lawful and Placing (what holds of every connection), Acting (what a step of an actor
//! promises over any book, inboxes, links and ports, whether they tell what they hold or not) and Laws.
#![tactic(auto)]

mod act;
mod event;
mod laws;
mod setup;

pub use act::{Act, Due, StreamAct};
pub use event::Event;
pub use laws::{
    brings_once, done_once, one_silent_turn, one_turn, one_worker_turn, quiet_or_turn,
    settles_nothing, silent_or_quiet, starves_once, stays_lawful, stays_placed, told_step,
    turn_or_quiet,
};
pub use setup::Setup;
