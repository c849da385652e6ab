//! Objects of the outside in memory, which tell what they hold and fail as they are told, and the ways of one thread's actors
//! to their book and their inboxes, for tests and for replays.
#![tactic(auto)]

mod acceptor;
mod calls;
mod fitting;
mod inbox;
mod link;
mod mail;
mod net;
mod office;
mod outside;
mod pieces;
mod port;
mod ports;
mod queue;
mod refusing;
mod room;
mod sink;
mod source;

pub use acceptor::MemAcceptor;
pub use link::MemLink;
pub use mail::PlainMail;
pub use net::MemNet;
pub use office::PlainOffice;
pub use outside::{HandedBack, MemBell, MemOutside};
pub use port::MemPort;
pub use ports::MemPorts;
pub use refusing::RefusingOffice;
pub use sink::MemSink;
pub use source::MemSource;
