//! What the book of a desk is asked, and what it answers.
use mq_addr::Flow;
use mq_talk::{Call, Judged, Origin, Reply};
use mq_wire::NoMemory;

/// What an actor asks.
#[derive(Drop)]
pub enum Ask {
    /// A call.
    Call {
        actor: u32,
        call: Call,
    },
    /// Whether a packet may go on.
    Judge {
        actor: u32,
        origin: Origin,
        flow: Flow,
    },
}

/// What it is answered.
#[derive(Drop)]
pub enum Answer {
    Called(Result<Reply, NoMemory>),
    Judged(Judged),
}
