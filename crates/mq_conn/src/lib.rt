//! The core of one connection, without input or output: it is fed bytes, says what it wants of the outside, and is told the
//! answers. Each call leads the state that it stands for to the machine's next one.
#![tactic(auto)]

mod acts;
mod answer;
mod capsule;
mod conn;
mod feed;
mod frame;
mod hop;
mod next;
mod open;
mod packets;
mod queue;
mod room;
mod settle;
mod values;
mod want;

pub use conn::Conn;
pub use want::Want;
