//! One connection on its link and its ports: how it writes, reads, sends and receives. It decides nothing of the order.
#![tactic(auto)]

mod ask;
mod bind;
mod datagrams;
mod frame;
mod held;
mod judge;
mod note;
mod push;
mod read;
mod ready;
mod receive;
mod seats;
mod send;
mod tell;
mod went;
mod write;

pub use ask::Heard;
pub use datagrams::Came;
pub use held::{Held, PortSeat};
pub use note::put_note;
pub use ready::{ReceiveReady, WriteReady};
pub use went::Went;
