//! The headers of IP packets: what a packet says, whether it is taken, the packet behind the next hop, and what a host
//! answers. Nothing here takes memory, and no byte behind the headers is looked at but to answer.
#![tactic(auto)]

mod address;
mod checksum;
mod extensions;
mod hop;
mod host;
mod packet;
mod version4;
mod version6;

pub use hop::{HopLimit, onward, taken_onward};
pub use host::echo;
pub use mq_addr::{HeaderFault, IpView};
pub use packet::check;
