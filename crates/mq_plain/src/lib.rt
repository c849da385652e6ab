//! Workers on links and ports in memory that tell what they hold.
#![tactic(auto)]

mod link;
mod links;
mod offered;
mod port;
mod ports;
mod quiet;
mod step;
mod tunnels;

pub use link::{LinkEvent, PlainLink};
pub use links::{change, piece};
pub use offered::offer;
pub use port::PlainPort;
pub use ports::PlainPorts;
pub use quiet::is_quiet;
pub use step::{Plain, take};
pub use tunnels::{arrive, fail_send};
