//! The bound UDP ports of a worker: each stands in a table under a key, from its bind until it is handed back. And room for what is
//! received next.
#![tactic(auto)]

mod datagrams;
mod table;

pub use datagrams::{Datagrams, MOST_DATAGRAM};
pub use table::PortTable;
