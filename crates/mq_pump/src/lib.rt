//! The pump: the actor that owns the network. It gives the network what comes through its inbox, and pushes what comes from the
//! network to the inboxes of the workers, where the book allows it.
#![tactic(auto)]

mod pump;
mod push;
mod ready;
mod receive;
mod send;

pub use pump::Pump;
pub use ready::NetReady;
