//! A worker: it accepts offered links, empties its inbox and lets its connections act, one step at a time, each seat in its
//! turn.
#![tactic(auto)]

mod accept;
mod actor;
mod close;
mod connection;
mod conns;
mod inbox;
mod lend;
mod offer;
mod offers;
mod pass;
mod quiet;
mod ready;
mod ring;
mod seek;
mod step;

pub use actor::Actor;
pub use conns::Conns;
pub use offer::Offer;
pub use offers::Offers;
pub use ready::{ReadReady, SendReady};
pub use ring::Ring;
