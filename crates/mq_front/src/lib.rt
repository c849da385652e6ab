//! What the bytes of a connection ask for: requests, the capsules of their data streams, and errors.
#![tactic(auto)]

mod data;
mod dues;
mod event;
mod fields;
mod finish;
mod front;
mod goal;
mod http1;
mod http2;
mod items;
mod judge;
mod opening;
mod owed;
mod request;

pub use dues::Dues;
pub use event::Tunnels;
pub use finish::Finish;
pub use front::Front;
pub use goal::kind_of;

#[cfg(test)]
mod tests;
