//! A client of a proxy at work: payloads are read as lines, sent through a tunnel for UDP, and what comes back is printed.
#![tactic(auto)]

mod asked;
mod exchange;
mod input;
mod outcome;
mod reading;
mod talk;

pub use asked::Asked;
pub use outcome::Outcome;
pub use talk::udp;
