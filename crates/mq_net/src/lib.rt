//! A simulated network, whose hosts answer what is sent to them, for replays of scripts.
#![tactic(auto)]

mod host;
mod sim;
mod store;
#[cfg(test)]
mod tests;

pub use sim::SimNet;
