//! Where a program prints, and why it stops.
#![tactic(auto)]

mod output;
mod stop;

pub use output::Output;
pub use stop::Stop;
