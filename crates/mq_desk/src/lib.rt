//! A book that threads share: each call is the last entry of one legal history that begins with all that its caller had
//! seen.
#![tactic(auto)]

mod ask;
mod desk;
mod kept;
mod key;
mod pass;
#[cfg(test)]
mod tests;

pub use desk::Desk;
pub use key::DeskKey;
pub use pass::DeskPass;
