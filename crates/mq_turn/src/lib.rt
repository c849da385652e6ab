//! A turn lock round a value that keeps its history: whose ticket is served may ask the value, and what was asked and
//! answered is the last entry of one history then.
#![tactic(auto)]

mod kept;
mod pass;
mod rule;
mod steps;
mod turn;
mod view;

pub use kept::Kept;
pub use pass::Pass;
pub use turn::Turn;
pub use view::Known;
