//! What a proxy lets its clients reach: names with their addresses, and rules of which the first that matches decides.
#![tactic(auto)]

mod area;
mod decision;
mod goals;
mod laws;
mod matching;
mod names;
mod policy;
mod rule;

pub use decision::Decision;
pub use laws::one_decision;
pub use policy::Policy;
pub use rule::Rule;
