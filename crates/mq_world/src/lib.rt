//! A world in memory: all actors round one book and one set of inboxes.
#![tactic(auto)]

mod pump;
mod rests;
mod stepped;
mod told;
mod tunnel;
mod workers;
mod world;

pub use stepped::{Acted, Stepped, WorldFault};
pub use told::Told;
pub use workers::Workers;
pub use world::World;
