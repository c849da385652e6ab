//! One step of a connection on its link and its ports: it does the first of its tries that can be done.
#![tactic(auto)]

mod ask;
mod bind;
mod receive;
mod rooms;
mod send;
mod stepped;
mod turn;
mod want;

pub use rooms::Rooms;
pub use stepped::Stepped;
pub use turn::step;
pub use want::act;
