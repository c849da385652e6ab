//! A script is read from a source, played in the world of all actors, and what happens is printed to a sink.
#![tactic(auto)]

mod line;
mod listener;
mod play;
mod printing;
mod script;
mod session;
mod stage;
mod standard;
mod status;
mod steps;
mod told;
mod turns;

pub use listener::Listener;
pub use play::play_line;
pub use script::replay;
pub use session::LINE_LIMIT;
pub use stage::Stage;
pub use standard::{StandardSink, StandardSource};
pub use status::Status;
