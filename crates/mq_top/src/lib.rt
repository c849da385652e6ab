//! What the words of the command line ask for is done: a script is replayed, or generated and printed, or generated, played
//! and counted; or payloads are read and sent through a tunnel of a proxy.
#![tactic(auto)]

mod asking;
mod command;
mod entry;
mod generate;
mod soaking;
mod tally;

pub use command::run;
pub use entry::program;
pub use generate::print_script;
pub use soaking::soak;
