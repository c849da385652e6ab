//! The words of the command line, and what they ask for.
#![tactic(auto)]

mod command;
mod parser;
mod words;

pub use command::{Command, UdpWords};
pub use words::{asks_once, read_words};
