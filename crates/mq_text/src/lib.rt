//! Numbers and parts of ASCII texts, as lines, words, templates and prefixes have them.
#![tactic(auto)]

mod number;
mod parts;

pub use number::{parse_digits, parse_number, reads_one};
pub use parts::{cut, cut_once, place};
