//! What is so of every generated script: each of its lines is good where it stands.
#![tactic(auto)]

mod laws;

pub use laws::no_line_is_bad;
