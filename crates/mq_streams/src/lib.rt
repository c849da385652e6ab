//! The states of the streams of an HTTP/2 connection, and its flow-control windows (RFC 9113, sections 5.1, 5.2 and 6.9).
#![tactic(auto)]

mod answers;
mod connection;
mod receiving;
mod stream;
mod streams;
mod table;

pub use answers::{Began, Counted, Granted, Over};
pub use streams::{Streams, consumed_within_what_came, few_are_live, no_window_is_passed};
