//! Queues of fixed capacity between threads: a lane from one thread to another, and inboxes to which many push and
//! from which one pops. What a thread hands in, another gets, whole, once and in order.
#![tactic(auto)]

mod close;
mod inbox_rule;
mod key;
mod lane;
mod lane_rule;
mod post;
mod ruled;
mod start;

pub use key::MailKey;
pub use lane::{Lane, LaneIn, LaneOut, Note, make_lane};
pub use post::{Post, Tally};
pub use ruled::RuledMail;
pub use start::matrix;
