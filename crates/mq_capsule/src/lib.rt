//! Capsules (RFC 9297, section 3.2), read from pieces in any cutting and written.
#![tactic(auto)]

mod front;
mod head;
mod item;
mod laws;
mod reader;
mod state;
mod step;
mod write;

pub use item::{CapsuleFault, Item, Truncated};
pub use laws::{
    are_spelled, ends_at_bad, goes_on, has_capsules, has_them_once, is_read_once, is_readable,
    is_within_limits, is_written_back, says_nothing, says_on, says_payload, says_value, stays_read,
};
pub use reader::{Reader, Taken};
pub use write::{write_control, write_datagram};
