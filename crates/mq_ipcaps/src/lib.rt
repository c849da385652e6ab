//! The values of the three control capsules of an IP tunnel (RFC 9484, section 4.7): read, and written as whole capsules.
#![tactic(auto)]

mod capsule;
mod entry;
mod fault;
mod field;
mod item;
mod laws;
mod range;
mod read;
mod write;

pub use fault::CapsFault;
pub use laws::{is_read_back, is_written_again};
pub use read::{read_assign, read_request, read_routes};
pub use write::{write_assign, write_request, write_routes};
