//! Frames of HTTP/2 (RFC 9113, sections 4 and 6), read from pieces in any cutting and written.
#![tactic(auto)]

mod codes;
mod contents;
mod fields;
mod frame;
mod header;
mod kind;
mod laws;
mod padded;
mod place;
mod reader;
mod settings;
mod short;
mod state;
mod step;
mod write;

pub use frame::{Frame, Setting};
pub use laws::{
    alternates, are_read_back, ends_at_fault, fits_fields, is_as_long, is_read_back, is_read_once,
    is_readable, nothing_is_read, stays_bounded, stays_read,
};
pub use reader::FrameReader;
pub use short::{acknowledgement_text, end_text, goaway_text, pong_text, reset_text, window_text};
pub use write::{write_data, write_frame, write_headers};
