//! The core of a server's connection of HTTP/2 (RFC 9113), behind the client's preface: bytes and acts go in, events and
//! bytes come out.
#![tactic(auto)]

mod acts;
mod block;
mod codes;
mod event;
mod fields;
mod frames;
mod h2;
mod ids;
mod laws;
mod owed;
mod parts;
mod read;
mod stop;
mod text;
mod writing;

pub use codes::{CANCEL, CONNECT_ERROR, ENHANCE_YOUR_CALM, PROTOCOL_ERROR};
pub use event::StreamEvent;
pub use fields::{is_connect, is_value, value_of};
pub use h2::H2;
pub use laws::{
    data_is_within_its_windows, each_read_has_an_outcome, is_asked_once, no_window_is_passed,
    one_read, reads_stand_apart, what_is_owed_is_read_back, what_is_put_is_whole_frames,
    what_is_told_is_held,
};
