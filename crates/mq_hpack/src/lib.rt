//! Header blocks of HTTP/2 (HPACK, RFC 7541).
#![tactic(auto)]

mod decoder;
mod encoder;
mod fault;
mod field;
mod integer;
mod laws;
mod literal;
mod representation;
mod search;
mod static_table;
mod table;
mod text;
mod write;

pub use decoder::Decoder;
pub use encoder::Encoder;
pub use fault::HpackFault;
pub use field::{Field, Text};
pub use laws::{
    has_one_reading, is_no_longer, is_one_text, is_read_back, is_read_too_large, is_readable,
};
