//! The Huffman code of HPACK (RFC 7541, section 5.2 and appendix B), both ways.
#![tactic(auto)]

mod codes;
mod decoding;
mod encoding;
mod fault;
mod laws;
mod size;
mod steps;

pub use decoding::decode;
pub use encoding::encode;
pub use fault::HuffFault;
pub use laws::{an_answer, one_answer, one_coding, one_reading, the_code, whole_code};
pub use size::encoded_len;
