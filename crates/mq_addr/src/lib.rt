//! Internet addresses, blocks and ranges of them, and their texts. Nothing here takes memory.
#![tactic(auto)]

mod addr;
mod aligned;
mod entry;
mod kind;
mod packet;
mod prefix;
mod prefix_form;
mod print;
mod range;
mod size;
mod span;
mod text;

pub use addr::{Addr, AddrFault, addr_bytes, one_addr, parse_addr, version_of};
pub use aligned::{first_of, last_of, number, with_number};
pub use entry::{Asked, Given};
pub use kind::Kind;
pub use packet::{HeaderFault, IpView};
pub use prefix::{
    Prefix, alone, contains, covers, free_bits, full_length, overlaps, within_by_bits,
};
pub use prefix_form::{one_prefix, parse_prefix};
pub use print::{addr_text, prefix_text, printed_again};
pub use range::{Flow, Range, allows, in_range, is_inside, is_range, ranges_meet};
pub use size::has_its_size;
pub use span::span_of;
pub use text::Text;
