//! Lists of routes: ranges of addresses for a protocol, in the order of a route advertisement (RFC 9484, section 4.7.3).
#![tactic(auto)]

mod clip;
mod list;
mod meet;
mod order;
mod put;

pub use list::RouteList;
pub use order::is_ordered;
