//! Rules.

use mq_addr::Prefix;

/// A rule allows or denies what it is for. Without a block it is for every address.
#[derive(Clone, Copy, Debug, PartialEq, Eq)]
pub enum Rule {
    /// For UDP to an address of the block, at a port from `low` to `high`, both included.
    Udp {
        allow: bool,
        block: Option<Prefix>,
        low: u16,
        high: u16,
    },
    /// For IP packets to addresses of the block alone. Without a protocol it is for every request, else for those that
    /// ask for this protocol and no other.
    Ip {
        allow: bool,
        block: Option<Prefix>,
        protocol: Option<u8>,
    },
}
