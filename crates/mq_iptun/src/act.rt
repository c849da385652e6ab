//! What an item of a tunnel's data stream asks of the tunnel.

use mq_addr::Flow;
use mq_talk::{Call, Cause};
use mq_wire::Bytes;

/// What is asked of a tunnel for IP packets.
#[derive(Drop)]
pub enum IpAct {
    /// Nothing.
    Nothing,
    /// The book is to be asked this: for addresses (RFC 9484, section 4.7.2), or for ways (section 4.7.3).
    Ask(Call),
    /// Packet number `n` is to be judged.
    Packet { n: u64, packet: Bytes, flow: Flow },
    /// Payload number `n` is dropped.
    Dropped { n: u64, cause: Cause },
    /// The data stream is malformed, and the tunnel is to close.
    Malformed,
}
