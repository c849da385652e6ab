//! What a connection wants of the outside next.

use mq_addr::{Addr, Flow};
use mq_talk::{Call, End};

/// What a connection wants of the outside next.
#[derive(Drop)]
pub enum Want {
    /// It waits for its client.
    Nothing,
    /// A UDP port towards this address.
    Bind { addr: Addr, port: u16 },
    /// An answer of the book.
    Ask(Call),
    /// A verdict on packet `n` of a tunnel.
    Judge { tunnel: u32, n: u64, flow: Flow },
    /// Its parcel is to go to the inbox of this actor.
    Push { to: u32 },
    /// Payload `n` of a tunnel is to go to the tunnel's port.
    SendUdp { tunnel: u32, n: u64 },
    /// A note that needs nothing of the outside.
    Say,
    /// Nothing is left but its end.
    Ended(End),
}
