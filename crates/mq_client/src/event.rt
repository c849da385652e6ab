//! What a client tells of its tunnel.
ghost use Rattle.std.specs.Prelude.{◌≡◌};
ghost use Rattle.mq_client.specs.Events.{is_last};

use mq_wire::Bytes;

/// What the proxy's bytes bring.
#[derive(Drop)]
pub enum ClientEvent {
    /// The proxy opened the tunnel: status 101 over HTTP/1.1 (RFC 9298, section 3.3), and one from 200 to 299 over HTTP/2
    /// (section 3.5).
    Opened,
    /// The proxy answered with another status. Over HTTP/2 it is 0 where extended CONNECT isn't offered (RFC 8441, section 3).
    Refused { status: u16 },
    /// A payload of context 0, of at most 65,527 bytes (RFC 9298, section 5).
    Datagram { payload: Bytes },
    /// The proxy ended the tunnel, by END_STREAM or RST_STREAM. Over HTTP/1.1 this never comes.
    Closed,
    /// The proxy's bytes are malformed. The code is 1 for a head, a status or a capsule; for frames, windows and header blocks
    /// it is the error code of RFC 9113, section 7.
    BadPeer { code: u32 },
}

/// What is told of malformed bytes.
pub(crate) const MALFORMED: u32 = 1;

impl ClientEvent {
    /// Whether no event comes behind this one.
    pub(crate) fn is_last(&self) -> bool
        ensures { result ≡ is_last self.now }
    {
        match self {
            ClientEvent::Opened | ClientEvent::Datagram { .. } => false,
            ClientEvent::Refused { .. } | ClientEvent::Closed | ClientEvent::BadPeer { .. } => true,
        }
    }
}
