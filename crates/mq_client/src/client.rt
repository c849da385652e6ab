//! The client of a proxy.
ghost use Rattle.std.specs.Prelude.{◌≡◌, ◌≢◌, ◌↔◌, ◌+◌, ◌≤◌, [], length, IfOk, OnOk, OnErr, IsErr, IsTrue};
ghost use Rattle.mq_client.specs.Requests.{AreVisible, target_limit};
ghost use Rattle.mq_client.specs.State.{State, Reads, begun, sent, wrote, owed, waiting};
ghost use Rattle.mq_client.specs.Client.{StandsFor, IsSpent};

use crate::event::ClientEvent;
use crate::http1::Http1;
use crate::http2::Http2;
use mq_wire::{Bytes, NoMemory, Seq};
use std::alloc::Global;

/// The protocol in which the proxy is asked.
#[derive(Drop)]
enum Protocol {
    Http1(Http1),
    Http2(Http2),
}

/// A client that asks a proxy for one tunnel for UDP. It is fed the bytes that the proxy sent, in pieces of any length, and
/// owes the bytes that are to be written to it.
#[derive(Drop)]
pub struct Client {
    protocol: Protocol,
}

impl Client {
    /// A client that asks for a tunnel with this path and query, at this host. Over HTTP/1.1 it owes the request (RFC 9298,
    /// section 3.2). Over HTTP/2 it owes the preface, and the request (section 3.4) once the proxy's SETTINGS came.
    pub fn new(alloc: Global, h2: bool, path: Bytes, host: Bytes) -> Result<Client, NoMemory>
        requires size { length path + length host ≤ target_limit }
        requires path_visible { AreVisible path }
        requires host_visible { AreVisible host }
        ensures { IfOk result (λ client. StandsFor client (begun h2 path host)) }
    {
        let protocol = if h2 {
            Protocol::Http2(Http2::new(alloc, path.as_slice(), host.as_slice())?)
        } else {
            Protocol::Http1(Http1::new(alloc, path.as_slice(), host.as_slice())?)
        };
        Ok(Client { protocol })
    }

    /// Takes the next bytes of the proxy, and gives the events that they bring. After an `Err` the client is spent: every
    /// later call answers the same.
    pub fn feed(&mut self, alloc: Global, piece: &[u8]) -> Result<Seq<ClientEvent>, NoMemory>
        ensures reads { (s : State) → StandsFor self.old s → IfOk result (λ events. (t : State) × Reads s piece.now events t × StandsFor self.new t) }
        ensures err { OnErr result (IsSpent self.new) }
        ensures spent { IsSpent self.old → IsErr result }
    {
        match &mut self.protocol {
            Protocol::Http1(one) => one.feed(alloc, piece),
            Protocol::Http2(two) => two.feed(alloc, piece),
        }
    }

    /// Puts a payload into the tunnel, which has to be opened, as a DATAGRAM capsule of context 0 (RFC 9298, section 5).
    /// An `Err` changes nothing.
    pub fn send(&mut self, payload: &[u8]) -> Result<(), NoMemory>
        ensures ok { (s : State) → StandsFor self.old s → OnOk result (StandsFor self.new (sent s payload.now)) }
        ensures err { (s : State) → StandsFor self.old s → OnErr result (StandsFor self.new s) }
    {
        match &mut self.protocol {
            Protocol::Http1(one) => one.owed.put_datagram(payload),
            Protocol::Http2(two) => two.send(payload),
        }
    }

    /// Whether bytes of a sent capsule aren't framed yet, for want of a window (RFC 9113, section 6.9.1). Over HTTP/1.1
    /// there are none.
    pub fn waiting(&self) -> bool
        ensures { (s : State) → StandsFor self.now s → IsTrue result ↔ (waiting s ≢ []) }
    {
        match &self.protocol {
            Protocol::Http1(_) => false,
            Protocol::Http2(two) => !two.parts.waits.as_slice().is_empty(),
        }
    }

    /// The bytes that are to be written to the proxy.
    pub fn owed(&self) -> &[u8]
        ensures { (s : State) → StandsFor self.now s → result.now ≡ owed s }
    {
        match &self.protocol {
            Protocol::Http1(one) => one.owed.as_slice(),
            Protocol::Http2(two) => two.parts.owed.as_slice(),
        }
    }

    /// So many of them were written.
    pub fn wrote(&mut self, count: u32)
        ensures { (s : State) → StandsFor self.old s → count ≤ length (owed s) → StandsFor self.new (wrote s count) }
    {
        match &mut self.protocol {
            Protocol::Http1(one) => one.wrote(count),
            Protocol::Http2(two) => two.wrote(count),
        }
    }
}
