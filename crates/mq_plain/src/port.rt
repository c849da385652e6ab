//! A UDP port in memory that always tells what it holds.
ghost use Rattle.std.specs.Prelude.{◌≡◌, ◌≤◌, ◌++◌, ◌∷◌, [], length, true, Some, None, OnOk, OnErr};
ghost use Rattle.mq_mem.specs.Ports.{Port as PortOf, holds_of, no_past, new_queue, with_queue};
ghost use Rattle.mq_plain.specs.Plain.{IsPlainPort};

use mq_actor::SendReady;
use mq_held::ReceiveReady;
use mq_mem::MemPort;
use mq_outside::{Port, PortGot, PortPut};
use mq_wire::{Bytes, NoMemory};
use std::alloc::Global;
use std::marker::Model;

/// A port in memory that keeps nothing of what it sends, has no place, and whose calls fail only as they are told to.
#[derive(Drop)]
pub struct PlainPort {
    port: MemPort,
}

impl Model for PlainPort {
    ghost Value = { PortOf };

    ghost view = { λ p. p.port };

    ghost invariant = { λ p. IsPlainPort p.port };
}

impl PlainPort {
    /// A port that tells what it holds.
    pub(crate) fn of(port: MemPort) -> PlainPort
        requires { IsPlainPort port }
        ensures { result ≡ port }
    {
        PlainPort { port }
    }

    /// The port itself.
    pub(crate) fn into_port(self) -> MemPort
        ensures { result ≡ self }
    {
        self.port
    }

    /// A datagram arrives.
    pub fn arrive(&mut self, datagram: Bytes) -> Result<(), NoMemory>
        requires { length datagram ≤ 65535 }
        ensures ok { OnOk result (self.new ≡ with_queue self.old (record self.old.queue { arrived = self.old.queue.arrived ++ datagram ∷ [] })) }
        ensures err { OnErr result (self.new ≡ self.old) }
    {
        self.port.arrive(datagram)
    }

    /// The next send fails. Takes no memory.
    pub fn fail_next(&mut self)
        ensures { self.new ≡ with_queue self.old (record self.old.queue { send_fails = true }) }
    {
        self.port.fail_next();
    }

    /// From now on nothing is there and the next send works. It counts its waits and faults anew, and takes as long
    /// payloads as before. Takes no memory.
    pub(crate) fn clear(&mut self, alloc: Global)
        ensures { self.new ≡ with_queue self.old (new_queue [] None []) }
    {
        let most = self.port.limit();
        self.port = MemPort::empty(alloc).handed_out(most, None);
    }
}

impl Port for PlainPort {
    ghost holds = { λ p. Some (holds_of p.queue) };

    ghost past = { λ p. no_past };

    ghost counts = { λ p. p.queue.counts };

    ghost most = { λ p. p.most };

    ghost place = { λ p. None };

    fn send(&mut self, bytes: &[u8]) -> PortPut {
        self.port.send(bytes)
    }

    fn recv(&mut self, into: &mut [u8]) -> PortGot {
        self.port.recv(into)
    }

    fn limit(&self) -> u32 {
        self.port.limit()
    }
}

impl ReceiveReady for PlainPort {
    fn would_receive(&self) -> bool {
        ReceiveReady::would_receive(&self.port)
    }
}

/// Its sends never wait.
impl SendReady for PlainPort {
    fn would_send(&self) -> bool {
        SendReady::would_send(&self.port)
    }
}
