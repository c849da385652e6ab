//! A UDP port in memory, whose world says what arrives and which calls fail.
ghost use Rattle.std.specs.Prelude.{◌≡◌, ◌≤◌, ◌++◌, ◌∷◌, [], length, true, Some, None, is_some, IfOk, OnOk, OnErr};
ghost use Rattle.mq_outside.specs.Ports.{PortSends, after_send, past_sent, PortReceives, IsWithin, after_receive, past_received};
ghost use Rattle.mq_mem.specs.Ports.{Port as PortOf, AllShort, told, no_past, new_queue, put_of, after_put, got_of, after_got, GotDatagram, would_receive, with_queue, handed_out as handed_out_at};

use crate::queue::Queue;
use mq_outside::{Port, PortGot, PortPut};
use mq_wire::{Bytes, NoMemory, Seq};
use std::alloc::Global;
use std::marker::Model;

/// A port in memory. It keeps nothing of what it sends.
#[derive(Drop)]
pub struct MemPort {
    queue: Queue,
    most: u32,
    place: Option<u64>,
}

impl Model for MemPort {
    ghost Value = { PortOf };

    ghost view = { λ p. record { queue = p.queue; most = p.most; place = p.place } };
}

impl MemPort {
    /// A port at which these datagrams arrived, of which none is longer than 65,535 bytes, and which isn't bound. With a
    /// room, a send fails that doesn't fit whole into what is left of it. The calls of the numbers in `fails` fail: its
    /// sends and receives, counted together from 0.
    pub fn new(
        datagrams: Seq<Bytes>,
        room: Option<u32>,
        fails: Seq<u64>,
    ) -> Result<MemPort, NoMemory>
        requires { AllShort datagrams }
        ensures { IfOk result (λ p. p ≡ record { queue = new_queue datagrams room fails; most = 65507; place = None }) }
    {
        Ok(MemPort {
            queue: Queue::new(datagrams, room, fails),
            most: 65_507,
            place: None,
        })
    }

    /// A port at which nothing arrived, and whose sends fit.
    pub fn empty(alloc: Global) -> MemPort
        ensures { result ≡ record { queue = new_queue [] None []; most = 65507; place = None } }
    {
        let nothing = Seq::from_vec(Vec::new(alloc));
        MemPort {
            queue: Queue::new(nothing, None, Seq::from_vec(Vec::new(alloc))),
            most: 65_507,
            place: None,
        }
    }

    /// The same, as it is handed out: with the limit of its address, at its place among the ports that were bound, and
    /// with no call counted.
    pub fn handed_out(self, most: u32, place: Option<u64>) -> MemPort
        ensures { result ≡ handed_out_at most place self }
    {
        MemPort {
            queue: self.queue.unused(),
            most,
            place,
        }
    }

    /// How often it failed.
    pub fn faults(&self) -> u64
        ensures { result ≡ self.now.queue.counts.faults }
    {
        self.queue.faults()
    }

    /// A datagram arrives.
    pub fn arrive(&mut self, datagram: Bytes) -> Result<(), NoMemory>
        requires { length datagram ≤ 65535 }
        ensures ok { OnOk result (self.new ≡ with_queue self.old (record self.old.queue { arrived = self.old.queue.arrived ++ datagram ∷ [] })) }
        ensures err { OnErr result (self.new ≡ self.old) }
    {
        self.queue.arrive(datagram)
    }

    /// The next send fails. Takes no memory.
    pub fn fail_next(&mut self)
        ensures { self.new ≡ with_queue self.old (record self.old.queue { send_fails = true }) }
    {
        self.queue.fail_next();
    }

    /// Whether it tells what it holds: it has no room, and no call is to fail by its number.
    pub fn tells(&self) -> bool
        ensures { result ≡ is_some (told self.now.queue) }
    {
        self.queue.tells()
    }

    /// Whether a receive would now answer something other than `NotNow`.
    pub fn would_recv(&self) -> bool
        ensures { result ≡ would_receive self.now.queue }
    {
        self.queue.would_receive()
    }
}

impl Port for MemPort {
    ghost holds = { λ p. told p.queue };

    ghost past = { λ p. no_past };

    ghost counts = { λ p. p.queue.counts };

    ghost most = { λ p. p.most };

    ghost place = { λ p. p.place };

    fn send(&mut self, bytes: &[u8]) -> PortPut
        requires { length bytes.now ≤ 65535 }
        ensures sends { PortSends (told self.old.queue) (told self.new.queue) result }
        ensures past { no_past ≡ past_sent no_past bytes.now result }
        ensures counts { self.new.queue.counts ≡ after_send self.old.queue.counts result }
        ensures most { self.new.most ≡ self.old.most }
        ensures place { self.new.place ≡ self.old.place }
        ensures answer { result ≡ put_of self.old.queue (length bytes.now) }
        ensures after { self.new ≡ with_queue self.old (after_put self.old.queue (length bytes.now) result) }
    {
        self.queue.send(bytes)
    }

    fn recv(&mut self, into: &mut [u8]) -> PortGot
        requires { 65535 ≤ length into.old }
        ensures within { IsWithin into.new result }
        ensures receives { PortReceives (told self.old.queue) (told self.new.queue) into.new result }
        ensures past { no_past ≡ past_received no_past into.new result }
        ensures counts { self.new.queue.counts ≡ after_receive self.old.queue.counts result }
        ensures most { self.new.most ≡ self.old.most }
        ensures place { self.new.place ≡ self.old.place }
        ensures answer { result ≡ got_of self.old.queue }
        ensures datagram { GotDatagram self.old.queue.arrived into.new result }
        ensures after { self.new ≡ with_queue self.old (after_got self.old.queue result) }
    {
        self.queue.recv(into)
    }

    fn limit(&self) -> u32
        ensures { result ≡ self.now.most }
    {
        self.most
    }
}
