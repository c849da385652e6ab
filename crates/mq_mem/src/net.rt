//! A network in memory, whose world says what arrives and which calls fail.
ghost use Rattle.std.specs.Prelude.{◌≡◌, ◌≤◌, ◌++◌, ◌∷◌, [], length, true, is_some, IfOk, OnOk, OnErr};
ghost use Rattle.mq_outside.specs.Nets.{NetSends, NetReceives};
ghost use Rattle.mq_outside.specs.Ports.{after_send, past_sent, IsWithin, after_receive, past_received};
ghost use Rattle.mq_mem.specs.Nets.{told_net};
ghost use Rattle.mq_mem.specs.Ports.{Queue as QueueOf, AllShort, no_past, new_queue, put_of, after_put, got_of, after_got, GotDatagram, would_receive};

use crate::queue::Queue;
use mq_outside::{Net, PortGot, PortPut};
use mq_wire::{Bytes, NoMemory, Seq};
use std::marker::Model;

/// A network in memory, without hosts: no one answers what it sends, and it keeps nothing of that.
#[derive(Drop)]
pub struct MemNet {
    queue: Queue,
}

impl Model for MemNet {
    ghost Value = { QueueOf };

    ghost view = { λ n. n.queue };
}

impl MemNet {
    /// A network from which these packets come, of which none is longer than 65,535 bytes. With a room, a send fails that
    /// doesn't fit whole into what is left of it. The calls of the numbers in `fails` fail: its sends and receives, counted
    /// together from 0.
    pub fn new(packets: Seq<Bytes>, room: Option<u32>, fails: Seq<u64>) -> Result<MemNet, NoMemory>
        requires { AllShort packets }
        ensures { IfOk result (λ n. n ≡ new_queue packets room fails) }
    {
        Ok(MemNet {
            queue: Queue::new(packets, room, fails),
        })
    }

    /// A packet arrives.
    pub fn arrive(&mut self, packet: Bytes) -> Result<(), NoMemory>
        requires { length packet ≤ 65535 }
        ensures ok { OnOk result (self.new ≡ record self.old { arrived = self.old.arrived ++ packet ∷ [] }) }
        ensures err { OnErr result (self.new ≡ self.old) }
    {
        self.queue.arrive(packet)
    }

    /// The next send fails. Takes no memory.
    pub fn fail_next(&mut self)
        ensures { self.new ≡ record self.old { send_fails = true } }
    {
        self.queue.fail_next();
    }

    /// Whether it tells what it holds: its room can't be used up, and no call is to fail by its number.
    #[tactic(auto, using(crate::proofs::Hosts::same_telling))]
    pub fn tells(&self) -> bool
        ensures { result ≡ is_some (told_net self.now) }
    {
        self.queue.tells()
    }

    /// Whether a receive would now answer something other than `NotNow`.
    pub fn would_recv(&self) -> bool
        ensures { result ≡ would_receive self.now }
    {
        self.queue.would_receive()
    }
}

impl Net for MemNet {
    ghost holds = { told_net };

    ghost past = { λ n. no_past };

    ghost counts = { λ n. n.counts };

    #[tactic(auto, using(crate::proofs::Hosts::no_answer))]
    fn send(&mut self, packet: &[u8]) -> PortPut
        requires { length packet.now ≤ 65535 }
        ensures sends { NetSends (told_net self.old) (told_net self.new) packet.now result }
        ensures past { no_past ≡ past_sent no_past packet.now result }
        ensures counts { self.new.counts ≡ after_send self.old.counts result }
        ensures answer { result ≡ put_of self.old (length packet.now) }
        ensures after { self.new ≡ after_put self.old (length packet.now) result }
    {
        self.queue.send(packet)
    }

    fn recv(&mut self, into: &mut [u8]) -> PortGot
        requires { 65535 ≤ length into.old }
        ensures within { IsWithin into.new result }
        ensures receives { NetReceives (told_net self.old) (told_net self.new) into.new result }
        ensures past { no_past ≡ past_received no_past into.new result }
        ensures counts { self.new.counts ≡ after_receive self.old.counts result }
        ensures answer { result ≡ got_of self.old }
        ensures datagram { GotDatagram self.old.arrived into.new result }
        ensures after { self.new ≡ after_got self.old result }
    {
        self.queue.recv(into)
    }
}
