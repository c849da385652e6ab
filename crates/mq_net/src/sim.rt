//! A simulated network.
ghost use Rattle.std.specs.Prelude.{◌≡◌, ◌≤◌, ◌⊎◌, [], length, true, IfOk, OnOk, OnErr};
ghost use Rattle.mq_outside.specs.Nets.{NetSends, NetReceives};
ghost use Rattle.mq_outside.specs.Ports.{after_send, past_sent, IsWithin, after_receive, past_received};
ghost use Rattle.mq_net.specs.Sims.{Sim, new_sim, told, no_past, with_copies, waits, put_of, after_put, got_of, after_got, GotPacket};

use crate::host::answer;
use crate::store::Store;
use mq_addr::Addr;
use mq_outside::{Net, PortGot, PortPut, risen};
use mq_wire::{Bytes, NoMemory};
use std::alloc::Global;
use std::marker::Model;

/// The most answers that wait.
const MOST_ANSWERS: u32 = 65_536;
/// Their most bytes.
const MOST_ANSWERED: u32 = 16_777_216;
/// The most bytes of a packet.
const MAX_PACKET: usize = 65_535;

/// A network whose hosts answer: a UDP payload comes back, and a request for an echo is answered.
#[derive(Drop)]
pub struct SimNet {
    alloc: Global,
    hosts: Vec<Addr>,
    store: Store,
    /// Where an answer is made.
    place: Vec<u8>,
    send_fails: bool,
    receive_waits: u64,
    faults: u64,
}

impl Model for SimNet {
    ghost use Rattle.std.specs.Prelude.{◌≡◌, ◌≤◌, ◌⊎◌, [], length};
    ghost use Rattle.mq_net.specs.Sims.{Sim};

    ghost Value = { Sim };

    ghost view = { λ n. record {
      hosts = n.hosts.items;
      arrived = n.store.arrived;
      send_fails = n.send_fails;
      counts = record { send_waits = 0; receive_waits = n.receive_waits; faults = n.faults };
    } };

    ghost invariant = { λ n. (n.hosts.items ≡ []) ⊎ ((n.store.most ≡ 65536) × (n.store.most_bytes ≡ 16777216) × (65535 ≤ length n.place.items)) };
}

impl SimNet {
    /// A network of these hosts, in which nothing waits. Takes all memory that sends and receives need: none for answers
    /// where there are no hosts.
    pub fn new(alloc: Global, hosts: &[Addr]) -> Result<SimNet, NoMemory>
        ensures { IfOk result (λ n. n ≡ new_sim hosts.now) }
    {
        if hosts.is_empty() {
            return SimNet::with_room(alloc, hosts, Store::new(alloc, 0, 0)?, 0);
        }
        SimNet::with_room(
            alloc,
            hosts,
            Store::new(alloc, MOST_ANSWERS, MOST_ANSWERED)?,
            MAX_PACKET,
        )
    }

    fn with_room(
        alloc: Global,
        hosts: &[Addr],
        store: Store,
        place: usize,
    ) -> Result<SimNet, NoMemory>
        requires empty { store.arrived ≡ [] }
        requires room { (hosts.now ≡ []) ⊎ ((store.most ≡ 65536) × (store.most_bytes ≡ 16777216) × (65535 ≤ place)) }
        ensures { IfOk result (λ n. n ≡ new_sim hosts.now) }
    {
        let hosts = Vec::from_slice(alloc, hosts)?;
        let place = Vec::from_elem(alloc, 0, place)?;
        Ok(SimNet {
            alloc,
            hosts,
            store,
            place,
            send_fails: false,
            receive_waits: 0,
            faults: 0,
        })
    }

    /// So many copies of a packet arrive, or none.
    pub fn arrive(&mut self, packet: &[u8], count: u32) -> Result<(), NoMemory>
        requires { length packet.now ≤ 65535 }
        ensures ok { OnOk result (self.new ≡ with_copies count packet.now self.old) }
        ensures err { OnErr result (self.new ≡ self.old) }
    {
        let Some(more) = count.checked_sub(1) else {
            return Ok(());
        };
        let copy = Vec::from_slice(self.alloc, packet)?;
        self.store.push(Bytes::from_vec(copy), more)
    }

    /// The next send fails. Takes no memory.
    pub fn fail_next(&mut self)
        ensures { self.new ≡ record self.old { send_fails = true } }
    {
        self.send_fails = true;
    }

    /// Whether a packet waits. Takes no memory.
    pub fn waiting(&self) -> bool
        ensures { result ≡ waits self.now }
    {
        !self.store.is_empty()
    }
}

impl Net for SimNet {
    ghost holds = { told };

    ghost past = { λ n. no_past };

    ghost counts = { λ n. n.counts };

    fn send(&mut self, packet: &[u8]) -> PortPut
        requires { length packet.now ≤ 65535 }
        ensures sends { NetSends (told self.old) (told self.new) packet.now result }
        ensures past { no_past ≡ past_sent no_past packet.now result }
        ensures counts { self.new.counts ≡ after_send self.old.counts result }
        ensures answer { result ≡ put_of self.old }
        ensures after { self.new ≡ after_put self.old packet.now }
    {
        if self.send_fails {
            self.send_fails = false;
            self.faults = risen(self.faults);
            return PortPut::Failed;
        }
        if answer(self.hosts.as_slice(), packet, self.place.as_mut_slice()) {
            let (back, _) = self.place.as_slice().split_at(packet.len());
            self.store.push_answer(back);
        }
        PortPut::Sent
    }

    fn recv(&mut self, into: &mut [u8]) -> PortGot
        requires { 65535 ≤ length into.old }
        ensures within { IsWithin into.new result }
        ensures receives { NetReceives (told self.old) (told self.new) into.new result }
        ensures past { no_past ≡ past_received no_past into.new result }
        ensures counts { self.new.counts ≡ after_receive self.old.counts result }
        ensures answer { result ≡ got_of self.old }
        ensures packet { GotPacket self.old.arrived into.new result }
        ensures after { self.new ≡ after_got self.old }
    {
        match self.store.pop(into) {
            Some(size) => PortGot::Datagram(size),
            None => {
                self.receive_waits = risen(self.receive_waits);
                PortGot::NotNow
            }
        }
    }
}
