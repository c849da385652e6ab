//! A table of bound ports, with what binds them. Each port that was bound is handed back once.
ghost use Rattle.std.specs.Prelude.{◌≡◌, ◌≤◌, ℕ, [], length, None, Some, IfOk, IfErr, OnOk, OnErr, IfNone, IfSome, MatchOption, option_copied};
ghost use Rattle.slab.specs.Slab.{get, Updates, HasRoomFor};
ghost use Rattle.mq_outside.specs.Counts.{risen_by, no_port_counts};
ghost use Rattle.mq_outside.specs.Ports.{after_bind, next_place, limit_of, IsNothing, PortSends, after_send, past_sent, PortReceives, IsWithin, after_receive, past_received};
ghost use Rattle.mq_ports.specs.Tables.{IsBalanced, AreAllBack, IsEmpty, Changes, Adds, IsBack, BindsPort, FailsBind, past_more};

use mq_addr::Addr;
use mq_outside::{Failed, Port, PortGot, PortPut, Ports};
use mq_wire::NoMemory;
use slab::Slab;
use std::alloc::Global;

/// Bound ports, each under the key that its bind gave, and what binds them.
#[derive(Drop)]
pub struct PortTable<P: Ports> {
    pub ports: P,
    pub table: Slab<P::P>,
}

impl<P: Ports> PortTable<P> {
    /// No port is bound by it yet. Takes no memory.
    pub fn new(alloc: Global, ports: P) -> PortTable<P>
        ensures ports { result.ports ≡ ports }
        ensures table { result.table.slots ≡ [] }
    {
        PortTable {
            ports,
            table: Slab::new(alloc),
        }
    }

    /// Takes the room for one port more.
    pub fn reserve(&mut self) -> Result<(), NoMemory>
        ensures room { OnOk result (HasRoomFor self.new.table 1) }
        ensures table { self.new.table ≡ record self.old.table { capacity = self.new.table.capacity } }
        ensures ports { self.new.ports ≡ self.old.ports }
    {
        self.table.reserve(1)?;
        Ok(())
    }

    /// Binds a port for this remote address and port number, in the room that was taken, and gives its key.
    pub fn bind(&mut self, addr: &Addr, number: u16) -> Result<usize, Failed>
        requires room { HasRoomFor self.old.table 1 }
        ensures ok { IfOk result (λ key. (port : P.P) × Adds self.old.table self.new.table key port
            × BindsPort P.P.holds (P.holds self.old.ports) (P.holds self.new.ports) port
            × (P.past self.new.ports ≡ past_more (P.past self.old.ports) (record { addr = addr.now; number = number }))
            × (P.P.most port ≡ limit_of addr.now) × (P.P.place port ≡ next_place (P.past self.old.ports)) × (P.P.counts port ≡ no_port_counts)
            × IsNothing (P.P.past port).gave × IsNothing (P.P.past port).sent) }
        ensures err { IfErr result (λ failed. (self.new.table ≡ self.old.table) × (P.past self.new.ports ≡ P.past self.old.ports)
            × FailsBind P.P.holds (P.holds self.old.ports) (P.holds self.new.ports) failed) }
        ensures faults { P.faults self.new.ports ≡ after_bind (P.faults self.old.ports) result }
        ensures balanced { IsBalanced P.P.place (P.past self.old.ports) self.old.table.slots → IsBalanced P.P.place (P.past self.new.ports) self.new.table.slots }
    {
        let port = self.ports.bind(addr, number)?;
        let key = self.table.insert_reserved(port);
        Ok(key)
    }

    /// The port under a key.
    pub fn port(&self, key: usize) -> Option<&P::P>
        ensures { option_copied result ≡ get self.now.table key }
    {
        self.table.get(key)
    }

    /// The longest payload that the port under a key takes.
    pub fn limit(&self, key: usize) -> Option<u32>
        ensures { MatchOption result (get self.now.table key ≡ None) (λ limit. (port : P.P) × (get self.now.table key ≡ Some port) × (limit ≡ P.P.most port)) }
    {
        let port = self.table.get(key)?;
        Some(port.limit())
    }

    /// Sends one datagram on the port under a key.
    pub fn send(&mut self, key: usize, bytes: &[u8]) -> Option<PortPut>
        requires { length bytes.now ≤ 65535 }
        ensures sends { MatchOption result ((get self.old.table key ≡ None) × (self.new ≡ self.old)) (λ put. Changes self.old.table self.new.table key
            (λ was now. PortSends (P.P.holds was) (P.P.holds now) put × (P.P.past now ≡ past_sent (P.P.past was) bytes.now put)
            × (P.P.counts now ≡ after_send (P.P.counts was) put) × (P.P.most now ≡ P.P.most was) × (P.P.place now ≡ P.P.place was))) }
        ensures ports { self.new.ports ≡ self.old.ports }
        ensures balanced { IsBalanced P.P.place (P.past self.old.ports) self.old.table.slots → IsBalanced P.P.place (P.past self.new.ports) self.new.table.slots }
    {
        let port = self.table.get_mut(key)?;
        Some(port.send(bytes))
    }

    /// Receives one datagram on the port under a key, to the front of a buffer.
    pub fn recv(&mut self, key: usize, into: &mut [u8]) -> Option<PortGot>
        requires { 65535 ≤ length into.old }
        ensures receives { MatchOption result ((get self.old.table key ≡ None) × (self.new ≡ self.old)) (λ got. Changes self.old.table self.new.table key
            (λ was now. PortReceives (P.P.holds was) (P.P.holds now) into.new got × (P.P.past now ≡ past_received (P.P.past was) into.new got)
            × (P.P.counts now ≡ after_receive (P.P.counts was) got) × (P.P.most now ≡ P.P.most was) × (P.P.place now ≡ P.P.place was))) }
        ensures within { IfSome result (λ got. IsWithin into.new got) }
        ensures size { length into.new ≡ length into.old }
        ensures ports { self.new.ports ≡ self.old.ports }
        ensures balanced { IsBalanced P.P.place (P.past self.old.ports) self.old.table.slots → IsBalanced P.P.place (P.past self.new.ports) self.new.table.slots }
    {
        let port = self.table.get_mut(key)?;
        Some(port.recv(into))
    }

    /// Hands back the port under a key, whose tunnel has closed. Takes no memory.
    pub fn retire(&mut self, key: usize)
        ensures gone { Updates self.old.table self.new.table key None }
        ensures back { MatchOption (get self.old.table key) (self.new ≡ self.old) (λ port. IsBack P.P.past P.P.place (P.past self.old.ports) (P.past self.new.ports) port
            × (P.holds self.new.ports ≡ P.holds self.old.ports) × (P.faults self.new.ports ≡ risen_by (P.P.counts port).faults (P.faults self.old.ports))) }
        ensures balanced { IsBalanced P.P.place (P.past self.old.ports) self.old.table.slots → IsBalanced P.P.place (P.past self.new.ports) self.new.table.slots }
    {
        let Some(port) = self.table.try_remove(key) else {
            return;
        };
        self.ports.retire(port);
    }

    /// Gives back what binds ports. No port is bound any more.
    pub fn close(self) -> P
        requires { IsEmpty self.table.slots }
        ensures same { result ≡ self.ports }
        ensures once { IsBalanced P.P.place (P.past self.ports) self.table.slots → AreAllBack (P.past result) }
    {
        let PortTable { ports, table } = self;
        ports
    }
}
