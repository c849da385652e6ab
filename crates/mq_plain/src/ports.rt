//! What binds ports in memory that always tell what they hold.
ghost use Rattle.std.specs.Prelude.{◌≡◌, [], true, false, Some, None, IfOk};
ghost use Rattle.mq_mem.specs.Ports.{Ports as PortsOf, new_ports};
ghost use Rattle.mq_plain.specs.Plain.{IsPlainPorts};

use crate::port::PlainPort;
use mq_addr::Addr;
use mq_mem::MemPorts;
use mq_outside::{Failed, Ports};
use mq_wire::{NoMemory, Seq};
use std::alloc::Global;
use std::marker::Model;

/// What binds an empty port each time, keeps nothing of what was bound, and fails only as it is told to.
#[derive(Drop)]
pub struct PlainPorts {
    ports: MemPorts,
}

impl Model for PlainPorts {
    ghost Value = { PortsOf };

    ghost view = { λ p. p.ports };

    ghost invariant = { λ p. IsPlainPorts p.ports };
}

impl PlainPorts {
    /// What binds ports, of which nothing was bound.
    pub fn new(alloc: Global) -> Result<PlainPorts, NoMemory>
        ensures { IfOk result (λ p. p ≡ new_ports None []) }
    {
        let ports = MemPorts::new(alloc, None, Seq::from_vec(Vec::new(alloc)))?;
        Ok(PlainPorts { ports })
    }

    /// The next bind fails. Takes no memory.
    pub(crate) fn fail_next(&mut self)
        ensures { self.new ≡ record self.old { bind_fails = true } }
    {
        self.ports.fail_next();
    }

    /// Takes that order back, and tells whether it still stood. Takes no memory.
    pub(crate) fn unfail(&mut self) -> bool
        ensures answer { result ≡ self.old.bind_fails }
        ensures after { self.new ≡ record self.old { bind_fails = false } }
    {
        self.ports.unfail()
    }
}

impl Ports for PlainPorts {
    type P = PlainPort;

    ghost holds = { λ p. Some (record { bind_fails = p.bind_fails; ports = None }) };

    ghost past = { λ p. None };

    ghost faults = { λ p. p.faults };

    fn bind(&mut self, addr: &Addr, port: u16) -> Result<PlainPort, Failed> {
        let bound = self.ports.bind(addr, port)?;
        Ok(PlainPort::of(bound))
    }

    fn retire(&mut self, port: PlainPort) {
        self.ports.retire(port.into_port());
    }
}
