//! What binds ports in memory, whose world says which binds fail.
ghost use Rattle.std.specs.Prelude.{◌≡◌, ◌<◌, ◌≤◌, [], ◌++◌, ◌∷◌, ◌+◌, if◌then◌else◌, nat_lt, length, map, drop, slice_get, true, false, is_some, Some, IfOk, IfNone, IfSome, MatchOption};
ghost use Rattle.std.specs.Option.{option_map};
ghost use Rattle.std.specs.Vec.{vec_len, vec_capacity};
ghost use Rattle.std.specs.VecDeque.{deque_len};
ghost use Rattle.mq_outside.specs.Counts.{risen, risen_by, no_port_counts};
ghost use Rattle.mq_outside.specs.Ports.{PortsBind, after_bind, past_bound, CanRetire, past_retired, next_place, limit_of, IsNothing};
ghost use Rattle.mq_mem.specs.Ports.{Ports as PortsOf, Stock as StockOf, stock_of, new_ports, told_of, told_ports, ports_past, retired_of, no_past, handed_out, next_of, place_of, stock_bound, Binds, after_bind as ports_bound, stock_retired};

use crate::calls::Calls;
use crate::port::MemPort;
use mq_addr::Addr;
use mq_outside::{Binding, Failed, Port, Ports, risen, risen_by};
use mq_wire::{NoMemory, Seq};
use std::alloc::Global;
use std::collections::VecDeque;
use std::marker::Model;

/// Ports that are bound one after the other, with room for what is told of them later.
#[derive(Drop)]
struct Stock {
    coming: VecDeque<MemPort>,
    bound: Vec<Binding>,
    retired: Vec<MemPort>,
}

impl Model for Stock {
    ghost Value = { StockOf };

    ghost view = { λ s. record { coming = s.coming.items; bound = s.bound.items; retired = s.retired.items } };

    ghost invariant = { λ s. (vec_len s.bound + deque_len s.coming ≤ vec_capacity s.bound)
        × (vec_len s.bound + deque_len s.coming ≤ vec_capacity s.retired) };
}

impl Stock {
    fn new(alloc: Global, ports: Seq<MemPort>) -> Result<Stock, NoMemory>
        ensures { IfOk result (λ s. s ≡ stock_of ports) }
    {
        let coming = VecDeque::from(ports.into_vec());
        let bound = Vec::with_capacity(alloc, coming.len())?;
        let retired = Vec::with_capacity(alloc, coming.len())?;
        Ok(Stock {
            coming,
            bound,
            retired,
        })
    }

    /// The next port, which is bound for this.
    fn next(&mut self, binding: Binding) -> Option<MemPort>
        ensures port { result ≡ slice_get self.old.coming 0 }
        ensures none { IfNone result (self.new ≡ self.old) }
        ensures some { IfSome result (λ port. self.new ≡ record self.old { coming = drop 1 self.old.coming; bound = self.old.bound ++ binding ∷ [] }) }
    {
        let port = self.coming.pop_front()?;
        if self.bound.push(binding).is_err() {
            unreachable!()
        }
        Some(port)
    }

    /// How many ports were bound.
    fn bound(&self) -> u64
        ensures { result ≡ length self.now.bound }
    {
        self.bound.len() as u64
    }

    /// Takes a port back, unless as many were taken back as were bound.
    fn retire(&mut self, port: MemPort)
        ensures { self.new ≡ (if nat_lt (length self.old.retired) (length self.old.bound) then record self.old { retired = self.old.retired ++ port ∷ [] } else self.old) }
    {
        if self.retired.len() < self.bound.len() && self.retired.push(port).is_err() {
            unreachable!()
        }
    }
}

/// The longest payload of a datagram to this address (RFC 768; RFC 791, section 3.1; RFC 8200, section 3).
fn limit(addr: &Addr) -> u32
    ensures { result ≡ limit_of addr.now }
{
    match addr {
        Addr::V4(_) => 65_507,
        Addr::V6(_) => 65_527,
    }
}

/// What binds ports in memory.
#[derive(Drop)]
pub struct MemPorts {
    bind_fails: bool,
    stock: Option<Stock>,
    calls: Calls,
    faults: u64,
    alloc: Global,
}

impl Model for MemPorts {
    ghost Value = { PortsOf };

    ghost view = { λ p. record { bind_fails = p.bind_fails; stock = p.stock; calls = p.calls; faults = p.faults } };
}

impl MemPorts {
    /// It binds these ports in order, and fails when all were bound; it tells what was bound and handed back. Without ports
    /// it binds an empty one each time, and keeps nothing of what was bound. The binds of the numbers in `fails`, counted
    /// from 0, fail.
    pub fn new(
        alloc: Global,
        ports: Option<Seq<MemPort>>,
        fails: Seq<u64>,
    ) -> Result<MemPorts, NoMemory>
        ensures { IfOk result (λ p. p ≡ new_ports ports fails) }
    {
        let stock = match ports {
            None => None,
            Some(ports) => Some(Stock::new(alloc, ports)?),
        };
        Ok(MemPorts {
            bind_fails: false,
            stock,
            calls: Calls::new(fails),
            faults: 0,
            alloc,
        })
    }

    /// It has no port to bind: each bind fails. Takes no memory.
    pub(crate) fn none(alloc: Global) -> MemPorts
        ensures { result ≡ new_ports (Some []) [] }
    {
        MemPorts {
            bind_fails: false,
            stock: Some(Stock {
                coming: VecDeque::new(alloc),
                bound: Vec::new(alloc),
                retired: Vec::new(alloc),
            }),
            calls: Calls::new(Seq::from_vec(Vec::new(alloc))),
            faults: 0,
            alloc,
        }
    }

    /// The next bind fails. Takes no memory.
    pub fn fail_next(&mut self)
        ensures { self.new ≡ record self.old { bind_fails = true } }
    {
        self.bind_fails = true;
    }

    /// Takes that order back, and tells whether it still stood. Takes no memory.
    pub fn unfail(&mut self) -> bool
        ensures answer { result ≡ self.old.bind_fails }
        ensures after { self.new ≡ record self.old { bind_fails = false } }
    {
        let stood = self.bind_fails;
        self.bind_fails = false;
        stood
    }

    /// The next port, and its place.
    fn next(&mut self, binding: Binding) -> Option<MemPort>
        ensures port { result ≡ option_map (handed_out (limit_of binding.addr) (place_of self.old.stock)) (next_of self.old.stock) }
        ensures none { IfNone result (self.new ≡ self.old) }
        ensures some { IfSome result (λ port. self.new ≡ record self.old { stock = stock_bound self.old.stock binding }) }
    {
        let most = limit(&binding.addr);
        let Some(stock) = &mut self.stock else {
            return Some(MemPort::empty(self.alloc).handed_out(most, None));
        };
        let place = stock.bound();
        let port = stock.next(binding)?;
        Some(port.handed_out(most, Some(place)))
    }

    /// Binds, as `bind` does.
    fn bind_now(&mut self, binding: Binding) -> Result<MemPort, Failed>
        ensures answer { Binds self.old binding result }
        ensures after { self.new ≡ ports_bound self.old binding result }
    {
        let listed = self.calls.next_fails();
        if listed || self.bind_fails {
            self.bind_fails = false;
            self.faults = risen(self.faults);
            return Err(Failed);
        }
        let Some(port) = self.next(binding) else {
            self.faults = risen(self.faults);
            return Err(Failed);
        };
        Ok(port)
    }
}

impl Ports for MemPorts {
    type P = MemPort;

    ghost holds = { told_ports };

    ghost past = { λ p. ports_past p.stock };

    ghost faults = { λ p. p.faults };

    fn bind(&mut self, addr: &Addr, port: u16) -> Result<MemPort, Failed>
        ensures binds { PortsBind told_of (told_ports self.old) (told_ports self.new) result }
        ensures past { ports_past self.new.stock ≡ past_bound (ports_past self.old.stock) (record { addr = addr.now; number = port }) result }
        ensures faults { self.new.faults ≡ after_bind self.old.faults result }
        ensures most { IfOk result (λ bound. bound.most ≡ limit_of addr.now) }
        ensures place { IfOk result (λ bound. bound.place ≡ next_place (ports_past self.old.stock)) }
        ensures fresh { IfOk result (λ bound. (bound.queue.counts ≡ no_port_counts) × IsNothing no_past.gave × IsNothing no_past.sent) }
        ensures answer { Binds self.old (record { addr = addr.now; number = port }) result }
        ensures after { self.new ≡ ports_bound self.old (record { addr = addr.now; number = port }) result }
    {
        let binding = Binding {
            addr: *addr,
            number: port,
        };
        self.bind_now(binding)
    }

    fn retire(&mut self, port: MemPort)
        ensures holds { told_ports self.new ≡ told_ports self.old }
        ensures past { CanRetire (ports_past self.old.stock) → ports_past self.new.stock ≡ past_retired (ports_past self.old.stock) (retired_of port) }
        ensures faults { self.new.faults ≡ risen_by port.queue.counts.faults self.old.faults }
        ensures after { self.new ≡ record self.old { stock = stock_retired self.old.stock port; faults = risen_by port.queue.counts.faults self.old.faults } }
    {
        self.faults = risen_by(self.faults, port.faults());
        if let Some(stock) = &mut self.stock {
            stock.retire(port);
        }
    }
}
