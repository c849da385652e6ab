//! Everything that is outside, in memory.
ghost use Rattle.std.specs.Prelude.{◌≡◌, ℕ, length, None, [], IfOk};
ghost use Rattle.mq_mem.specs.Calls.{no_calls};
ghost use Rattle.mq_mem.specs.Outsides.{AreNew, AreUnbound, AreUnused, Around, no_faults};

use crate::acceptor::MemAcceptor;
use crate::calls::Calls;
use crate::link::MemLink;
use crate::net::MemNet;
use crate::ports::MemPorts;
use mq_addr::Addr;
use mq_outside::{Acceptor, Bell, Failed, Link, Net, Outside, Ports, risen, risen_by};
use mq_wire::{Bytes, NoMemory, Seq};
use std::alloc::Global;
use std::collections::VecDeque;
use std::marker::Model;

/// What wakes nobody, and waits for nobody.
#[derive(Drop)]
pub struct MemBell {}

impl Bell for MemBell {
    fn ring(&self) {}

    fn wait(&self) {}
}

/// A link that was handed back.
#[derive(Drop)]
pub struct HandedBack {
    pub is_dialled: bool,
    pub number: u32,
    pub link: MemLink,
}

/// An outside of objects in memory. It hands out what it was made with: the acceptor once, the links that are dialled in order,
/// and what binds ports and the network in order; behind these what binds no port, and a network without packets and without
/// room. An `acceptor` or a `dial` fails where that was ordered, or where there is none left.
#[derive(Drop)]
pub struct MemOutside {
    alloc: Global,
    acceptor: Option<MemAcceptor>,
    dialled: VecDeque<MemLink>,
    ports: VecDeque<MemPorts>,
    nets: VecDeque<MemNet>,
    calls: Calls,
    accept_faults: u64,
    dial_faults: u64,
    link_faults: u64,
    backs: Vec<HandedBack>,
}

impl Model for MemOutside {
    ghost use Rattle.mq_mem.specs.Outsides.{AreNew, AreUnbound, AreUnused, Around};

    ghost Value = { Around };

    ghost view = { λ o. record {
      acceptor = o.acceptor;
      dialled = o.dialled.items;
      calls = o.calls;
      faults = record { accepting = o.accept_faults; dialling = o.dial_faults; links = o.link_faults };
    } };

    ghost invariant = { λ o. AreNew o.dialled.items × AreUnbound o.ports.items × AreUnused o.nets.items };
}

impl MemOutside {
    /// It hands out these, on which nothing was done yet. The calls of the numbers in `fails` fail: `acceptor` and `dial`,
    /// counted together from 0.
    pub fn new(
        alloc: Global,
        acceptor: MemAcceptor,
        dialled: Seq<MemLink>,
        ports: Seq<MemPorts>,
        nets: Seq<MemNet>,
        fails: Seq<u64>,
    ) -> Result<MemOutside, NoMemory>
        requires dialled { AreNew dialled }
        requires ports { AreUnbound ports }
        requires nets { AreUnused nets }
        ensures { IfOk result (λ o. o ≡ record { acceptor = Some acceptor; dialled = dialled; calls = no_calls fails; faults = no_faults }) }
    {
        let room = acceptor.waiting().saturating_add(dialled.as_slice().len());
        Ok(MemOutside {
            alloc,
            acceptor: Some(acceptor),
            dialled: VecDeque::from(dialled.into_vec()),
            ports: VecDeque::from(ports.into_vec()),
            nets: VecDeque::from(nets.into_vec()),
            calls: Calls::new(fails),
            accept_faults: 0,
            dial_faults: 0,
            link_faults: 0,
            backs: Vec::with_capacity(alloc, room)?,
        })
    }

    /// Nobody can be dialled, and no link comes: there is no acceptor, and no call fails by a number. Takes no memory.
    pub fn nowhere(alloc: Global) -> MemOutside
        ensures { result ≡ record { acceptor = None; dialled = []; calls = no_calls []; faults = no_faults } }
    {
        MemOutside {
            alloc,
            acceptor: None,
            dialled: VecDeque::new(alloc),
            ports: VecDeque::new(alloc),
            nets: VecDeque::new(alloc),
            calls: Calls::new(Seq::from_vec(Vec::new(alloc))),
            accept_faults: 0,
            dial_faults: 0,
            link_faults: 0,
            backs: Vec::new(alloc),
        }
    }

    /// The links that were handed back, in order, of which there is room for as many as could be handed out.
    pub fn backs(&self) -> &[HandedBack] {
        self.backs.as_slice()
    }

    /// Keeps a link that was handed back, where there is room.
    fn keep_back(&mut self, back: HandedBack)
        ensures { self.new ≡ self.old }
    {
        if self.backs.len() < self.backs.capacity() && self.backs.push(back).is_err() {
            unreachable!()
        }
    }
}

impl Outside for MemOutside {
    type L = MemLink;

    type A = MemAcceptor;

    type Ps = MemPorts;

    type N = MemNet;

    type B = MemBell;

    ghost use Rattle.std.specs.Prelude.{Some, None};
    ghost use Rattle.mq_mem.specs.Outsides.{accepted_of, coming_of};

    ghost holds = { λ o. record { accepted = accepted_of o.acceptor; dialled = coming_of o.dialled } };

    ghost past = { λ o. None };

    ghost faults = { λ o. o.faults };

    fn acceptor(&mut self, _: u16, count: u32) -> Result<MemAcceptor, Failed> {
        if self.calls.next_fails() {
            self.accept_faults = risen(self.accept_faults);
            return Err(Failed);
        }
        match self.acceptor.take() {
            Some(acceptor) => Ok(acceptor.made_for(count)),
            None => {
                self.accept_faults = risen(self.accept_faults);
                Err(Failed)
            }
        }
    }

    fn ports(&mut self) -> MemPorts {
        match self.ports.pop_front() {
            Some(ports) => ports,
            None => MemPorts::none(self.alloc),
        }
    }

    fn net(&mut self, _: &[Addr]) -> Result<MemNet, NoMemory> {
        match self.nets.pop_front() {
            Some(net) => Ok(net),
            None => MemNet::new(
                Seq::from_vec(Vec::new(self.alloc)),
                Some(0),
                Seq::from_vec(Vec::new(self.alloc)),
            ),
        }
    }

    fn dial(&mut self, _: &Addr, _: u16) -> Result<MemLink, Failed> {
        if self.calls.next_fails() {
            self.dial_faults = risen(self.dial_faults);
            return Err(Failed);
        }
        match self.dialled.pop_front() {
            Some(link) => Ok(link),
            None => {
                self.dial_faults = risen(self.dial_faults);
                Err(Failed)
            }
        }
    }

    fn bell(&mut self) -> MemBell {
        MemBell {}
    }

    fn back(&mut self, dialled: bool, number: u32, rest: MemLink) {
        self.link_faults = risen_by(self.link_faults, rest.faults());
        self.keep_back(HandedBack {
            is_dialled: dialled,
            number,
            link: rest,
        });
    }

    fn back_acceptor(&mut self, acceptor: MemAcceptor) {
        self.accept_faults = risen_by(self.accept_faults, acceptor.faults());
    }

    fn back_ports(&mut self, _: u32, _: MemPorts) {}

    fn back_net(&mut self, _: MemNet) {}

    fn rest(&mut self) {}
}
