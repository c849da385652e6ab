//! What hands out links in memory.
ghost use Rattle.std.specs.Prelude.{◌≡◌, ℕ, ◌-◌, ◌<◌, length, min, IfOk};
ghost use Rattle.mq_outside.specs.Outsides.{Accepts, AcceptsLeft, ArrivesFresh, after_accept};
ghost use Rattle.mq_mem.specs.Calls.{no_calls};
ghost use Rattle.mq_mem.specs.Outsides.{Acceptor as AcceptorOf, AreNew, coming_of};

use crate::calls::Calls;
use crate::link::MemLink;
use mq_outside::{Acceptor, Arrival, risen};
use mq_wire::{NoMemory, Seq};
use std::collections::VecDeque;
use std::marker::Model;

/// It hands out links in order, as many as it was made for. A call fails where that was ordered, or where no link is there.
#[derive(Drop)]
pub struct MemAcceptor {
    coming: VecDeque<MemLink>,
    left: u32,
    calls: Calls,
    faults: u64,
}

impl Model for MemAcceptor {
    ghost Value = { AcceptorOf };

    ghost view = { λ a. record { coming = a.coming.items; left = a.left; calls = a.calls; faults = a.faults } };

    ghost invariant = { λ a. AreNew a.coming.items };
}

impl MemAcceptor {
    /// It hands out these links, on which nothing was read or written yet. The calls of the numbers in `fails`, counted from
    /// 0, fail; one that answers `Done` isn't counted.
    pub fn new(links: Seq<MemLink>, fails: Seq<u64>) -> Result<MemAcceptor, NoMemory>
        requires { AreNew links }
        ensures { IfOk result (λ a. a ≡ record { coming = links; left = min (length links) 4294967295; calls = no_calls fails; faults = 0 }) }
    {
        let coming = VecDeque::from(links.into_vec());
        let left = coming.len().min(u32::MAX as usize) as u32;
        Ok(MemAcceptor {
            coming,
            left,
            calls: Calls::new(fails),
            faults: 0,
        })
    }

    /// How many links are there.
    pub(crate) fn waiting(&self) -> usize {
        self.coming.len()
    }

    /// How often it failed.
    pub(crate) fn faults(&self) -> u64
        ensures { result ≡ self.now.faults }
    {
        self.faults
    }

    /// The same as it is handed out: made for so many links, and with no fault counted.
    pub(crate) fn made_for(self, count: u32) -> MemAcceptor
        ensures { result ≡ record self { left = count; faults = 0 } }
    {
        MemAcceptor {
            left: count,
            faults: 0,
            ..self
        }
    }
}

impl Acceptor for MemAcceptor {
    type L = MemLink;

    ghost coming = { λ a. coming_of a.coming };

    ghost left = { λ a. a.left };

    ghost counts = { λ a. record { waits = 0; faults = a.faults } };

    fn next(&mut self) -> Arrival<MemLink> {
        if self.left == 0 {
            return Arrival::Done;
        }
        if self.calls.next_fails() {
            self.faults = risen(self.faults);
            return Arrival::Failed;
        }
        let Some(link) = self.coming.pop_front() else {
            self.faults = risen(self.faults);
            return Arrival::Failed;
        };
        self.left -= 1;
        Arrival::Link(link)
    }
}
