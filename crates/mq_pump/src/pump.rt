//! The pump: its two hands, its network, and its steps.
ghost use Rattle.std.specs.Prelude.{◌≡◌, ◌+◌, ◌||◌, [], true, None, Ok, IfOk, is_some};
ghost use Rattle.std.specs.Borrow.{sem, Lends};
ghost use Rattle.mq_talk.specs.Mails.{one_missed};
ghost use Rattle.mq_talk.specs.Offices.{IsSound};
ghost use Rattle.mq_machine.specs.Acting.{PumpSteps, Rose};
ghost use Rattle.mq_machine.specs.State as machine;
ghost use Rattle.mq_machine.specs.State.{new_net};
ghost use Rattle.mq_pump.specs.Holds.{IsPump, pump_sight};
ghost use Rattle.mq_pump.specs.contracts.pump.Pump.{the_row};

use crate::push::push;
use crate::ready::NetReady;
use mq_outside::Net;
use mq_ports::Datagrams;
use mq_talk::{Mail, Note, Office, Parcel};
use mq_wire::NoMemory;
use std::alloc::Global;

/// The actor that owns the network.
#[derive(Drop)]
pub struct Pump<N> {
    pub(crate) alloc: Global,
    pub(crate) net: N,
    /// How many workers there are: as many inboxes stand before the pump's.
    pub(crate) workers: u32,
    /// The most bytes of a packet that it takes from the network.
    pub(crate) mtu: u32,
    /// How many packets it received.
    pub(crate) received: u64,
    /// The parcel that is to be pushed.
    pub(crate) to_push: Option<Parcel>,
    /// The parcel that waits for the network.
    pub(crate) to_send: Option<Parcel>,
    /// Room for what is received next.
    pub(crate) datagrams: Datagrams,
}

impl<N: Net> Pump<N> {
    /// The pump of a network beside so many workers, which holds nothing. It takes packets of at most `mtu` bytes from the
    /// network.
    pub fn new(alloc: Global, net: N, workers: u32, mtu: u32) -> Result<Pump<N>, NoMemory>
        ensures stands { IfOk result (λ pump. IsPump pump (record { mtu = mtu; to_push = None; to_send = None; net = new_net [] })) }
        ensures is { IfOk result (λ pump. (pump.net ≡ net) × (pump.workers ≡ workers)) }
    {
        let datagrams = Datagrams::new(alloc)?;
        Ok(Pump {
            alloc,
            net,
            workers,
            mtu,
            received: 0,
            to_push: None,
            to_send: None,
            datagrams,
        })
    }

    /// Ends it, and gives the network back.
    pub fn close(self) -> N
        ensures { result ≡ self.net }
    {
        self.net
    }

    /// Whether it holds a parcel, to push or to send.
    pub fn holds(&self) -> bool
        ensures { (s : machine.Pump) → IsPump self.now s → result ≡ (is_some s.to_push || is_some s.to_send) }
    {
        self.to_push.is_some() || self.to_send.is_some()
    }

    /// The network, for reading.
    pub fn net_at(&self) -> &N
        ensures { result.now ≡ self.now.net }
    {
        &self.net
    }

    /// Lends the network. The pump stands for the same.
    pub fn net(&mut self) -> &mut N
        ensures* writes_back { sem 𝓛 (Lends (the_row N.row) N.row self.entry result (λ net. record self.old { net = net })) }
        ensures value { result.now ≡ self.old.net }
        ensures stands { (net : N) (s : machine.Pump) → IsPump self.old s → IsPump (record self.old { net = net }) s }
    {
        &mut self.net
    }
}

impl<N: NetReady> Pump<N> {
    /// One step: it pushes what it holds for that; else it sends what waits for the network, or else the next parcel of its
    /// inbox; else it receives a packet, which is judged. None where nothing of this could be done. Where memory is refused,
    /// nothing changed. A parcel waits behind the step only where the network took nothing in it, or there was one to push.
    pub fn step<O: Office, M: Mail>(
        &mut self,
        office: &mut O,
        mail: &mut M,
    ) -> Result<Option<Note>, NoMemory>
        requires stands { (s : machine.Pump) × IsPump self.old s }
        requires office { (O.seen office.old).config.workers ≡ self.old.workers }
        requires sound { IsSound (O.seen office.old) }
        requires mail { M.actor mail.old ≡ self.old.workers }
        requires inboxes { M.count mail.old ≡ self.old.workers + 1 }
        ensures gives { PumpSteps (IsPump self.old) (IsPump self.new)
            (pump_sight (N.holds self.old.net) (N.counts self.old.net) (O.seen office.old) (M.boxes mail.old))
            (pump_sight (N.holds self.new.net) (N.counts self.new.net) (O.seen office.new) (M.boxes mail.new)) result }
        ensures stands { (s : machine.Pump) × IsPump self.new s }
        ensures waits { self.old.to_push ≡ None → is_some self.new.to_send ≡ true → Rose (N.counts self.old.net).send_waits (N.counts self.new.net).send_waits }
        ensures rest { (self.new.alloc ≡ self.old.alloc) × (self.new.workers ≡ self.old.workers) × (self.new.mtu ≡ self.old.mtu) }
        ensures sound { IsSound (O.seen office.new) }
        ensures office { ((O.seen office.new).actor ≡ (O.seen office.old).actor) × ((O.seen office.new).config ≡ (O.seen office.old).config) }
        ensures mail { M.actor mail.new ≡ M.actor mail.old }
        ensures inboxes { M.count mail.new ≡ M.count mail.old }
        ensures asked { (s : machine.Pump) → IsPump self.old s → s.to_send ≡ None → result ≡ Ok None → M.missed mail.new ≡ one_missed (M.boxes mail.old).told (M.missed mail.old) }
    {
        if let Some(parcel) = self.to_push.take() {
            return Ok(Some(push(self.workers, parcel, mail)));
        }
        if let Some(note) = self.send(mail) {
            return Ok(Some(note));
        }
        self.receive(office)
    }
}
