//! A worker.
ghost use Rattle.std.specs.Prelude.{◌≡◌, ◌≢◌, ◌+◌, ◌++◌, ◌∷◌, true, false, Some, None, Ok, IfOk, OnOk, IfErr, MatchOption, All, [], length};
ghost use Rattle.mq_talk.specs.Mails.{Boxes, one_missed};
ghost use Rattle.mq_machine.specs.State as machine;
ghost use Rattle.mq_machine.specs.State.{Orders, new_worker, with_offer};
ghost use Rattle.mq_talk.specs.Offices.{IsSound};
ghost use Rattle.mq_machine.specs.Acting.{Outside, Known, Writes, Steps, binder};
ghost use Rattle.mq_ports.specs.Tables.{IsBalanced};
ghost use Rattle.mq_held.specs.Notes.{HasNote, note_with};
ghost use Rattle.mq_actor.specs.Ended.{conn_numbers, offer_numbers, AreLeft};
ghost use Rattle.mq_actor.specs.Holds.{IsWorker, numbers_of};
ghost use Rattle.mq_actor.specs.Plain.{AlwaysTells, PlainStep};
ghost use Rattle.mq_actor.specs.Seen.{SeesRing};
ghost use Rattle.mq_actor.specs.Steps.{sight};
ghost use Rattle.mq_actor.specs.Told.{TellsRing};

use crate::offer::Offer;
use crate::ring::Ring;
use mq_held::{Held, ReceiveReady, WriteReady};
use mq_machine::Setup;
use mq_outside::Ports;
use mq_ports::PortTable;
use mq_talk::{Mail, Note, Office};
use mq_wire::NoMemory;
use std::alloc::Global;

/// A worker: its seats in their ring, and the bound ports of its tunnels.
#[derive(Drop)]
pub struct Actor<L, P: Ports> {
    pub alloc: Global,
    pub ring: Ring<L>,
    pub table: PortTable<P>,
}

impl<L: Drop, P: Ports> Actor<L, P> {
    /// A worker without connections, with its number.
    pub fn new(alloc: Global, id: u32, setup: Setup, ports: P) -> Result<Actor<L, P>, NoMemory>
        ensures stands { IfOk result (λ actor. IsWorker P.P.most actor.table.table actor.ring (new_worker id setup)) }
        ensures empty { IfOk result (λ actor. (actor.alloc ≡ alloc) × (actor.ring.ended ≡ None) × (actor.table.table.slots ≡ []) × (actor.table.ports ≡ ports)) }
    {
        let ring = Ring::new(alloc, id, setup)?;
        Ok(Actor {
            alloc,
            ring,
            table: PortTable::new(alloc, ports),
        })
    }

    /// Offers a link, which is to be the connection of this number. No link that is offered and no connection that hasn't ended
    /// has it. Where memory is refused, the link comes back.
    pub fn offer(&mut self, number: u32, link: L) -> Result<(), L>
        requires { All (λ other. other ≢ number) (numbers_of self.old.ring.conns.items self.old.ring.offered.items) }
        ensures offered { OnOk result ((w : machine.Worker) (held : machine.Link) → IsWorker P.P.most self.old.table.table self.old.ring w
            → IsWorker P.P.most self.new.table.table self.new.ring (with_offer number held w)) }
        ensures last { OnOk result (self.new.ring.offered.items ≡ self.old.ring.offered.items ++ record { number = number; link = link } ∷ []) }
        ensures refused { IfErr result (λ back. (back ≡ link) × (self.new.ring.offered.items ≡ self.old.ring.offered.items)) }
        ensures rest { self.new ≡ record self.old { ring = record self.old.ring { offered = self.new.ring.offered } } }
    {
        self.ring.offer(number, link)
    }

    /// The connection that the last step ended, with its link, until that is taken. It is dropped at the next step.
    pub fn ended(&mut self) -> Option<(u32, L)>
        ensures taken { MatchOption self.old.ring.ended (result ≡ None) (λ held. result ≡ Some (held.number, held.link)) }
        ensures rest { self.new ≡ record self.old { ring = record self.old.ring { ended = None } } }
    {
        let held = self.ring.ended.take()?;
        let Held { number, link, .. } = held;
        Some((number, link))
    }

    /// How many links are offered, and connections live.
    pub fn live(&self) -> usize
        ensures { result ≡ length self.now.ring.offered.items + length self.now.ring.conns.items }
    {
        self.ring.live()
    }
}

/// The note, where something was done.
fn note_with(did: Result<bool, NoMemory>, told: Option<Note>) -> Result<Option<Note>, NoMemory>
    ensures { result ≡ note_with did told }
{
    match did {
        Ok(true) => Ok(told),
        Ok(false) => Ok(None),
        Err(refused) => Err(refused),
    }
}

impl<L: WriteReady, P: Ports> Actor<L, P> {
    /// The first seat that can act acts, in the ring that begins behind the seat that acted last. None where none can. Where
    /// memory is refused, the connection whose turn it was is ending, or what its turn was is left as it is.
    pub fn step<O: Office, M: Mail>(
        &mut self,
        office: &mut O,
        mail: &mut M,
    ) -> Result<Option<Note>, NoMemory>
    where
        P::P: ReceiveReady,
        requires known { (o : Outside) × (w : machine.Worker) × IsWorker P.P.most self.old.table.table self.old.ring w × Known (sight o (O.seen office.old) (M.boxes mail.old)) w }
        requires sound { IsSound (O.seen office.old) }
        requires office { (O.seen office.old).actor ≡ self.old.ring.id }
        requires mail { M.actor mail.old ≡ self.old.ring.id }
        requires inboxes { M.count mail.old ≡ (O.seen office.old).config.workers + 1 }
        ensures gives { (o n : Outside) → SeesRing (record { most = P.P.most; link = L.holds; link_counts = L.counts; port = P.P.holds; port_counts = P.P.counts }) self.old.table.table (binder P.holds P.faults self.old.table.ports) (record self.old.ring { ended = None }) o
            → SeesRing (record { most = P.P.most; link = L.holds; link_counts = L.counts; port = P.P.holds; port_counts = P.P.counts }) self.new.table.table (binder P.holds P.faults self.new.table.ports) self.new.ring n
            → Steps (IsWorker P.P.most self.old.table.table self.old.ring) (IsWorker P.P.most self.new.table.table self.new.ring)
            (sight o (O.seen office.old) (M.boxes mail.old)) (sight n (O.seen office.new) (M.boxes mail.new)) result }
        ensures stands { (o : Outside) (w : machine.Worker) → IsWorker P.P.most self.old.table.table self.old.ring w → Known (sight o (O.seen office.old) (M.boxes mail.old)) w
            → (t : machine.Worker) × IsWorker P.P.most self.new.table.table self.new.ring t × Known (sight o (O.seen office.new) (M.boxes mail.new)) t × Writes (O.seen office.old) (O.seen office.new) self.old.ring.id }
        ensures plain { AlwaysTells L.holds → AlwaysTells P.P.holds → (o : Outside) (w : machine.Worker) (boxes : Boxes) (orders : Orders)
            → IsWorker P.P.most self.old.table.table self.old.ring w → TellsRing (record { most = P.P.most; link = L.holds; link_counts = L.counts; port = P.P.holds; port_counts = P.P.counts }) self.old.table.table self.old.ring w
            → Known (sight o (O.seen office.old) (M.boxes mail.old)) w → (O.seen office.old).is_whole ≡ true → (M.boxes mail.old).told ≡ Some boxes
            → PlainStep (record { most = P.P.most; link = L.holds; link_counts = L.counts; port = P.P.holds; port_counts = P.P.counts }) orders boxes
            (record { ring = self.old.ring; table = self.old.table.table; binds = binder P.holds P.faults self.old.table.ports; seen = O.seen office.old; boxes = M.boxes mail.old })
            (record { ring = self.new.ring; table = self.new.table.table; binds = binder P.holds P.faults self.new.table.ports; seen = O.seen office.new; boxes = M.boxes mail.new }) w result }
        ensures ring { (self.new.alloc ≡ self.old.alloc) × (self.new.ring.id ≡ self.old.ring.id) × (self.new.ring.setup ≡ self.old.ring.setup) }
        ensures left { AreLeft (conn_numbers self.old.ring) (offer_numbers self.old.ring) self.new.ring }
        ensures office { (O.seen office.new).actor ≡ (O.seen office.old).actor }
        ensures sound { IsSound (O.seen office.old) → IsSound (O.seen office.new) }
        ensures mail { M.actor mail.new ≡ M.actor mail.old }
        ensures inboxes { M.count mail.new ≡ M.count mail.old }
        ensures asked { result ≡ Ok None → M.missed mail.new ≡ one_missed (M.boxes mail.old).told (M.missed mail.old) }
        ensures balanced { IsBalanced P.P.place (P.past self.old.table.ports) self.old.table.table.slots → IsBalanced P.P.place (P.past self.new.table.ports) self.new.table.table.slots }
    {
        let mut told = None;
        let did = self.step_into(office, mail, &mut told);
        note_with(did, told)
    }

    /// Does what `step` does, and answers whether a seat acted: its note is in `told` then. What `told` holds behind another answer
    /// no clause says.
    pub fn step_into<O: Office, M: Mail>(
        &mut self,
        office: &mut O,
        mail: &mut M,
        told: &mut Option<Note>,
    ) -> Result<bool, NoMemory>
    where
        P::P: ReceiveReady,
        requires known { (o : Outside) × (w : machine.Worker) × IsWorker P.P.most self.old.table.table self.old.ring w × Known (sight o (O.seen office.old) (M.boxes mail.old)) w }
        requires sound { IsSound (O.seen office.old) }
        requires office { (O.seen office.old).actor ≡ self.old.ring.id }
        requires mail { M.actor mail.old ≡ self.old.ring.id }
        requires inboxes { M.count mail.old ≡ (O.seen office.old).config.workers + 1 }
        ensures gives { (o n : Outside) → SeesRing (record { most = P.P.most; link = L.holds; link_counts = L.counts; port = P.P.holds; port_counts = P.P.counts }) self.old.table.table (binder P.holds P.faults self.old.table.ports) (record self.old.ring { ended = None }) o
            → SeesRing (record { most = P.P.most; link = L.holds; link_counts = L.counts; port = P.P.holds; port_counts = P.P.counts }) self.new.table.table (binder P.holds P.faults self.new.table.ports) self.new.ring n
            → Steps (IsWorker P.P.most self.old.table.table self.old.ring) (IsWorker P.P.most self.new.table.table self.new.ring)
            (sight o (O.seen office.old) (M.boxes mail.old)) (sight n (O.seen office.new) (M.boxes mail.new)) (note_with result told.new) }
        ensures told { HasNote result told.new }
        ensures stands { (o : Outside) (w : machine.Worker) → IsWorker P.P.most self.old.table.table self.old.ring w → Known (sight o (O.seen office.old) (M.boxes mail.old)) w
            → (t : machine.Worker) × IsWorker P.P.most self.new.table.table self.new.ring t × Known (sight o (O.seen office.new) (M.boxes mail.new)) t × Writes (O.seen office.old) (O.seen office.new) self.old.ring.id }
        ensures plain { AlwaysTells L.holds → AlwaysTells P.P.holds → (o : Outside) (w : machine.Worker) (boxes : Boxes) (orders : Orders)
            → IsWorker P.P.most self.old.table.table self.old.ring w → TellsRing (record { most = P.P.most; link = L.holds; link_counts = L.counts; port = P.P.holds; port_counts = P.P.counts }) self.old.table.table self.old.ring w
            → Known (sight o (O.seen office.old) (M.boxes mail.old)) w → (O.seen office.old).is_whole ≡ true → (M.boxes mail.old).told ≡ Some boxes
            → PlainStep (record { most = P.P.most; link = L.holds; link_counts = L.counts; port = P.P.holds; port_counts = P.P.counts }) orders boxes
            (record { ring = self.old.ring; table = self.old.table.table; binds = binder P.holds P.faults self.old.table.ports; seen = O.seen office.old; boxes = M.boxes mail.old })
            (record { ring = self.new.ring; table = self.new.table.table; binds = binder P.holds P.faults self.new.table.ports; seen = O.seen office.new; boxes = M.boxes mail.new }) w (note_with result told.new) }
        ensures ring { (self.new.alloc ≡ self.old.alloc) × (self.new.ring.id ≡ self.old.ring.id) × (self.new.ring.setup ≡ self.old.ring.setup) }
        ensures left { AreLeft (conn_numbers self.old.ring) (offer_numbers self.old.ring) self.new.ring }
        ensures office { (O.seen office.new).actor ≡ (O.seen office.old).actor }
        ensures sound { IsSound (O.seen office.old) → IsSound (O.seen office.new) }
        ensures mail { M.actor mail.new ≡ M.actor mail.old }
        ensures inboxes { M.count mail.new ≡ M.count mail.old }
        ensures asked { result ≡ Ok false → M.missed mail.new ≡ one_missed (M.boxes mail.old).told (M.missed mail.old) }
        ensures balanced { IsBalanced P.P.place (P.past self.old.table.ports) self.old.table.table.slots → IsBalanced P.P.place (P.past self.new.table.ports) self.new.table.table.slots }
    {
        self.ring
            .step_into(self.alloc, &mut self.table, office, mail, told)
    }
}
