//! One step of a worker.
ghost use Rattle.std.specs.Prelude.{◌≡◌, ◌+◌, false, None, Ok};
ghost use Rattle.mq_machine.specs.State.{Worker};
ghost use Rattle.mq_talk.specs.Mails.{one_missed};
ghost use Rattle.mq_talk.specs.Offices.{IsSound};
ghost use Rattle.mq_machine.specs.Acting.{Outside, Known, Steps, binder};
ghost use Rattle.mq_ports.specs.Tables.{IsBalanced};
ghost use Rattle.mq_held.specs.Notes.{HasNote, note_with};
ghost use Rattle.mq_actor.specs.Ended.{conn_numbers, offer_numbers, AreLeft};
ghost use Rattle.mq_actor.specs.Holds.{IsWorker};
ghost use Rattle.mq_actor.specs.Seen.{SeesRing};
ghost use Rattle.mq_actor.specs.Steps.{sight};

use crate::ring::Ring;
use mq_held::{ReceiveReady, WriteReady};
use mq_outside::Ports;
use mq_ports::PortTable;
use mq_talk::{Mail, Note, Office};
use mq_wire::NoMemory;
use std::alloc::Global;

impl<L: WriteReady> Ring<L> {
    /// Drops the connection that the last step ended, if its link wasn't taken. Where there is none, nothing is written: it has
    /// the size of a connection, and most steps end none.
    fn forget(&mut self)
        ensures { self.new ≡ record self.old { ended = None } }
    {
        if self.ended.is_some() {
            self.ended = None;
        }
    }

    /// The first seat that can act acts, in the ring that begins behind the seat that acted last, and puts the note of that into
    /// `told`. Answers whether one could. Where memory is refused, the connection whose turn it was is ending.
    pub fn step_into<P: Ports, O: Office, M: Mail>(
        &mut self,
        alloc: Global,
        table: &mut PortTable<P>,
        office: &mut O,
        mail: &mut M,
        told: &mut Option<Note>,
    ) -> Result<bool, NoMemory>
    where
        P::P: ReceiveReady,
        requires known { (o : Outside) × (w : Worker) × IsWorker P.P.most table.old.table self.old w × Known (sight o (O.seen office.old) (M.boxes mail.old)) w }
        requires sound { IsSound (O.seen office.old) }
        requires office { (O.seen office.old).actor ≡ self.old.id }
        requires mail { M.actor mail.old ≡ self.old.id }
        requires inboxes { M.count mail.old ≡ (O.seen office.old).config.workers + 1 }
        ensures gives { (o n : Outside) → SeesRing (record { most = P.P.most; link = L.holds; link_counts = L.counts; port = P.P.holds; port_counts = P.P.counts }) table.old.table (binder P.holds P.faults table.old.ports) (record self.old { ended = None }) o
            → SeesRing (record { most = P.P.most; link = L.holds; link_counts = L.counts; port = P.P.holds; port_counts = P.P.counts }) table.new.table (binder P.holds P.faults table.new.ports) self.new n
            → Steps (IsWorker P.P.most table.old.table self.old) (IsWorker P.P.most table.new.table self.new)
            (sight o (O.seen office.old) (M.boxes mail.old)) (sight n (O.seen office.new) (M.boxes mail.new)) (note_with result told.new) }
        ensures told { HasNote result told.new }
        ensures sights { (o : Outside) (w : Worker) → IsWorker P.P.most table.old.table self.old w → Known (sight o (O.seen office.old) (M.boxes mail.old)) w
            → (n : Outside) × SeesRing (record { most = P.P.most; link = L.holds; link_counts = L.counts; port = P.P.holds; port_counts = P.P.counts }) table.new.table (binder P.holds P.faults table.new.ports) self.new n }
        ensures ring { (self.new.id ≡ self.old.id) × (self.new.setup ≡ self.old.setup) }
        ensures left { AreLeft (conn_numbers self.old) (offer_numbers self.old) self.new }
        ensures office { (O.seen office.new).actor ≡ (O.seen office.old).actor }
        ensures sound { IsSound (O.seen office.old) → IsSound (O.seen office.new) }
        ensures mail { M.actor mail.new ≡ M.actor mail.old }
        ensures inboxes { M.count mail.new ≡ M.count mail.old }
        ensures asked { result ≡ Ok false → M.missed mail.new ≡ one_missed (M.boxes mail.old).told (M.missed mail.old) }
        ensures balanced { IsBalanced P.P.place (P.past table.old.ports) table.old.table.slots → IsBalanced P.P.place (P.past table.new.ports) table.new.table.slots }
    {
        self.forget();
        if self.accept(alloc, true, told)? {
            return Ok(true);
        }
        if self.pop(true, mail, told) {
            return Ok(true);
        }
        if self.pass(alloc, true, table, office, mail, told)? {
            return Ok(true);
        }
        if self.accept(alloc, false, told)? {
            return Ok(true);
        }
        if self.pop(false, mail, told) {
            return Ok(true);
        }
        self.pass(alloc, false, table, office, mail, told)
    }
}
