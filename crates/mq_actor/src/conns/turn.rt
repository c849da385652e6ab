//! The turn of the connection at a place, and a packet that comes to it.
ghost use Rattle.std.specs.Prelude.{◌≡◌, ◌≢◌, ◌<◌, true, IfOk, is_some};
ghost use Rattle.std.specs.Vec.{vec_len};
ghost use Rattle.mq_talk.specs.Offices.{IsSound};
ghost use Rattle.mq_machine.specs.Acting.{binder};
ghost use Rattle.mq_ports.specs.Tables.{IsBalanced};
ghost use Rattle.mq_step.specs.Notes.{stepped_with};
ghost use Rattle.mq_step.specs.Holds.{HasInboxes};
ghost use Rattle.mq_step.specs.Rooms.{HasRooms};
ghost use Rattle.mq_actor.specs.Holds.{HaveOwnPorts};
ghost use Rattle.mq_actor.specs.Passing.{AreKnown, TurnsAt};
ghost use Rattle.mq_actor.specs.Seats.{ComesAt};

use crate::conns::Conns;
use crate::inbox::source_of;
use mq_held::{ReceiveReady, WriteReady};
use mq_machine::Setup;
use mq_outside::Ports;
use mq_ports::PortTable;
use mq_step::{Rooms, Stepped, step};
use mq_talk::{Mail, Note, Office, Parcel};
use mq_wire::NoMemory;
use std::alloc::Global;

impl<L: Drop> Conns<L> {
    /// A packet comes to this tunnel of the one at a place.
    pub(crate) fn come_at(&mut self, place: usize, tunnel: u32, parcel: Parcel) -> Note
        requires { place < vec_len self.old }
        ensures { ComesAt place tunnel parcel self.old.items self.new.items result }
    {
        let held = &mut self.list[place];
        held.conn
            .deliver(source_of(parcel.from), parcel.n, tunnel, parcel.packet)
    }
}

impl<L: WriteReady> Conns<L> {
    /// The connection at a place does the first of its tries that can be done.
    pub(crate) fn turn_at<P: Ports, O: Office, M: Mail>(
        &mut self,
        alloc: Global,
        place: usize,
        setup: &Setup,
        rooms: &mut Rooms,
        table: &mut PortTable<P>,
        office: &mut O,
        mail: &mut M,
        told: &mut Option<Note>,
    ) -> Result<Stepped, NoMemory>
    where
        P::P: ReceiveReady,
        requires known { AreKnown (record { most = P.P.most; link = L.holds; link_counts = L.counts; port = P.P.holds; port_counts = P.P.counts }) (record { conns = self.old.items; table = table.old.table; binds = binder P.holds P.faults table.old.ports; seen = O.seen office.old; boxes = M.boxes mail.old }) }
        requires ports { HaveOwnPorts self.old.items }
        requires rooms { HasRooms rooms.old }
        requires inboxes { HasInboxes (O.seen office.old) (M.count mail.old) (M.boxes mail.old) }
        requires pump { setup.now.pump ≡ (O.seen office.old).config.workers }
        requires place { place < vec_len self.old }
        ensures turns { TurnsAt (record { most = P.P.most; link = L.holds; link_counts = L.counts; port = P.P.holds; port_counts = P.P.counts }) setup.now place (record { conns = self.old.items; table = table.old.table; binds = binder P.holds P.faults table.old.ports; seen = O.seen office.old; boxes = M.boxes mail.old }) (record { conns = self.new.items; table = table.new.table; binds = binder P.holds P.faults table.new.ports; seen = O.seen office.new; boxes = M.boxes mail.new }) (stepped_with result told.new) }
        ensures told { IfOk result (λ stepped. stepped ≢ Stepped.Quiet → is_some told.new ≡ true) }
        ensures ports { HaveOwnPorts self.new.items }
        ensures rooms { HasRooms rooms.new }
        ensures actor { (O.seen office.new).actor ≡ (O.seen office.old).actor }
        ensures sound { IsSound (O.seen office.old) → IsSound (O.seen office.new) }
        ensures mail { (M.actor mail.new ≡ M.actor mail.old) × (M.count mail.new ≡ M.count mail.old) × (M.missed mail.new ≡ M.missed mail.old) }
        ensures inboxes { HasInboxes (O.seen office.new) (M.count mail.new) (M.boxes mail.new) }
        ensures balanced { IsBalanced P.P.place (P.past table.old.ports) table.old.table.slots → IsBalanced P.P.place (P.past table.new.ports) table.new.table.slots }
    {
        self.next = place + 1;
        let held = &mut self.list[place];
        step(alloc, held, setup, rooms, table, office, mail, told)
    }
}
