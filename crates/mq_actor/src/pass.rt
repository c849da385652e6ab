//! The connections of a part of the ring.
ghost use Rattle.std.specs.Prelude.{◌≡◌, Some};
ghost use Rattle.mq_talk.specs.Offices.{IsSound};
ghost use Rattle.mq_machine.specs.Acting.{binder};
ghost use Rattle.mq_ports.specs.Tables.{IsBalanced};
ghost use Rattle.mq_held.specs.Notes.{HasNote, note_with};
ghost use Rattle.mq_step.specs.Holds.{HasInboxes};
ghost use Rattle.mq_step.specs.Rooms.{HasRooms};
ghost use Rattle.mq_actor.specs.Beginnings.{first_place};
ghost use Rattle.mq_actor.specs.Holds.{HaveOwnPorts};
ghost use Rattle.mq_actor.specs.Passing.{AreKnown, PassGives};

use crate::ring::Ring;
use mq_held::{ReceiveReady, WriteReady};
use mq_outside::Ports;
use mq_ports::PortTable;
use mq_talk::{Mail, Note, Office};
use mq_wire::NoMemory;
use std::alloc::Global;

impl<L: WriteReady> Ring<L> {
    /// From this place on, where its first connection is, the first connection of this part of the ring that can do something
    /// does it. Answers whether one did.
    #[inline(never)]
    fn pass_from<P: Ports, O: Office, M: Mail>(
        &mut self,
        first: usize,
        alloc: Global,
        upper: bool,
        table: &mut PortTable<P>,
        office: &mut O,
        mail: &mut M,
        told: &mut Option<Note>,
    ) -> Result<bool, NoMemory>
    where
        P::P: ReceiveReady,
        requires first { first_place upper self.old.next_seat self.old.conns.items ≡ Some first }
        requires known { AreKnown (record { most = P.P.most; link = L.holds; link_counts = L.counts; port = P.P.holds; port_counts = P.P.counts }) (record { conns = self.old.conns.items; table = table.old.table; binds = binder P.holds P.faults table.old.ports; seen = O.seen office.old; boxes = M.boxes mail.old }) }
        requires ports { HaveOwnPorts self.old.conns.items }
        requires rooms { HasRooms self.old.rooms }
        requires inboxes { HasInboxes (O.seen office.old) (M.count mail.old) (M.boxes mail.old) }
        requires pump { self.old.setup.pump ≡ (O.seen office.old).config.workers }
        ensures gives { PassGives (record { most = P.P.most; link = L.holds; link_counts = L.counts; port = P.P.holds; port_counts = P.P.counts }) upper self.old self.new (record { conns = self.old.conns.items; table = table.old.table; binds = binder P.holds P.faults table.old.ports; seen = O.seen office.old; boxes = M.boxes mail.old }) (record { conns = self.new.conns.items; table = table.new.table; binds = binder P.holds P.faults table.new.ports; seen = O.seen office.new; boxes = M.boxes mail.new }) (note_with result told.new) }
        ensures told { HasNote result told.new }
        ensures ring { (self.new.id ≡ self.old.id) × (self.new.setup ≡ self.old.setup) }
        ensures ports { HaveOwnPorts self.new.conns.items }
        ensures rooms { HasRooms self.new.rooms }
        ensures actor { (O.seen office.new).actor ≡ (O.seen office.old).actor }
        ensures sound { IsSound (O.seen office.old) → IsSound (O.seen office.new) }
        ensures mail { (M.actor mail.new ≡ M.actor mail.old) × (M.count mail.new ≡ M.count mail.old) × (M.missed mail.new ≡ M.missed mail.old) }
        ensures inboxes { HasInboxes (O.seen office.new) (M.count mail.new) (M.boxes mail.new) }
        ensures balanced { IsBalanced P.P.place (P.past table.old.ports) table.old.table.slots → IsBalanced P.P.place (P.past table.new.ports) table.new.table.slots }
    {
        for place in first..self.conns.len() {
            if self.try_at(alloc, place, upper, table, office, mail, told)? {
                return Ok(true);
            }
        }
        Ok(false)
    }

    /// The first connection of this part of the ring that can do something does it. Answers whether one did. Most of the time
    /// one of the two parts has none, which is asked first.
    pub(crate) fn pass<P: Ports, O: Office, M: Mail>(
        &mut self,
        alloc: Global,
        upper: bool,
        table: &mut PortTable<P>,
        office: &mut O,
        mail: &mut M,
        told: &mut Option<Note>,
    ) -> Result<bool, NoMemory>
    where
        P::P: ReceiveReady,
        requires known { AreKnown (record { most = P.P.most; link = L.holds; link_counts = L.counts; port = P.P.holds; port_counts = P.P.counts }) (record { conns = self.old.conns.items; table = table.old.table; binds = binder P.holds P.faults table.old.ports; seen = O.seen office.old; boxes = M.boxes mail.old }) }
        requires ports { HaveOwnPorts self.old.conns.items }
        requires rooms { HasRooms self.old.rooms }
        requires inboxes { HasInboxes (O.seen office.old) (M.count mail.old) (M.boxes mail.old) }
        requires pump { self.old.setup.pump ≡ (O.seen office.old).config.workers }
        ensures gives { PassGives (record { most = P.P.most; link = L.holds; link_counts = L.counts; port = P.P.holds; port_counts = P.P.counts }) upper self.old self.new (record { conns = self.old.conns.items; table = table.old.table; binds = binder P.holds P.faults table.old.ports; seen = O.seen office.old; boxes = M.boxes mail.old }) (record { conns = self.new.conns.items; table = table.new.table; binds = binder P.holds P.faults table.new.ports; seen = O.seen office.new; boxes = M.boxes mail.new }) (note_with result told.new) }
        ensures told { HasNote result told.new }
        ensures ring { (self.new.id ≡ self.old.id) × (self.new.setup ≡ self.old.setup) }
        ensures ports { HaveOwnPorts self.new.conns.items }
        ensures rooms { HasRooms self.new.rooms }
        ensures actor { (O.seen office.new).actor ≡ (O.seen office.old).actor }
        ensures sound { IsSound (O.seen office.old) → IsSound (O.seen office.new) }
        ensures mail { (M.actor mail.new ≡ M.actor mail.old) × (M.count mail.new ≡ M.count mail.old) × (M.missed mail.new ≡ M.missed mail.old) }
        ensures inboxes { HasInboxes (O.seen office.new) (M.count mail.new) (M.boxes mail.new) }
        ensures balanced { IsBalanced P.P.place (P.past table.old.ports) table.old.table.slots → IsBalanced P.P.place (P.past table.new.ports) table.new.table.slots }
    {
        let Some(first) = self.conns.first_in(self.next_seat, upper) else {
            return Ok(false);
        };
        self.pass_from(first, alloc, upper, table, office, mail, told)
    }
}
