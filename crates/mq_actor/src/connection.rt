//! The turn of a connection.
ghost use Rattle.std.specs.Prelude.{◌≡◌, ◌≢◌, ◌<◌, Bool, true, Some, is_some, IfOk, remove, slice_get};
ghost use Rattle.std.specs.Vec.{vec_len};
ghost use Rattle.mq_talk.specs.Offices.{IsSound};
ghost use Rattle.mq_machine.specs.Acting.{binder};
ghost use Rattle.mq_ports.specs.Tables.{IsBalanced};
ghost use Rattle.mq_held.specs.declared.held.Held.{Held as HeldBy};
ghost use Rattle.mq_held.specs.Notes.{HasNote, note_with};
ghost use Rattle.mq_step.specs.Notes.{stepped_with};
ghost use Rattle.mq_step.specs.Holds.{HasInboxes};
ghost use Rattle.mq_step.specs.Rooms.{HasRooms};
ghost use Rattle.mq_actor.specs.Holds.{HaveOwnPorts};
ghost use Rattle.mq_actor.specs.Passing.{AreKnown, InPart, TurnsAt, TryGives};

use crate::ring::{Ring, is_in, seat_of};
use mq_held::{ReceiveReady, WriteReady};
use mq_outside::Ports;
use mq_ports::PortTable;
use mq_step::{Stepped, step};
use mq_talk::{Mail, Note, Office};
use mq_wire::NoMemory;
use std::alloc::Global;

impl<L: WriteReady> Ring<L> {
    /// The connection at a place, which is over, leaves the ring, and is kept until its link is taken.
    #[inline(never)]
    fn leave(&mut self, place: usize)
        requires { place < vec_len self.old.conns }
        ensures left { self.new.conns.items ≡ remove self.old.conns.items place }
        ensures kept { self.new.ended ≡ slice_get self.old.conns.items place }
        ensures rest { self.new ≡ record self.old { conns = self.new.conns; ended = self.new.ended } }
    {
        self.ended = Some(self.conns.take(place));
    }

    /// The connection at a place has its turn. Where it does something, the ring begins with the seat behind its own from then on.
    /// One that is over leaves the ring. Answers whether it did something.
    fn act_at<P: Ports, O: Office, M: Mail>(
        &mut self,
        alloc: Global,
        place: usize,
        table: &mut PortTable<P>,
        office: &mut O,
        mail: &mut M,
        told: &mut Option<Note>,
    ) -> Result<bool, NoMemory>
    where
        P::P: ReceiveReady,
        requires known { AreKnown (record { most = P.P.most; link = L.holds; link_counts = L.counts; port = P.P.holds; port_counts = P.P.counts }) (record { conns = self.old.conns.items; table = table.old.table; binds = binder P.holds P.faults table.old.ports; seen = O.seen office.old; boxes = M.boxes mail.old }) }
        requires ports { HaveOwnPorts self.old.conns.items }
        requires rooms { HasRooms self.old.rooms }
        requires inboxes { HasInboxes (O.seen office.old) (M.count mail.old) (M.boxes mail.old) }
        requires pump { self.old.setup.pump ≡ (O.seen office.old).config.workers }
        requires place { place < vec_len self.old.conns }
        ensures ring { (self.new.id ≡ self.old.id) × (self.new.setup ≡ self.old.setup) }
        ensures gives { (upper : Bool) (was : HeldBy L) → slice_get self.old.conns.items place ≡ Some was → InPart upper self.old.next_seat was.number → TryGives (record { most = P.P.most; link = L.holds; link_counts = L.counts; port = P.P.holds; port_counts = P.P.counts }) upper place self.old self.new (record { conns = self.old.conns.items; table = table.old.table; binds = binder P.holds P.faults table.old.ports; seen = O.seen office.old; boxes = M.boxes mail.old }) (record { conns = self.new.conns.items; table = table.new.table; binds = binder P.holds P.faults table.new.ports; seen = O.seen office.new; boxes = M.boxes mail.new }) (note_with result told.new) }
        ensures told { HasNote result told.new }
        ensures ports { HaveOwnPorts self.new.conns.items }
        ensures rooms { HasRooms self.new.rooms }
        ensures actor { (O.seen office.new).actor ≡ (O.seen office.old).actor }
        ensures sound { IsSound (O.seen office.old) → IsSound (O.seen office.new) }
        ensures mail { (M.actor mail.new ≡ M.actor mail.old) × (M.count mail.new ≡ M.count mail.old) × (M.missed mail.new ≡ M.missed mail.old) }
        ensures inboxes { HasInboxes (O.seen office.new) (M.count mail.new) (M.boxes mail.new) }
        ensures balanced { IsBalanced P.P.place (P.past table.old.ports) table.old.table.slots → IsBalanced P.P.place (P.past table.new.ports) table.new.table.slots }
    {
        let seat = seat_of(self.conns.at(place).number);
        match self.conns.turn_at(
            alloc,
            place,
            &self.setup,
            &mut self.rooms,
            table,
            office,
            mail,
            told,
        )? {
            Stepped::Quiet => Ok(false),
            Stepped::Did => {
                self.next_seat = seat + 1;
                Ok(true)
            }
            Stepped::Ended => {
                self.next_seat = seat + 1;
                self.leave(place);
                Ok(true)
            }
        }
    }

    /// The connection at a place has its turn, where its seat is in this part of the ring. Answers whether it did something.
    pub(crate) fn try_at<P: Ports, O: Office, M: Mail>(
        &mut self,
        alloc: Global,
        place: usize,
        upper: bool,
        table: &mut PortTable<P>,
        office: &mut O,
        mail: &mut M,
        told: &mut Option<Note>,
    ) -> Result<bool, NoMemory>
    where
        P::P: ReceiveReady,
        requires known { AreKnown (record { most = P.P.most; link = L.holds; link_counts = L.counts; port = P.P.holds; port_counts = P.P.counts }) (record { conns = self.old.conns.items; table = table.old.table; binds = binder P.holds P.faults table.old.ports; seen = O.seen office.old; boxes = M.boxes mail.old }) }
        requires ports { HaveOwnPorts self.old.conns.items }
        requires rooms { HasRooms self.old.rooms }
        requires inboxes { HasInboxes (O.seen office.old) (M.count mail.old) (M.boxes mail.old) }
        requires pump { self.old.setup.pump ≡ (O.seen office.old).config.workers }
        requires place { place < vec_len self.old.conns }
        ensures ring { (self.new.id ≡ self.old.id) × (self.new.setup ≡ self.old.setup) }
        ensures gives { TryGives (record { most = P.P.most; link = L.holds; link_counts = L.counts; port = P.P.holds; port_counts = P.P.counts }) upper place self.old self.new (record { conns = self.old.conns.items; table = table.old.table; binds = binder P.holds P.faults table.old.ports; seen = O.seen office.old; boxes = M.boxes mail.old }) (record { conns = self.new.conns.items; table = table.new.table; binds = binder P.holds P.faults table.new.ports; seen = O.seen office.new; boxes = M.boxes mail.new }) (note_with result told.new) }
        ensures told { HasNote result told.new }
        ensures ports { HaveOwnPorts self.new.conns.items }
        ensures rooms { HasRooms self.new.rooms }
        ensures actor { (O.seen office.new).actor ≡ (O.seen office.old).actor }
        ensures sound { IsSound (O.seen office.old) → IsSound (O.seen office.new) }
        ensures mail { (M.actor mail.new ≡ M.actor mail.old) × (M.count mail.new ≡ M.count mail.old) × (M.missed mail.new ≡ M.missed mail.old) }
        ensures inboxes { HasInboxes (O.seen office.new) (M.count mail.new) (M.boxes mail.new) }
        ensures balanced { IsBalanced P.P.place (P.past table.old.ports) table.old.table.slots → IsBalanced P.P.place (P.past table.new.ports) table.new.table.slots }
    {
        let seat = seat_of(self.conns.at(place).number);
        if !is_in(seat, self.next_seat, upper) {
            return Ok(false);
        }
        self.act_at(alloc, place, table, office, mail, told)
    }
}
