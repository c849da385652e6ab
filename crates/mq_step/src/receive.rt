//! A connection receives on the ports of its tunnels.
ghost use Rattle.std.specs.Prelude.{◌≡◌, ◌∷◌, ℕ, true, slice_get, [], Some, IfOk};
ghost use Rattle.mq_machine.specs.declared.setup.Setup.{Setup};
ghost use Rattle.mq_talk.specs.Offices.{IsSound};
ghost use Rattle.mq_machine.specs.Acting.{Outside, binder};
ghost use Rattle.mq_machine.specs.State as machine;
ghost use Rattle.mq_machine.specs.Turn.{Receive};
ghost use Rattle.mq_machine.specs.Want.{want_of, may_wait};
ghost use Rattle.mq_ports.specs.Tables.{IsBalanced};
ghost use Rattle.mq_held.specs.declared.held.PortSeat.{PortSeat};
ghost use Rattle.mq_step.specs.Rooms.{HasRooms};
ghost use Rattle.mq_step.specs.Holds.{HasInboxes, IsHeld, IsKnown, KeepsOthers, SeatsApart};
ghost use Rattle.mq_step.specs.Notes.{stepped_with};
ghost use Rattle.mq_step.specs.Whole.{Sees};
ghost use Rattle.mq_step.specs.Gives.{Gives, ReadsWait, ReceivesWait, receives_of, receive_alone};
ghost use Rattle.mq_step.specs.Vain.{AskedInVain};

use crate::rooms::Rooms;
use crate::stepped::Stepped;
use crate::want::act;
use mq_held::{Held, ReceiveReady, Went, WriteReady};
use mq_outside::Ports;
use mq_ports::PortTable;
use mq_talk::{Mail, Note, Office};
use mq_wire::NoMemory;
use std::alloc::Global;

/// Receives once on the port of the seat at this place. Where that failed, the tunnel closes.
fn receive_at<L: WriteReady, P: Ports, O: Office, M: Mail>(
    alloc: Global,
    held: &mut Held<L>,
    place: usize,
    pump: u32,
    rooms: &mut Rooms,
    table: &mut PortTable<P>,
    office: &mut O,
    mail: &mut M,
    told: &mut Option<Note>,
) -> Result<Stepped, NoMemory>
where
    P::P: ReceiveReady,
    requires known { (s : machine.Held) × IsHeld P.P.most table.old.table held.old s × IsKnown (O.seen office.old) (O.seen office.old).actor s × (may_wait (want_of s.conn) ≡ true) }
    requires inboxes { HasInboxes (O.seen office.old) (M.count mail.old) (M.boxes mail.old) }
    requires pump { pump ≡ (O.seen office.old).config.workers }
    requires rooms { HasRooms rooms.old }
    ensures gives { (o n : Outside) → Sees L.holds L.counts P.P.holds P.P.counts (binder P.holds P.faults table.old.ports) table.old.table held.old o
        → Sees L.holds L.counts P.P.holds P.P.counts (binder P.holds P.faults table.new.ports) table.new.table held.new n
        → (s : machine.Held) → IsHeld P.P.most table.old.table held.old s → may_wait (want_of s.conn) ≡ true
        → (setup : Setup) (seat : PortSeat) → slice_get held.old.ports.items place ≡ Some seat
        → Gives setup (receive_alone seat.tunnel) (ReceivesWait seat.tunnel) o n (O.seen office.old) (O.seen office.new) (M.boxes mail.old) (M.boxes mail.new) (IsHeld P.P.most table.new.table held.new) s (stepped_with result told.new) }
    ensures passed { IfOk result (λ stepped. stepped ≡ Stepped.Quiet → (seat : PortSeat) → slice_get held.old.ports.items place ≡ Some seat
        → AskedInVain P.P.holds P.P.past P.P.counts table.old.table table.new.table seat) }
    ensures rest { held.new ≡ record held.old { conn = held.new.conn; ports = held.new.ports; bound = held.new.bound } }
    ensures rooms { HasRooms rooms.new }
    ensures stays { IfOk result (λ stepped. stepped ≡ Stepped.Quiet → held.new.ports.items ≡ held.old.ports.items) }
    ensures still { IfOk result (λ stepped. stepped ≡ Stepped.Quiet → (s : machine.Held) → IsHeld P.P.most table.old.table held.old s → may_wait (want_of s.conn) ≡ true → IsHeld P.P.most table.new.table held.new s) }
    ensures apart { SeatsApart held.new.ports.items }
    ensures ends { IfOk result (λ stepped. stepped ≡ Stepped.Ended → held.new.ports.items ≡ held.old.ports.items) }
    ensures calm { IfOk result (λ stepped. stepped ≡ Stepped.Quiet → (O.seen office.new ≡ O.seen office.old) × (binder P.holds P.faults table.new.ports ≡ binder P.holds P.faults table.old.ports) × (M.boxes mail.new ≡ M.boxes mail.old)) }
    ensures actor { (O.seen office.new).actor ≡ (O.seen office.old).actor }
    ensures sound { IsSound (O.seen office.old) → IsSound (O.seen office.new) }
    ensures mail { (M.actor mail.new ≡ M.actor mail.old) × (M.count mail.new ≡ M.count mail.old) × (M.missed mail.new ≡ M.missed mail.old) }
    ensures inboxes { HasInboxes (O.seen office.new) (M.count mail.new) (M.boxes mail.new) }
    ensures others { KeepsOthers held.old held.new table.old.table table.new.table }
    ensures balanced { IsBalanced P.P.place (P.past table.old.ports) table.old.table.slots → IsBalanced P.P.place (P.past table.new.ports) table.new.table.slots }
{
    let Some(seat) = held.ports.get(place).copied() else {
        return Ok(Stepped::Quiet);
    };
    match held.receive(alloc, seat, &mut rooms.datagrams, table, told)? {
        Went::Waits => Ok(Stepped::Quiet),
        Went::Failed => act(held, pump, table, office, mail, told),
        Went::Did => {
            held.count(place);
            Ok(Stepped::Did)
        }
    }
}

/// Receives once on the first port that has a datagram.
pub fn receive<L: WriteReady, P: Ports, O: Office, M: Mail>(
    alloc: Global,
    held: &mut Held<L>,
    pump: u32,
    rooms: &mut Rooms,
    table: &mut PortTable<P>,
    office: &mut O,
    mail: &mut M,
    told: &mut Option<Note>,
) -> Result<Stepped, NoMemory>
where
    P::P: ReceiveReady,
    requires known { (s : machine.Held) × IsHeld P.P.most table.old.table held.old s × IsKnown (O.seen office.old) (O.seen office.old).actor s × (may_wait (want_of s.conn) ≡ true) }
    requires inboxes { HasInboxes (O.seen office.old) (M.count mail.old) (M.boxes mail.old) }
    requires pump { pump ≡ (O.seen office.old).config.workers }
    requires rooms { HasRooms rooms.old }
    ensures gives { (o n : Outside) → Sees L.holds L.counts P.P.holds P.P.counts (binder P.holds P.faults table.old.ports) table.old.table held.old o
        → Sees L.holds L.counts P.P.holds P.P.counts (binder P.holds P.faults table.new.ports) table.new.table held.new n
        → (s : machine.Held) → IsHeld P.P.most table.old.table held.old s → may_wait (want_of s.conn) ≡ true → (setup : Setup)
        → Gives setup receives_of ReadsWait o n (O.seen office.old) (O.seen office.new) (M.boxes mail.old) (M.boxes mail.new) (IsHeld P.P.most table.new.table held.new) s (stepped_with result told.new) }
    ensures rest { held.new ≡ record held.old { conn = held.new.conn; ports = held.new.ports; bound = held.new.bound } }
    ensures rooms { HasRooms rooms.new }
    ensures stays { IfOk result (λ stepped. stepped ≡ Stepped.Quiet → held.new.ports.items ≡ held.old.ports.items) }
    ensures still { IfOk result (λ stepped. stepped ≡ Stepped.Quiet → (s : machine.Held) → IsHeld P.P.most table.old.table held.old s → may_wait (want_of s.conn) ≡ true → IsHeld P.P.most table.new.table held.new s) }
    ensures apart { SeatsApart held.new.ports.items }
    ensures ends { IfOk result (λ stepped. stepped ≡ Stepped.Ended → held.new.ports.items ≡ held.old.ports.items) }
    ensures calm { IfOk result (λ stepped. stepped ≡ Stepped.Quiet → (O.seen office.new ≡ O.seen office.old) × (binder P.holds P.faults table.new.ports ≡ binder P.holds P.faults table.old.ports) × (M.boxes mail.new ≡ M.boxes mail.old)) }
    ensures actor { (O.seen office.new).actor ≡ (O.seen office.old).actor }
    ensures sound { IsSound (O.seen office.old) → IsSound (O.seen office.new) }
    ensures mail { (M.actor mail.new ≡ M.actor mail.old) × (M.count mail.new ≡ M.count mail.old) × (M.missed mail.new ≡ M.missed mail.old) }
    ensures inboxes { HasInboxes (O.seen office.new) (M.count mail.new) (M.boxes mail.new) }
    ensures others { KeepsOthers held.old held.new table.old.table table.new.table }
    ensures balanced { IsBalanced P.P.place (P.past table.old.ports) table.old.table.slots → IsBalanced P.P.place (P.past table.new.ports) table.new.table.slots }
{
    for place in 0..held.ports.len() {
        match receive_at(alloc, held, place, pump, rooms, table, office, mail, told)? {
            Stepped::Quiet => {}
            stepped => return Ok(stepped),
        }
    }
    Ok(Stepped::Quiet)
}
