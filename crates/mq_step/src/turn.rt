//! One step of a connection.
ghost use Rattle.std.specs.Prelude.{◌≡◌, true, IfOk};
ghost use Rattle.mq_talk.specs.Offices.{IsSound};
ghost use Rattle.mq_machine.specs.Acting.{Outside, binder};
ghost use Rattle.mq_machine.specs.State as machine;
ghost use Rattle.mq_machine.specs.Turn.{tries_of};
ghost use Rattle.mq_machine.specs.Want.{want_of, may_wait};
ghost use Rattle.mq_ports.specs.Tables.{IsBalanced};
ghost use Rattle.mq_step.specs.Rooms.{HasRooms};
ghost use Rattle.mq_step.specs.Holds.{HasInboxes, IsHeld, IsKnown, KeepsOthers, SeatsApart};
ghost use Rattle.mq_step.specs.Notes.{stepped_with};
ghost use Rattle.mq_step.specs.Whole.{Sees};
ghost use Rattle.mq_step.specs.Gives.{Gives, Anything, WritesWait, from_read, from_write, from_frame};
ghost use Rattle.mq_step.specs.Wanted.{SendsWait};

use crate::receive::receive;
use crate::rooms::Rooms;
use crate::stepped::Stepped;
use crate::want::act;
use mq_held::{Held, ReceiveReady, Went, WriteReady};
use mq_machine::Setup;
use mq_outside::Ports;
use mq_ports::PortTable;
use mq_talk::{Mail, Note, Office};
use mq_wire::NoMemory;
use std::alloc::Global;

/// Reads, or else receives.
fn try_read<L: WriteReady, P: Ports, O: Office, M: Mail>(
    alloc: Global,
    held: &mut Held<L>,
    setup: &Setup,
    rooms: &mut Rooms,
    table: &mut PortTable<P>,
    office: &mut O,
    mail: &mut M,
    told: &mut Option<Note>,
) -> Result<Stepped, NoMemory>
where
    P::P: ReceiveReady,
    requires known { (s : machine.Held) × IsHeld P.P.most table.old.table held.old s × IsKnown (O.seen office.old) (O.seen office.old).actor s × (may_wait (want_of s.conn) ≡ true) }
    requires inboxes { HasInboxes (O.seen office.old) (M.count mail.old) (M.boxes mail.old) }
    requires pump { setup.now.pump ≡ (O.seen office.old).config.workers }
    requires rooms { HasRooms rooms.old }
    ensures gives { (o n : Outside) → Sees L.holds L.counts P.P.holds P.P.counts (binder P.holds P.faults table.old.ports) table.old.table held.old o
        → Sees L.holds L.counts P.P.holds P.P.counts (binder P.holds P.faults table.new.ports) table.new.table held.new n
        → (s : machine.Held) → IsHeld P.P.most table.old.table held.old s → may_wait (want_of s.conn) ≡ true
        → Gives setup.now from_read WritesWait o n (O.seen office.old) (O.seen office.new) (M.boxes mail.old) (M.boxes mail.new) (IsHeld P.P.most table.new.table held.new) s (stepped_with result told.new) }
    ensures rest { held.new ≡ record held.old { conn = held.new.conn; ports = held.new.ports; bound = held.new.bound; link = held.new.link } }
    ensures rooms { HasRooms rooms.new }
    ensures stays { IfOk result (λ stepped. stepped ≡ Stepped.Quiet → held.new.ports.items ≡ held.old.ports.items) }
    ensures still { IfOk result (λ stepped. stepped ≡ Stepped.Quiet → (s : machine.Held) → IsHeld P.P.most table.old.table held.old s → may_wait (want_of s.conn) ≡ true → IsHeld P.P.most table.new.table held.new s) }
    ensures apart { SeatsApart held.new.ports.items }
    ensures ends { IfOk result (λ stepped. stepped ≡ Stepped.Ended → held.new.ports.items ≡ held.old.ports.items) }
    ensures calm { IfOk result (λ stepped. stepped ≡ Stepped.Quiet → (O.seen office.new ≡ O.seen office.old) × (binder P.holds P.faults table.new.ports ≡ binder P.holds P.faults table.old.ports) × (M.boxes mail.new ≡ M.boxes mail.old)) }
    ensures actor { (O.seen office.new).actor ≡ (O.seen office.old).actor }
    ensures sound { IsSound (O.seen office.old) → IsSound (O.seen office.new) }
    ensures mail { (M.actor mail.new ≡ M.actor mail.old) × (M.count mail.new ≡ M.count mail.old) × (M.missed mail.new ≡ M.missed mail.old) }
    ensures inboxes { HasInboxes (O.seen office.new) (M.count mail.new) (M.boxes mail.new) }
    ensures others { KeepsOthers held.old held.new table.old.table table.new.table }
    ensures balanced { IsBalanced P.P.place (P.past table.old.ports) table.old.table.slots → IsBalanced P.P.place (P.past table.new.ports) table.new.table.slots }
{
    match held.read(setup, rooms.bytes.as_mut_slice(), told)? {
        Went::Did => Ok(Stepped::Did),
        Went::Failed => act(held, setup.pump, table, office, mail, told),
        Went::Waits => receive(alloc, held, setup.pump, rooms, table, office, mail, told),
    }
}

/// Writes, or else reads or receives.
fn try_write<L: WriteReady, P: Ports, O: Office, M: Mail>(
    alloc: Global,
    held: &mut Held<L>,
    setup: &Setup,
    rooms: &mut Rooms,
    table: &mut PortTable<P>,
    office: &mut O,
    mail: &mut M,
    told: &mut Option<Note>,
) -> Result<Stepped, NoMemory>
where
    P::P: ReceiveReady,
    requires known { (s : machine.Held) × IsHeld P.P.most table.old.table held.old s × IsKnown (O.seen office.old) (O.seen office.old).actor s × (may_wait (want_of s.conn) ≡ true) }
    requires inboxes { HasInboxes (O.seen office.old) (M.count mail.old) (M.boxes mail.old) }
    requires pump { setup.now.pump ≡ (O.seen office.old).config.workers }
    requires rooms { HasRooms rooms.old }
    ensures gives { (o n : Outside) → Sees L.holds L.counts P.P.holds P.P.counts (binder P.holds P.faults table.old.ports) table.old.table held.old o
        → Sees L.holds L.counts P.P.holds P.P.counts (binder P.holds P.faults table.new.ports) table.new.table held.new n
        → (s : machine.Held) → IsHeld P.P.most table.old.table held.old s → may_wait (want_of s.conn) ≡ true
        → Gives setup.now from_write SendsWait o n (O.seen office.old) (O.seen office.new) (M.boxes mail.old) (M.boxes mail.new) (IsHeld P.P.most table.new.table held.new) s (stepped_with result told.new) }
    ensures rest { held.new ≡ record held.old { conn = held.new.conn; ports = held.new.ports; bound = held.new.bound; link = held.new.link } }
    ensures rooms { HasRooms rooms.new }
    ensures stays { IfOk result (λ stepped. stepped ≡ Stepped.Quiet → held.new.ports.items ≡ held.old.ports.items) }
    ensures still { IfOk result (λ stepped. stepped ≡ Stepped.Quiet → (s : machine.Held) → IsHeld P.P.most table.old.table held.old s → may_wait (want_of s.conn) ≡ true → IsHeld P.P.most table.new.table held.new s) }
    ensures apart { SeatsApart held.new.ports.items }
    ensures ends { IfOk result (λ stepped. stepped ≡ Stepped.Ended → held.new.ports.items ≡ held.old.ports.items) }
    ensures calm { IfOk result (λ stepped. stepped ≡ Stepped.Quiet → (O.seen office.new ≡ O.seen office.old) × (binder P.holds P.faults table.new.ports ≡ binder P.holds P.faults table.old.ports) × (M.boxes mail.new ≡ M.boxes mail.old)) }
    ensures actor { (O.seen office.new).actor ≡ (O.seen office.old).actor }
    ensures sound { IsSound (O.seen office.old) → IsSound (O.seen office.new) }
    ensures mail { (M.actor mail.new ≡ M.actor mail.old) × (M.count mail.new ≡ M.count mail.old) × (M.missed mail.new ≡ M.missed mail.old) }
    ensures inboxes { HasInboxes (O.seen office.new) (M.count mail.new) (M.boxes mail.new) }
    ensures others { KeepsOthers held.old held.new table.old.table table.new.table }
    ensures balanced { IsBalanced P.P.place (P.past table.old.ports) table.old.table.slots → IsBalanced P.P.place (P.past table.new.ports) table.new.table.slots }
{
    match held.write(alloc, told)? {
        Went::Did => Ok(Stepped::Did),
        Went::Failed => act(held, setup.pump, table, office, mail, told),
        Went::Waits => try_read(alloc, held, setup, rooms, table, office, mail, told),
    }
}

/// Frames, or else writes, reads or receives.
fn try_frame<L: WriteReady, P: Ports, O: Office, M: Mail>(
    alloc: Global,
    held: &mut Held<L>,
    setup: &Setup,
    rooms: &mut Rooms,
    table: &mut PortTable<P>,
    office: &mut O,
    mail: &mut M,
    told: &mut Option<Note>,
) -> Result<Stepped, NoMemory>
where
    P::P: ReceiveReady,
    requires known { (s : machine.Held) × IsHeld P.P.most table.old.table held.old s × IsKnown (O.seen office.old) (O.seen office.old).actor s × (may_wait (want_of s.conn) ≡ true) }
    requires inboxes { HasInboxes (O.seen office.old) (M.count mail.old) (M.boxes mail.old) }
    requires pump { setup.now.pump ≡ (O.seen office.old).config.workers }
    requires rooms { HasRooms rooms.old }
    ensures gives { (o n : Outside) → Sees L.holds L.counts P.P.holds P.P.counts (binder P.holds P.faults table.old.ports) table.old.table held.old o
        → Sees L.holds L.counts P.P.holds P.P.counts (binder P.holds P.faults table.new.ports) table.new.table held.new n
        → (s : machine.Held) → IsHeld P.P.most table.old.table held.old s → may_wait (want_of s.conn) ≡ true
        → Gives setup.now from_frame SendsWait o n (O.seen office.old) (O.seen office.new) (M.boxes mail.old) (M.boxes mail.new) (IsHeld P.P.most table.new.table held.new) s (stepped_with result told.new) }
    ensures rest { held.new ≡ record held.old { conn = held.new.conn; ports = held.new.ports; bound = held.new.bound; link = held.new.link } }
    ensures rooms { HasRooms rooms.new }
    ensures stays { IfOk result (λ stepped. stepped ≡ Stepped.Quiet → held.new.ports.items ≡ held.old.ports.items) }
    ensures still { IfOk result (λ stepped. stepped ≡ Stepped.Quiet → (s : machine.Held) → IsHeld P.P.most table.old.table held.old s → may_wait (want_of s.conn) ≡ true → IsHeld P.P.most table.new.table held.new s) }
    ensures apart { SeatsApart held.new.ports.items }
    ensures ends { IfOk result (λ stepped. stepped ≡ Stepped.Ended → held.new.ports.items ≡ held.old.ports.items) }
    ensures calm { IfOk result (λ stepped. stepped ≡ Stepped.Quiet → (O.seen office.new ≡ O.seen office.old) × (binder P.holds P.faults table.new.ports ≡ binder P.holds P.faults table.old.ports) × (M.boxes mail.new ≡ M.boxes mail.old)) }
    ensures actor { (O.seen office.new).actor ≡ (O.seen office.old).actor }
    ensures sound { IsSound (O.seen office.old) → IsSound (O.seen office.new) }
    ensures mail { (M.actor mail.new ≡ M.actor mail.old) × (M.count mail.new ≡ M.count mail.old) × (M.missed mail.new ≡ M.missed mail.old) }
    ensures inboxes { HasInboxes (O.seen office.new) (M.count mail.new) (M.boxes mail.new) }
    ensures others { KeepsOthers held.old held.new table.old.table table.new.table }
    ensures balanced { IsBalanced P.P.place (P.past table.old.ports) table.old.table.slots → IsBalanced P.P.place (P.past table.new.ports) table.new.table.slots }
{
    if held.frame(told)? {
        return Ok(Stepped::Did);
    }
    try_write(alloc, held, setup, rooms, table, office, mail, told)
}

/// The connection does the first of its tries that can be done: what it wants, a frame, a write, a read, a receive on each
/// port. Where one was done, its note is in `told`; behind another answer no clause says what that holds. Where the link or a
/// port fails, the close or the end that follows is the same step. Where memory is refused, the connection is ending. The room
/// for a read has 16,384 bytes.
pub fn step<L: WriteReady, P: Ports, O: Office, M: Mail>(
    alloc: Global,
    held: &mut Held<L>,
    setup: &Setup,
    rooms: &mut Rooms,
    table: &mut PortTable<P>,
    office: &mut O,
    mail: &mut M,
    told: &mut Option<Note>,
) -> Result<Stepped, NoMemory>
where
    P::P: ReceiveReady,
    requires known { (s : machine.Held) × IsHeld P.P.most table.old.table held.old s × IsKnown (O.seen office.old) (O.seen office.old).actor s }
    requires inboxes { HasInboxes (O.seen office.old) (M.count mail.old) (M.boxes mail.old) }
    requires pump { setup.now.pump ≡ (O.seen office.old).config.workers }
    requires rooms { HasRooms rooms.old }
    ensures gives { (o n : Outside) → Sees L.holds L.counts P.P.holds P.P.counts (binder P.holds P.faults table.old.ports) table.old.table held.old o
        → Sees L.holds L.counts P.P.holds P.P.counts (binder P.holds P.faults table.new.ports) table.new.table held.new n
        → (s : machine.Held) → IsHeld P.P.most table.old.table held.old s
        → Gives setup.now tries_of Anything o n (O.seen office.old) (O.seen office.new) (M.boxes mail.old) (M.boxes mail.new) (IsHeld P.P.most table.new.table held.new) s (stepped_with result told.new) }
    ensures rest { held.new ≡ record held.old { conn = held.new.conn; ports = held.new.ports; bound = held.new.bound; link = held.new.link } }
    ensures rooms { HasRooms rooms.new }
    ensures stays { IfOk result (λ stepped. stepped ≡ Stepped.Quiet → held.new.ports.items ≡ held.old.ports.items) }
    ensures still { IfOk result (λ stepped. stepped ≡ Stepped.Quiet → (s : machine.Held) → IsHeld P.P.most table.old.table held.old s → IsHeld P.P.most table.new.table held.new s) }
    ensures apart { SeatsApart held.new.ports.items }
    ensures ends { IfOk result (λ stepped. stepped ≡ Stepped.Ended → held.new.ports.items ≡ held.old.ports.items) }
    ensures calm { IfOk result (λ stepped. stepped ≡ Stepped.Quiet → (O.seen office.new ≡ O.seen office.old) × (binder P.holds P.faults table.new.ports ≡ binder P.holds P.faults table.old.ports) × (M.boxes mail.new ≡ M.boxes mail.old)) }
    ensures actor { (O.seen office.new).actor ≡ (O.seen office.old).actor }
    ensures sound { IsSound (O.seen office.old) → IsSound (O.seen office.new) }
    ensures mail { (M.actor mail.new ≡ M.actor mail.old) × (M.count mail.new ≡ M.count mail.old) × (M.missed mail.new ≡ M.missed mail.old) }
    ensures inboxes { HasInboxes (O.seen office.new) (M.count mail.new) (M.boxes mail.new) }
    ensures others { KeepsOthers held.old held.new table.old.table table.new.table }
    ensures balanced { IsBalanced P.P.place (P.past table.old.ports) table.old.table.slots → IsBalanced P.P.place (P.past table.new.ports) table.new.table.slots }
{
    match act(held, setup.pump, table, office, mail, told)? {
        Stepped::Quiet => try_frame(alloc, held, setup, rooms, table, office, mail, told),
        stepped => Ok(stepped),
    }
}
