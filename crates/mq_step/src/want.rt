//! A connection does what it wants.
ghost use Rattle.std.specs.Prelude.{◌≡◌, ℕ, None, OnErr, IfOk};
ghost use Rattle.mq_talk.specs.declared.book.Call.TheVariants.{Close};
ghost use Rattle.mq_talk.specs.Offices.{IsSound};
ghost use Rattle.mq_machine.specs.Acting.{Outside, binder};
ghost use Rattle.mq_machine.specs.State as machine;
ghost use Rattle.mq_machine.specs.Want.{want_of, Ask};
ghost use Rattle.mq_conn.specs.Wants.{IsWant, MayWant};
ghost use Rattle.mq_ports.specs.Tables.{IsBalanced};
ghost use Rattle.mq_step.specs.Holds.{HasInboxes, IsHeld, IsKnown, KeepsOthers, SeatsApart};
ghost use Rattle.mq_step.specs.Notes.{stepped_with};
ghost use Rattle.mq_step.specs.Sights.{SeesTable};
ghost use Rattle.mq_step.specs.Wanted.{ActGives};
ghost use Rattle.mq_step.specs.Closing.{CloseGives, HandsBack, Retires};

use crate::ask::ask;
use crate::bind::bind;
use crate::send::send;
use crate::stepped::Stepped;
use mq_conn::Want;
use mq_held::Held;
use mq_outside::Ports;
use mq_ports::PortTable;
use mq_talk::{End, Mail, Note, Office};
use mq_wire::NoMemory;

/// Does what it wants, where that can be done now. The pump has the inbox of this number.
fn answer<L, P: Ports, O: Office, M: Mail>(
    held: &mut Held<L>,
    want: Want,
    pump: u32,
    table: &mut PortTable<P>,
    office: &mut O,
    mail: &mut M,
    told: &mut Option<Note>,
) -> Result<Stepped, NoMemory>
    requires known { (s : machine.Held) × IsHeld P.P.most table.old.table held.old s × IsKnown (O.seen office.old) (O.seen office.old).actor s × IsWant want (want_of s.conn) }
    requires may { MayWant want }
    requires inboxes { HasInboxes (O.seen office.old) (M.count mail.old) (M.boxes mail.old) }
    requires pump { pump ≡ (O.seen office.old).config.workers }
    ensures gives { (o n : Outside) → SeesTable P.P.holds P.P.counts (binder P.holds P.faults table.old.ports) table.old.table held.old.ports.items o
        → SeesTable P.P.holds P.P.counts (binder P.holds P.faults table.new.ports) table.new.table held.new.ports.items n
        → (s : machine.Held) → IsHeld P.P.most table.old.table held.old s → IsWant want (want_of s.conn)
        → ActGives o n (O.seen office.old) (O.seen office.new) (M.boxes mail.old) (M.boxes mail.new) (IsHeld P.P.most table.new.table held.new) s (stepped_with result told.new) }
    ensures closes { (s : machine.Held) → IsHeld P.P.most table.old.table held.old s → IsWant want (want_of s.conn) → (tunnel : ℕ) → want_of s.conn ≡ Ask (Close tunnel)
        → CloseGives (O.seen office.old) (O.seen office.new) (M.boxes mail.old) (M.boxes mail.new) (IsHeld P.P.most table.new.table held.new) tunnel s (stepped_with result told.new)
        × HandsBack P.P.counts table.old.table held.old.ports.items tunnel (binder P.holds P.faults table.old.ports) (binder P.holds P.faults table.new.ports)
        × Retires table.old.table table.new.table held.old.ports.items held.new.ports.items tunnel }
    ensures rest { held.new ≡ record held.old { conn = held.new.conn; ports = held.new.ports; bound = held.new.bound } }
    ensures stays { IfOk result (λ stepped. stepped ≡ Stepped.Quiet → held.new.ports.items ≡ held.old.ports.items) }
    ensures apart { SeatsApart held.new.ports.items }
    ensures ends { IfOk result (λ stepped. stepped ≡ Stepped.Ended → held.new.ports.items ≡ held.old.ports.items) }
    ensures calm { IfOk result (λ stepped. stepped ≡ Stepped.Quiet → (O.seen office.new ≡ O.seen office.old) × (binder P.holds P.faults table.new.ports ≡ binder P.holds P.faults table.old.ports) × (M.boxes mail.new ≡ M.boxes mail.old)) }
    ensures actor { (O.seen office.new).actor ≡ (O.seen office.old).actor }
    ensures sound { IsSound (O.seen office.old) → IsSound (O.seen office.new) }
    ensures mail { (M.actor mail.new ≡ M.actor mail.old) × (M.count mail.new ≡ M.count mail.old) × (M.missed mail.new ≡ M.missed mail.old) }
    ensures inboxes { HasInboxes (O.seen office.new) (M.count mail.new) (M.boxes mail.new) }
    ensures others { KeepsOthers held.old held.new table.old.table table.new.table }
    ensures balanced { IsBalanced P.P.place (P.past table.old.ports) table.old.table.slots → IsBalanced P.P.place (P.past table.new.ports) table.new.table.slots }
{
    match want {
        Want::Nothing => Ok(Stepped::Quiet),
        Want::Say => {
            let note = held.conn.say()?;
            *told = Some(note);
            Ok(Stepped::Did)
        }
        Want::Bind { addr, port } => {
            let note = bind(held, addr, port, table)?;
            *told = Some(note);
            Ok(Stepped::Did)
        }
        Want::Ask(call) => ask(held, call, table, office, told),
        Want::SendUdp { tunnel, .. } => Ok(send(held, tunnel, table, told)),
        Want::Ended(why) => {
            *told = Some(Note::Ended {
                conn: held.number,
                why,
            });
            Ok(Stepped::Ended)
        }
        Want::Judge { tunnel, flow, .. } => {
            *told = Some(held.judge(tunnel, &flow, office));
            Ok(Stepped::Did)
        }
        Want::Push { .. } => {
            *told = Some(held.push(pump, mail));
            Ok(Stepped::Did)
        }
    }
}

/// Does what the connection wants, where that can be done now.
#[inline(never)]
fn act_now<L, P: Ports, O: Office, M: Mail>(
    held: &mut Held<L>,
    pump: u32,
    table: &mut PortTable<P>,
    office: &mut O,
    mail: &mut M,
    told: &mut Option<Note>,
) -> Result<Stepped, NoMemory>
    requires known { (s : machine.Held) × IsHeld P.P.most table.old.table held.old s × IsKnown (O.seen office.old) (O.seen office.old).actor s }
    requires inboxes { HasInboxes (O.seen office.old) (M.count mail.old) (M.boxes mail.old) }
    requires pump { pump ≡ (O.seen office.old).config.workers }
    ensures gives { (o n : Outside) → SeesTable P.P.holds P.P.counts (binder P.holds P.faults table.old.ports) table.old.table held.old.ports.items o
        → SeesTable P.P.holds P.P.counts (binder P.holds P.faults table.new.ports) table.new.table held.new.ports.items n
        → (s : machine.Held) → IsHeld P.P.most table.old.table held.old s
        → ActGives o n (O.seen office.old) (O.seen office.new) (M.boxes mail.old) (M.boxes mail.new) (IsHeld P.P.most table.new.table held.new) s (stepped_with result told.new) }
    ensures closes { (s : machine.Held) → IsHeld P.P.most table.old.table held.old s → (tunnel : ℕ) → want_of s.conn ≡ Ask (Close tunnel)
        → CloseGives (O.seen office.old) (O.seen office.new) (M.boxes mail.old) (M.boxes mail.new) (IsHeld P.P.most table.new.table held.new) tunnel s (stepped_with result told.new)
        × HandsBack P.P.counts table.old.table held.old.ports.items tunnel (binder P.holds P.faults table.old.ports) (binder P.holds P.faults table.new.ports)
        × Retires table.old.table table.new.table held.old.ports.items held.new.ports.items tunnel }
    ensures rest { held.new ≡ record held.old { conn = held.new.conn; ports = held.new.ports; bound = held.new.bound } }
    ensures stays { IfOk result (λ stepped. stepped ≡ Stepped.Quiet → held.new.ports.items ≡ held.old.ports.items) }
    ensures apart { SeatsApart held.new.ports.items }
    ensures ends { IfOk result (λ stepped. stepped ≡ Stepped.Ended → held.new.ports.items ≡ held.old.ports.items) }
    ensures calm { IfOk result (λ stepped. stepped ≡ Stepped.Quiet → (O.seen office.new ≡ O.seen office.old) × (binder P.holds P.faults table.new.ports ≡ binder P.holds P.faults table.old.ports) × (M.boxes mail.new ≡ M.boxes mail.old)) }
    ensures actor { (O.seen office.new).actor ≡ (O.seen office.old).actor }
    ensures sound { IsSound (O.seen office.old) → IsSound (O.seen office.new) }
    ensures mail { (M.actor mail.new ≡ M.actor mail.old) × (M.count mail.new ≡ M.count mail.old) × (M.missed mail.new ≡ M.missed mail.old) }
    ensures inboxes { HasInboxes (O.seen office.new) (M.count mail.new) (M.boxes mail.new) }
    ensures others { KeepsOthers held.old held.new table.old.table table.new.table }
    ensures balanced { IsBalanced P.P.place (P.past table.old.ports) table.old.table.slots → IsBalanced P.P.place (P.past table.new.ports) table.new.table.slots }
{
    match held.conn.next() {
        Ok(want) => answer(held, want, pump, table, office, mail, told),
        Err(refused) => {
            held.conn.fail(End::NoMemory);
            Err(refused)
        }
    }
}

/// Does what the connection wants, where that can be done now, and puts the note of that into `told`. Where memory is refused,
/// the connection is ending. Whether it wants nothing, or to send a payload, is asked first: it is so most of the time. The pump
/// has the inbox of this number, behind those of the workers.
pub fn act<L, P: Ports, O: Office, M: Mail>(
    held: &mut Held<L>,
    pump: u32,
    table: &mut PortTable<P>,
    office: &mut O,
    mail: &mut M,
    told: &mut Option<Note>,
) -> Result<Stepped, NoMemory>
    requires known { (s : machine.Held) × IsHeld P.P.most table.old.table held.old s × IsKnown (O.seen office.old) (O.seen office.old).actor s }
    requires inboxes { HasInboxes (O.seen office.old) (M.count mail.old) (M.boxes mail.old) }
    requires pump { pump ≡ (O.seen office.old).config.workers }
    ensures gives { (o n : Outside) → SeesTable P.P.holds P.P.counts (binder P.holds P.faults table.old.ports) table.old.table held.old.ports.items o
        → SeesTable P.P.holds P.P.counts (binder P.holds P.faults table.new.ports) table.new.table held.new.ports.items n
        → (s : machine.Held) → IsHeld P.P.most table.old.table held.old s
        → ActGives o n (O.seen office.old) (O.seen office.new) (M.boxes mail.old) (M.boxes mail.new) (IsHeld P.P.most table.new.table held.new) s (stepped_with result told.new) }
    ensures closes { (s : machine.Held) → IsHeld P.P.most table.old.table held.old s → (tunnel : ℕ) → want_of s.conn ≡ Ask (Close tunnel)
        → CloseGives (O.seen office.old) (O.seen office.new) (M.boxes mail.old) (M.boxes mail.new) (IsHeld P.P.most table.new.table held.new) tunnel s (stepped_with result told.new)
        × HandsBack P.P.counts table.old.table held.old.ports.items tunnel (binder P.holds P.faults table.old.ports) (binder P.holds P.faults table.new.ports)
        × Retires table.old.table table.new.table held.old.ports.items held.new.ports.items tunnel }
    ensures rest { held.new ≡ record held.old { conn = held.new.conn; ports = held.new.ports; bound = held.new.bound } }
    ensures stays { IfOk result (λ stepped. stepped ≡ Stepped.Quiet → held.new.ports.items ≡ held.old.ports.items) }
    ensures apart { SeatsApart held.new.ports.items }
    ensures ends { IfOk result (λ stepped. stepped ≡ Stepped.Ended → held.new.ports.items ≡ held.old.ports.items) }
    ensures calm { IfOk result (λ stepped. stepped ≡ Stepped.Quiet → (O.seen office.new ≡ O.seen office.old) × (binder P.holds P.faults table.new.ports ≡ binder P.holds P.faults table.old.ports) × (M.boxes mail.new ≡ M.boxes mail.old)) }
    ensures actor { (O.seen office.new).actor ≡ (O.seen office.old).actor }
    ensures sound { IsSound (O.seen office.old) → IsSound (O.seen office.new) }
    ensures mail { (M.actor mail.new ≡ M.actor mail.old) × (M.count mail.new ≡ M.count mail.old) × (M.missed mail.new ≡ M.missed mail.old) }
    ensures inboxes { HasInboxes (O.seen office.new) (M.count mail.new) (M.boxes mail.new) }
    ensures others { KeepsOthers held.old held.new table.old.table table.new.table }
    ensures balanced { IsBalanced P.P.place (P.past table.old.ports) table.old.table.slots → IsBalanced P.P.place (P.past table.new.ports) table.new.table.slots }
{
    if !held.conn.wants() {
        return Ok(Stepped::Quiet);
    }
    if let Some(tunnel) = held.conn.sends() {
        return Ok(send(held, tunnel, table, told));
    }
    act_now(held, pump, table, office, mail, told)
}
