//! A connection asks the book, and its ports follow what that replies.
ghost use Rattle.std.specs.Prelude.{◌≡◌, ◌≢◌, ℕ, MatchOption, Option, None, IfOk};
ghost use Rattle.slab.specs.Slab.{Updates};
ghost use Rattle.mq_talk.specs.declared.book.Call.TheVariants.{Close};
ghost use Rattle.mq_talk.specs.Mails.{Inboxes};
ghost use Rattle.mq_talk.specs.Offices.{IsSound};
ghost use Rattle.mq_machine.specs.Acting.{Outside, binder};
ghost use Rattle.mq_machine.specs.State as machine;
ghost use Rattle.mq_machine.specs.Want.{want_of, Ask};
ghost use Rattle.mq_iptun.specs.Acts.{MayAsk};
ghost use Rattle.mq_ports.specs.Tables.{IsBalanced};
ghost use Rattle.mq_held.specs.Answers.{IsPlain};
ghost use Rattle.mq_step.specs.Holds.{HasInboxes, IsHeld, IsKnown, KeepsOthers, HasRoom, Seats, SeatsApart};
ghost use Rattle.mq_step.specs.Notes.{stepped_with};
ghost use Rattle.mq_step.specs.Sights.{SeesTable};
ghost use Rattle.mq_step.specs.Wanted.{ActGives};
ghost use Rattle.mq_step.specs.Closing.{CloseGives, HandsBack, Retires};

use crate::stepped::Stepped;
use mq_held::Held;
use mq_outside::Ports;
use mq_ports::PortTable;
use mq_talk::{Call, Note, Office};
use mq_wire::NoMemory;

/// The port that is bound is that of the tunnel that opened. Where none did, it is handed back.
fn seat<L, P: Ports>(held: &mut Held<L>, opened: Option<u32>, table: &mut PortTable<P>)
    requires room { HasRoom held.old }
    ensures seats { Seats opened held.old.ports.items held.old.bound held.new.ports.items }
    ensures table { MatchOption opened (MatchOption held.old.bound (table.new ≡ table.old) (λ key. Updates table.old.table table.new.table key None)) (λ tunnel. table.new ≡ table.old) }
    ensures rest { held.new ≡ record held.old { ports = held.new.ports; bound = None } }
    ensures holds { P.holds table.new.ports ≡ P.holds table.old.ports }
    ensures balanced { IsBalanced P.P.place (P.past table.old.ports) table.old.table.slots → IsBalanced P.P.place (P.past table.new.ports) table.new.table.slots }
{
    match opened {
        Some(tunnel) => held.seat(tunnel),
        None => held.retire_bound(table),
    }
}

/// Asks the book to open its tunnel, to which the port goes that is bound.
fn open<L, P: Ports, O: Office>(
    held: &mut Held<L>,
    call: Call,
    table: &mut PortTable<P>,
    office: &mut O,
    told: &mut Option<Note>,
) -> Result<Stepped, NoMemory>
    requires known { (s : machine.Held) × IsHeld P.P.most table.old.table held.old s × IsKnown (O.seen office.old) (O.seen office.old).actor s × (want_of s.conn ≡ Ask call) }
    requires opens { (tunnel : ℕ) → call ≢ Close tunnel }
    requires plain { IsPlain call }
    ensures gives { (o n : Outside) → SeesTable P.P.holds P.P.counts (binder P.holds P.faults table.old.ports) table.old.table held.old.ports.items o
        → SeesTable P.P.holds P.P.counts (binder P.holds P.faults table.new.ports) table.new.table held.new.ports.items n
        → (s : machine.Held) → IsHeld P.P.most table.old.table held.old s → want_of s.conn ≡ Ask call
        → (count : ℕ) (mail : Inboxes) → HasInboxes (O.seen office.old) count mail
        → ActGives o n (O.seen office.old) (O.seen office.new) mail mail (IsHeld P.P.most table.new.table held.new) s (stepped_with result told.new) }
    ensures rest { held.new ≡ record held.old { conn = held.new.conn; ports = held.new.ports; bound = held.new.bound } }
    ensures stays { IfOk result (λ stepped. stepped ≡ Stepped.Quiet → held.new.ports.items ≡ held.old.ports.items) }
    ensures apart { SeatsApart held.new.ports.items }
    ensures ends { IfOk result (λ stepped. stepped ≡ Stepped.Ended → held.new.ports.items ≡ held.old.ports.items) }
    ensures calm { IfOk result (λ stepped. stepped ≡ Stepped.Quiet → (O.seen office.new ≡ O.seen office.old) × (binder P.holds P.faults table.new.ports ≡ binder P.holds P.faults table.old.ports)) }
    ensures actor { (O.seen office.new).actor ≡ (O.seen office.old).actor }
    ensures sound { IsSound (O.seen office.old) → IsSound (O.seen office.new) }
    ensures others { KeepsOthers held.old held.new table.old.table table.new.table }
    ensures balanced { IsBalanced P.P.place (P.past table.old.ports) table.old.table.slots → IsBalanced P.P.place (P.past table.new.ports) table.new.table.slots }
{
    match held.ask(call, office) {
        Ok(heard) => {
            seat(held, heard.opened, table);
            *told = Some(heard.note);
            Ok(Stepped::Did)
        }
        Err(refused) => {
            held.retire_bound(table);
            Err(refused)
        }
    }
}

/// Asks the book to close its tunnel, whose port is handed back.
fn close<L, P: Ports, O: Office>(
    held: &mut Held<L>,
    tunnel: u32,
    table: &mut PortTable<P>,
    office: &mut O,
    told: &mut Option<Note>,
) -> Result<Stepped, NoMemory>
    requires known { (s : machine.Held) × IsHeld P.P.most table.old.table held.old s × IsKnown (O.seen office.old) (O.seen office.old).actor s × (want_of s.conn ≡ Ask (Close tunnel)) }
    ensures gives { (o n : Outside) → SeesTable P.P.holds P.P.counts (binder P.holds P.faults table.old.ports) table.old.table held.old.ports.items o
        → SeesTable P.P.holds P.P.counts (binder P.holds P.faults table.new.ports) table.new.table held.new.ports.items n
        → (s : machine.Held) → IsHeld P.P.most table.old.table held.old s → want_of s.conn ≡ Ask (Close tunnel)
        → (count : ℕ) (mail : Inboxes) → HasInboxes (O.seen office.old) count mail
        → ActGives o n (O.seen office.old) (O.seen office.new) mail mail (IsHeld P.P.most table.new.table held.new) s (stepped_with result told.new) }
    ensures closes { (s : machine.Held) → IsHeld P.P.most table.old.table held.old s → want_of s.conn ≡ Ask (Close tunnel)
        → (count : ℕ) (mail : Inboxes) → HasInboxes (O.seen office.old) count mail
        → CloseGives (O.seen office.old) (O.seen office.new) mail mail (IsHeld P.P.most table.new.table held.new) tunnel s (stepped_with result told.new)
        × HandsBack P.P.counts table.old.table held.old.ports.items tunnel (binder P.holds P.faults table.old.ports) (binder P.holds P.faults table.new.ports)
        × Retires table.old.table table.new.table held.old.ports.items held.new.ports.items tunnel }
    ensures rest { held.new ≡ record held.old { conn = held.new.conn; ports = held.new.ports } }
    ensures stays { IfOk result (λ stepped. stepped ≡ Stepped.Quiet → held.new.ports.items ≡ held.old.ports.items) }
    ensures apart { SeatsApart held.new.ports.items }
    ensures ends { IfOk result (λ stepped. stepped ≡ Stepped.Ended → held.new.ports.items ≡ held.old.ports.items) }
    ensures calm { IfOk result (λ stepped. stepped ≡ Stepped.Quiet → (O.seen office.new ≡ O.seen office.old) × (binder P.holds P.faults table.new.ports ≡ binder P.holds P.faults table.old.ports)) }
    ensures actor { (O.seen office.new).actor ≡ (O.seen office.old).actor }
    ensures sound { IsSound (O.seen office.old) → IsSound (O.seen office.new) }
    ensures others { KeepsOthers held.old held.new table.old.table table.new.table }
    ensures balanced { IsBalanced P.P.place (P.past table.old.ports) table.old.table.slots → IsBalanced P.P.place (P.past table.new.ports) table.new.table.slots }
{
    let heard = held.ask(Call::Close { tunnel }, office)?;
    held.retire(tunnel, table);
    *told = Some(heard.note);
    Ok(Stepped::Did)
}

/// Asks the book what it wants to ask: that a tunnel opens or closes, or for addresses or ways of one.
#[inline(never)]
pub fn ask<L, P: Ports, O: Office>(
    held: &mut Held<L>,
    call: Call,
    table: &mut PortTable<P>,
    office: &mut O,
    told: &mut Option<Note>,
) -> Result<Stepped, NoMemory>
    requires known { (s : machine.Held) × IsHeld P.P.most table.old.table held.old s × IsKnown (O.seen office.old) (O.seen office.old).actor s × (want_of s.conn ≡ Ask call) }
    requires may { MayAsk call }
    ensures gives { (o n : Outside) → SeesTable P.P.holds P.P.counts (binder P.holds P.faults table.old.ports) table.old.table held.old.ports.items o
        → SeesTable P.P.holds P.P.counts (binder P.holds P.faults table.new.ports) table.new.table held.new.ports.items n
        → (s : machine.Held) → IsHeld P.P.most table.old.table held.old s → want_of s.conn ≡ Ask call
        → (count : ℕ) (mail : Inboxes) → HasInboxes (O.seen office.old) count mail
        → ActGives o n (O.seen office.old) (O.seen office.new) mail mail (IsHeld P.P.most table.new.table held.new) s (stepped_with result told.new) }
    ensures closes { (s : machine.Held) → IsHeld P.P.most table.old.table held.old s → want_of s.conn ≡ Ask call → (tunnel : ℕ) → call ≡ Close tunnel
        → (count : ℕ) (mail : Inboxes) → HasInboxes (O.seen office.old) count mail
        → CloseGives (O.seen office.old) (O.seen office.new) mail mail (IsHeld P.P.most table.new.table held.new) tunnel s (stepped_with result told.new)
        × HandsBack P.P.counts table.old.table held.old.ports.items tunnel (binder P.holds P.faults table.old.ports) (binder P.holds P.faults table.new.ports)
        × Retires table.old.table table.new.table held.old.ports.items held.new.ports.items tunnel }
    ensures rest { held.new ≡ record held.old { conn = held.new.conn; ports = held.new.ports; bound = held.new.bound } }
    ensures stays { IfOk result (λ stepped. stepped ≡ Stepped.Quiet → held.new.ports.items ≡ held.old.ports.items) }
    ensures apart { SeatsApart held.new.ports.items }
    ensures ends { IfOk result (λ stepped. stepped ≡ Stepped.Ended → held.new.ports.items ≡ held.old.ports.items) }
    ensures calm { IfOk result (λ stepped. stepped ≡ Stepped.Quiet → (O.seen office.new ≡ O.seen office.old) × (binder P.holds P.faults table.new.ports ≡ binder P.holds P.faults table.old.ports)) }
    ensures actor { (O.seen office.new).actor ≡ (O.seen office.old).actor }
    ensures sound { IsSound (O.seen office.old) → IsSound (O.seen office.new) }
    ensures others { KeepsOthers held.old held.new table.old.table table.new.table }
    ensures balanced { IsBalanced P.P.place (P.past table.old.ports) table.old.table.slots → IsBalanced P.P.place (P.past table.new.ports) table.new.table.slots }
{
    match call {
        Call::Close { tunnel } => close(held, tunnel, table, office, told),
        Call::Assign { tunnel, asked } => {
            let note = held.tell(tunnel, Call::Assign { tunnel, asked }, office)?;
            *told = Some(note);
            Ok(Stepped::Did)
        }
        Call::Advertise { tunnel, ranges } => {
            let note = held.tell(tunnel, Call::Advertise { tunnel, ranges }, office)?;
            *told = Some(note);
            Ok(Stepped::Did)
        }
        other => open(held, other, table, office, told),
    }
}
