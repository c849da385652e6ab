//! A payload goes to the port of its tunnel.
ghost use Rattle.std.specs.Prelude.{◌≡◌, ℕ, List, Ok, Option};
ghost use Rattle.mq_talk.specs.Mails.{Inboxes};
ghost use Rattle.mq_talk.specs.Offices.{Seen};
ghost use Rattle.mq_machine.specs.Acting.{Outside, binder};
ghost use Rattle.mq_machine.specs.State as machine;
ghost use Rattle.mq_machine.specs.Want.{want_of, Send};
ghost use Rattle.mq_ports.specs.Tables.{IsBalanced};
ghost use Rattle.mq_step.specs.Holds.{HasInboxes, IsHeld, KeepsOthers};
ghost use Rattle.mq_step.specs.Notes.{stepped_by};
ghost use Rattle.mq_step.specs.Sights.{SeesTable};
ghost use Rattle.mq_step.specs.Wanted.{ActGives};

use crate::stepped::Stepped;
use mq_held::{Held, put_note};
use mq_outside::Ports;
use mq_ports::PortTable;
use mq_talk::Note;

/// Sends the payload that it wants to send, where the port of its tunnel takes that now.
pub fn send<L, P: Ports>(
    held: &mut Held<L>,
    tunnel: u32,
    table: &mut PortTable<P>,
    told: &mut Option<Note>,
) -> Stepped
    ensures gives { (o n : Outside) → SeesTable P.P.holds P.P.counts (binder P.holds P.faults table.old.ports) table.old.table held.old.ports.items o
        → SeesTable P.P.holds P.P.counts (binder P.holds P.faults table.new.ports) table.new.table held.new.ports.items n
        → (seen : Seen) (s : machine.Held) → IsHeld P.P.most table.old.table held.old s → (k : ℕ) (payload : List ℕ) → want_of s.conn ≡ Send tunnel k payload
        → (count : ℕ) (mail : Inboxes) → HasInboxes seen count mail
        → ActGives o n seen seen mail mail (IsHeld P.P.most table.new.table held.new) s (Ok (stepped_by result told.new)) }
    ensures rest { held.new ≡ record held.old { conn = held.new.conn } }
    ensures ports { table.new.ports ≡ table.old.ports }
    ensures others { KeepsOthers held.old held.new table.old.table table.new.table }
    ensures balanced { IsBalanced P.P.place (P.past table.old.ports) table.old.table.slots → IsBalanced P.P.place (P.past table.new.ports) table.new.table.slots }
{
    let Some(place) = held.place_of(tunnel) else {
        return Stepped::Quiet;
    };
    let seat = held.ports[place];
    match held.send(seat.key, table) {
        Some(note) => {
            put_note(told, note);
            Stepped::Did
        }
        None => Stepped::Quiet,
    }
}
