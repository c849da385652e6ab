//! A datagram is received on the port of a tunnel.
ghost use Rattle.std.specs.Prelude.{◌≡◌, ◌≢◌, ℕ, length, Some, OnErr, IfSome};
ghost use Rattle.slab.specs.Slab.{get};
ghost use Rattle.mq_machine.specs.State as machine;
ghost use Rattle.mq_machine.specs.State.{tunnel_of};
ghost use Rattle.mq_conn.specs.Conns.{IsConn};
ghost use Rattle.mq_ports.specs.Tables.{IsBalanced};
ghost use Rattle.mq_held.specs.Notes.{went_with};
ghost use Rattle.mq_held.specs.Ports.{receive_calls, ReceiveGives, KeepsMost};

use crate::datagrams::{Came, receive};
use crate::held::{Held, PortSeat};
use crate::note::put_note;
use crate::ready::ReceiveReady;
use crate::went::Went;
use mq_outside::Ports;
use mq_ports::{Datagrams, PortTable};
use mq_talk::{End, From, Note};
use mq_wire::NoMemory;
use std::alloc::Global;

impl<L> Held<L> {
    /// Receives once on the port of a live tunnel, and puts the note of what was done into `told`. Where that failed, the tunnel
    /// is to close.
    pub fn receive<P: Ports>(
        &mut self,
        alloc: Global,
        seat: PortSeat,
        datagrams: &mut Datagrams,
        table: &mut PortTable<P>,
        told: &mut Option<Note>,
    ) -> Result<Went, NoMemory>
    where
        P::P: ReceiveReady,
        requires room { length datagrams.old.room.items ≡ 65535 }
        ensures gives { (s : machine.Conn) → IsConn self.old.conn s → (t : machine.Tunnel) → tunnel_of s seat.tunnel ≡ Some t → t.id ≡ seat.tunnel
            → (was : P.P) → get table.old.table seat.key ≡ Some was
            → (now : P.P) × (get table.new.table seat.key ≡ Some now) × ReceiveGives (receive_calls P.P.holds P.P.past P.P.counts was now)
            (IsConn self.new.conn) s t seat.received (went_with result told.new) }
        ensures refused { OnErr result (IfSome datagrams.old.spare (λ spare. length spare.items ≢ 65535)) }
        ensures rest { self.new ≡ record self.old { conn = self.new.conn } }
        ensures room { length datagrams.new.room.items ≡ 65535 }
        ensures kept { KeepsMost P.P.most table.old.table table.new.table seat.key }
        ensures others { (other : ℕ) → other ≢ seat.key → get table.new.table other ≡ get table.old.table other }
        ensures ports { table.new.ports ≡ table.old.ports }
        ensures balanced { IsBalanced P.P.place (P.past table.old.ports) table.old.table.slots → IsBalanced P.P.place (P.past table.new.ports) table.new.table.slots }
    {
        match receive(datagrams, alloc, seat.key, table) {
            Err(refused) => {
                self.conn.fail(End::NoMemory);
                Err(refused)
            }
            Ok(Came::Waits) => Ok(Went::Waits),
            Ok(Came::Failed) => {
                self.conn.shut(seat.tunnel);
                Ok(Went::Failed)
            }
            Ok(Came::Datagram(packet)) => {
                let from = From::Port(seat.tunnel);
                let note = self.conn.deliver(from, seat.received, seat.tunnel, packet);
                put_note(told, note);
                Ok(Went::Did)
            }
        }
    }
}
