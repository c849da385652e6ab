//! A worker lends its links and ports.
ghost use Rattle.std.specs.Prelude.{◌≡◌, option_copied, Some, IfSome};
ghost use Rattle.std.specs.Option.{option_copied_mut};
ghost use Rattle.std.specs.Borrow.{sem, Lends, LendsIf};
ghost use Rattle.slab.specs.Slab.{get, with_value};
ghost use Rattle.mq_machine.specs.State as machine;
ghost use Rattle.mq_held.specs.declared.held.PortSeat.{PortSeat as SeatOf};
ghost use Rattle.mq_ports.specs.Tables.{Changes, IsBalanced};
ghost use Rattle.mq_actor.specs.Holds.{IsWorker, numbers_of};
ghost use Rattle.mq_actor.specs.Lent.{conn_at, link_at, port_at, seat_at, with_link, with_port};
ghost use Rattle.mq_ports.specs.contracts.table.PortTable.{the_row as table_row};
ghost use Rattle.mq_actor.specs.contracts.actor.Actor.{the_row};

use crate::actor::Actor;
use mq_conn::Conn;
use mq_outside::Ports;
use mq_ports::PortTable;

/// The port under a key.
fn port_of<P: Ports>(table: &mut PortTable<P>, key: usize) -> Option<&mut P::P>
    ensures* writes_back { sem 𝓛 (LendsIf (table_row P.row P.P.row) P.P.row table.entry result (λ port. record table.old { table = with_value table.old.table key port }) table.old) }
    ensures value { option_copied_mut result ≡ get table.old.table key }
{
    table.table.get_mut(key)
}

/// What binds the ports of a table.
fn ports_of<P: Ports>(table: &mut PortTable<P>) -> &mut P
    ensures* writes_back { sem 𝓛 (Lends (table_row P.row P.P.row) P.row table.entry result (λ ports. record table.old { ports = ports })) }
    ensures value { result.now ≡ table.old.ports }
{
    &mut table.ports
}

impl<L: Drop, P: Ports> Actor<L, P> {
    /// Lends the link of the connection with this number, or the offered link with it. None where neither is there.
    pub fn link(&mut self, conn: u32) -> Option<&mut L>
        ensures* writes_back { sem 𝓛 (LendsIf (the_row L.row P.row P.P.row) L.row self.entry result (λ link. record self.old { ring = with_link conn self.old.ring link }) self.old) }
        ensures value { option_copied_mut result ≡ link_at conn self.old.ring }
        ensures stands { (link : L) (w : machine.Worker) → IsWorker P.P.most self.old.table.table self.old.ring w
            → IsWorker P.P.most self.old.table.table (with_link conn self.old.ring link) w }
        ensures numbers { (link : L) → numbers_of (with_link conn self.old.ring link).conns.items (with_link conn self.old.ring link).offered.items
            ≡ numbers_of self.old.ring.conns.items self.old.ring.offered.items }
    {
        self.ring.link(conn)
    }

    /// The same link, for reading.
    pub fn link_at(&self, conn: u32) -> Option<&L>
        ensures { option_copied result ≡ link_at conn self.now.ring }
    {
        self.ring.link_at(conn)
    }

    /// The connection with this number, for reading, without its link and ports. None where no connection has it.
    pub fn conn(&self, number: u32) -> Option<&Conn>
        ensures { option_copied result ≡ conn_at number self.now.ring }
    {
        self.ring.conn_at(number)
    }

    /// Lends what binds ports.
    pub fn ports(&mut self) -> &mut P
        ensures* writes_back { sem 𝓛 (Lends (the_row L.row P.row P.P.row) P.row self.entry result (λ ports. record self.old { table = record self.old.table { ports = ports } })) }
        ensures value { result.now ≡ self.old.table.ports }
    {
        ports_of(&mut self.table)
    }

    /// Lends the bound port of this live tunnel for UDP. None where no connection has one.
    pub fn port(&mut self, tunnel: u32) -> Option<&mut P::P>
        ensures* writes_back { sem 𝓛 (LendsIf (the_row L.row P.row P.P.row) P.P.row self.entry result
            (λ port. record self.old { table = record self.old.table { table = with_port tunnel self.old.ring self.old.table.table port } }) self.old) }
        ensures value { option_copied_mut result ≡ port_at tunnel self.old.ring self.old.table.table }
        ensures changes { IfSome result (λ was. (port : P.P) → (seat : SeatOf) × (seat_at tunnel self.old.ring ≡ Some seat)
            × Changes self.old.table.table (with_port tunnel self.old.ring self.old.table.table port) seat.key (λ old new. (old ≡ was.now) × (new ≡ port))) }
        ensures stands { IfSome result (λ was. (port : P.P) (w : machine.Worker) → P.P.most port ≡ P.P.most was.now
            → IsWorker P.P.most self.old.table.table self.old.ring w
            → IsWorker P.P.most (with_port tunnel self.old.ring self.old.table.table port) self.old.ring w) }
        ensures balanced { IfSome result (λ was. (port : P.P) → P.P.place port ≡ P.P.place was.now
            → IsBalanced P.P.place (P.past self.old.table.ports) self.old.table.table.slots
            → IsBalanced P.P.place (P.past self.old.table.ports) (with_port tunnel self.old.ring self.old.table.table port).slots) }
    {
        match self.ring.seat_at(tunnel) {
            None => None,
            Some(seat) => self.port_under(seat.key),
        }
    }

    /// The port under a key of its table.
    fn port_under(&mut self, key: usize) -> Option<&mut P::P>
        ensures* writes_back { sem 𝓛 (LendsIf (the_row L.row P.row P.P.row) P.P.row self.entry result
            (λ port. record self.old { table = record self.old.table { table = with_value self.old.table.table key port } }) self.old) }
        ensures value { option_copied_mut result ≡ get self.old.table.table key }
    {
        port_of(&mut self.table, key)
    }

    /// The same port, for reading.
    pub fn port_at(&self, tunnel: u32) -> Option<&P::P>
        ensures { option_copied result ≡ port_at tunnel self.now.ring self.now.table.table }
    {
        let seat = self.ring.seat_at(tunnel)?;
        self.table.port(seat.key)
    }
}
