//! Whether a worker has nothing to do.
ghost use Rattle.std.specs.Prelude.{◌≡◌, ◌&&◌, ◌||◌, ◌↔◌, ℕ, not, true, List, [], length, find, nat_lt, is_some, Some, None};
ghost use Rattle.slab.specs.Slab.{get};
ghost use Rattle.mq_outside.specs.Ports.{PortHolds};
ghost use Rattle.mq_talk.specs.declared.place.Parcel.{Parcel};
ghost use Rattle.mq_machine.specs.Acting.{holds_of};
ghost use Rattle.mq_machine.specs.State as machine;
ghost use Rattle.mq_machine.specs.Turn.{can_do, can_take, can_write, most_live, send_waits, try_of, turn_of};
ghost use Rattle.mq_machine.specs.Shared.{port_of};
ghost use Rattle.mq_machine.specs.Steps.{can_read};
ghost use Rattle.mq_machine.specs.Want.{want_of, Send};
ghost use Rattle.mq_conn.specs.Conns.{IsConn};
ghost use Rattle.mq_held.specs.Ready.{may_give, WouldReceive};
ghost use Rattle.mq_step.specs.Holds.{IsHeld};
ghost use Rattle.mq_actor.specs.Holds.{AreHeld, IsWorker};
ghost use Rattle.mq_actor.specs.Ready.{may_send};
ghost use Rattle.mq_actor.specs.Told.{TellConns, TellsConn, TellsRing};

use crate::actor::Actor;
use crate::ready::{ReadReady, SendReady};
use crate::ring::{MOST_LIVE, Ring};
use mq_conn::Want;
use mq_held::{Held, ReceiveReady, WriteReady};
use mq_outside::{Link, Port, Ports};
use mq_ports::PortTable;

/// Whether the port under a key would now take a payload of this size, or never takes one.
fn would_take<P: Ports>(key: usize, size: usize, table: &PortTable<P>) -> bool
where
    P::P: SendReady,
    ensures { (port : P.P) → get table.now.table key ≡ Some port → (holds : PortHolds) → P.P.holds port ≡ Some holds
        → result ≡ (nat_lt (P.P.most port) size || may_send holds) }
{
    match table.port(key) {
        None => false,
        Some(port) => size > port.limit() as usize || port.would_send(),
    }
}

/// Whether the port of the payload that it wants to send would take that now, or drop it.
fn could_send<L: Link, P: Ports>(held: &Held<L>, tunnel: u32, table: &PortTable<P>) -> bool
where
    P::P: SendReady,
    ensures { (s : machine.Held) → IsHeld P.P.most table.now.table held.now s
        → TellsConn (record { most = P.P.most; link = L.holds; link_counts = L.counts; port = P.P.holds; port_counts = P.P.counts }) table.now.table held.now s
        → (n : ℕ) (payload : List ℕ) → want_of s.conn ≡ Send tunnel n payload → result ≡ not (send_waits (port_of s.ports tunnel) payload) }
{
    let Some(place) = held.place_of(tunnel) else {
        return false;
    };
    let seat = held.ports[place];
    would_take(seat.key, held.conn.payload().len(), table)
}

/// Whether what it wants could be done now. Most of the time it wants nothing, which is asked first.
fn could_do<L: Link, P: Ports>(held: &Held<L>, table: &PortTable<P>) -> bool
where
    P::P: SendReady,
    ensures { (s : machine.Held) → IsHeld P.P.most table.now.table held.now s
        → TellsConn (record { most = P.P.most; link = L.holds; link_counts = L.counts; port = P.P.holds; port_counts = P.P.counts }) table.now.table held.now s
        → result ≡ can_do s.ports (want_of s.conn) }
{
    if !held.conn.wants() {
        return false;
    }
    could_do_next(held, table)
}

/// Whether what it wants next could be done now.
#[inline(never)]
fn could_do_next<L: Link, P: Ports>(held: &Held<L>, table: &PortTable<P>) -> bool
where
    P::P: SendReady,
    ensures { (s : machine.Held) → IsHeld P.P.most table.now.table held.now s
        → TellsConn (record { most = P.P.most; link = L.holds; link_counts = L.counts; port = P.P.holds; port_counts = P.P.counts }) table.now.table held.now s
        → result ≡ can_do s.ports (want_of s.conn) }
{
    match held.conn.next() {
        Err(_) => true,
        Ok(Want::Nothing) => false,
        Ok(Want::SendUdp { tunnel, .. }) => could_send(held, tunnel, table),
        Ok(_) => true,
    }
}

/// Whether some of what it owes could be written now.
fn could_write<L: WriteReady>(held: &Held<L>) -> bool
    ensures { (s : machine.Conn) (link : machine.Link) → IsConn held.now.conn s → L.holds held.now.link ≡ Some link → result ≡ can_write s link }
{
    !held.conn.owed().is_empty() && held.link.would_write()
}

/// Whether something could be read now.
fn could_read<L: ReadReady>(held: &Held<L>) -> bool
    ensures { (s : machine.Conn) (link : machine.Link) → IsConn held.now.conn s → L.holds held.now.link ≡ Some link → result ≡ can_read s && can_take link }
{
    held.link.would_read() && held.conn.can_read()
}

/// Whether a receive on the port under a key would do something now.
fn would_give<P: Ports>(key: usize, table: &PortTable<P>) -> bool
where
    P::P: ReceiveReady,
    ensures { (port : P.P) → get table.now.table key ≡ Some port → WouldReceive (P.P.holds port) result }
{
    match table.port(key) {
        None => false,
        Some(port) => port.would_receive(),
    }
}

/// Whether a datagram could be received now.
fn could_receive<L: Link, P: Ports>(held: &Held<L>, table: &PortTable<P>) -> bool
where
    P::P: ReceiveReady,
    ensures { (s : machine.Held) → IsHeld P.P.most table.now.table held.now s
        → TellsConn (record { most = P.P.most; link = L.holds; link_counts = L.counts; port = P.P.holds; port_counts = P.P.counts }) table.now.table held.now s
        → result ≡ is_some (find (λ p. may_give (holds_of p)) s.ports) }
{
    for place in 0..held.ports.len() {
        if would_give(held.ports[place].key, table) {
            return true;
        }
    }
    false
}

/// Whether one of the tries of a connection could be done now.
fn could_act<L: WriteReady + ReadReady, P: Ports>(held: &Held<L>, table: &PortTable<P>) -> bool
where
    P::P: ReceiveReady + SendReady,
    ensures { (s : machine.Held) → IsHeld P.P.most table.now.table held.now s
        → TellsConn (record { most = P.P.most; link = L.holds; link_counts = L.counts; port = P.P.holds; port_counts = P.P.counts }) table.now.table held.now s
        → result ≡ is_some (try_of s) }
{
    if could_do(held, table) {
        return true;
    }
    if held.conn.can_frame() {
        return true;
    }
    if could_write(held) {
        return true;
    }
    if could_read(held) {
        return true;
    }
    could_receive(held, table)
}

impl<L: Drop> Ring<L> {
    /// Whether an offered link could be accepted now.
    fn could_accept(&self) -> bool
        ensures { result ≡ nat_lt 0 (length self.now.offered.items) && nat_lt (length self.now.conns.items) most_live }
    {
        self.offered.len() > 0 && self.conns.len() < MOST_LIVE
    }
}

impl<L: WriteReady + ReadReady> Ring<L> {
    /// Whether one of its connections could act now.
    fn could_pass<P: Ports>(&self, table: &PortTable<P>) -> bool
    where
        P::P: ReceiveReady + SendReady,
        ensures { (ss : List machine.Held) → AreHeld P.P.most table.now.table self.now.conns.items ss
            → TellConns (record { most = P.P.most; link = L.holds; link_counts = L.counts; port = P.P.holds; port_counts = P.P.counts }) table.now.table self.now.conns.items ss
            → result ≡ is_some (find (λ s. is_some (try_of s)) ss) }
    {
        for place in 0..self.conns.len() {
            if could_act(self.conns.at(place), table) {
                return true;
            }
        }
        false
    }
}

impl<L: WriteReady + ReadReady, P: Ports> Actor<L, P> {
    /// Whether no seat could act now, where its inbox is empty or isn't. Takes no memory.
    pub fn is_quiet(&self, inbox_is_empty: bool) -> bool
    where
        P::P: ReceiveReady + SendReady,
        ensures { (w : machine.Worker) → IsWorker P.P.most self.now.table.table self.now.ring w
            → TellsRing (record { most = P.P.most; link = L.holds; link_counts = L.counts; port = P.P.holds; port_counts = P.P.counts }) self.now.table.table self.now.ring w
            → (box : List Parcel) → (box ≡ [] ↔ inbox_is_empty ≡ true) → (result ≡ true) ↔ (turn_of w box ≡ None) }
    {
        if !inbox_is_empty {
            return false;
        }
        if self.ring.could_accept() {
            return false;
        }
        !self.ring.could_pass(&self.table)
    }
}
