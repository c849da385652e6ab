//! The seats of a connection's ports.
ghost use Rattle.std.specs.Prelude.{◌≡◌, ◌<◌, ◌++◌, ◌∷◌, [], ℕ, ⊤, remove, MatchOption, Some, None, slice_get, slice_set};
ghost use Rattle.std.specs.Vec.{vec_len, vec_capacity};
ghost use Rattle.slab.specs.Slab.{get, Updates};
ghost use Rattle.mq_machine.specs.Acting.{binder, handed_back};
ghost use Rattle.mq_ports.specs.Tables.{IsBalanced};
ghost use Rattle.mq_held.specs.Seats.{IsSeatOf, HasNoSeat, counted};
ghost use Rattle.mq_held.specs.declared.held.PortSeat.{PortSeat};

use crate::held::{Held, PortSeat};
use mq_outside::Ports;
use mq_ports::PortTable;

impl<L> Held<L> {
    /// The place of the seat of a tunnel's port.
    pub fn place_of(&self, tunnel: u32) -> Option<usize>
        ensures { MatchOption result (HasNoSeat self.now.ports.items tunnel) (λ place. (seat : PortSeat) × IsSeatOf self.now.ports.items tunnel place seat) }
    {
        for place in 0..self.ports.len() {
            if self.ports[place].tunnel == tunnel {
                return Some(place);
            }
        }
        None
    }

    /// The port that was bound is that of this tunnel, for whose seat there is room.
    pub fn seat(&mut self, tunnel: u32)
        requires room { MatchOption self.old.bound ⊤ (λ key. vec_len self.old.ports < vec_capacity self.old.ports) }
        ensures seat { MatchOption self.old.bound (self.new.ports.items ≡ self.old.ports.items)
            (λ key. self.new.ports.items ≡ self.old.ports.items ++ record { tunnel = tunnel; key = key; received = 0 } ∷ []) }
        ensures rest { self.new ≡ record self.old { ports = self.new.ports; bound = None } }
    {
        if let Some(key) = self.bound.take() {
            let seat = PortSeat {
                tunnel,
                key,
                received: 0,
            };
            if self.ports.push(seat).is_err() {
                unreachable!()
            }
        }
    }

    /// Hands back the port of a tunnel that has closed.
    pub fn retire<P: Ports>(&mut self, tunnel: u32, table: &mut PortTable<P>)
        ensures seat { (place : ℕ) (seat : PortSeat) → IsSeatOf self.old.ports.items tunnel place seat
            → (self.new.ports.items ≡ remove self.old.ports.items place) × Updates table.old.table table.new.table seat.key None
            × MatchOption (get table.old.table seat.key) (binder P.holds P.faults table.new.ports ≡ binder P.holds P.faults table.old.ports) (λ port. binder P.holds P.faults table.new.ports ≡ handed_back (P.P.counts port).faults (binder P.holds P.faults table.old.ports)) }
        ensures none { HasNoSeat self.old.ports.items tunnel → (self.new ≡ self.old) × (table.new ≡ table.old) }
        ensures holds { P.holds table.new.ports ≡ P.holds table.old.ports }
        ensures rest { self.new ≡ record self.old { ports = self.new.ports } }
        ensures balanced { IsBalanced P.P.place (P.past table.old.ports) table.old.table.slots → IsBalanced P.P.place (P.past table.new.ports) table.new.table.slots }
    {
        if let Some(place) = self.place_of(tunnel) {
            let seat = self.ports.remove(place);
            table.retire(seat.key);
        }
    }

    /// Hands back a port whose tunnel didn't open.
    pub fn retire_bound<P: Ports>(&mut self, table: &mut PortTable<P>)
        ensures bound { MatchOption self.old.bound (table.new ≡ table.old) (λ key. Updates table.old.table table.new.table key None) }
        ensures back { MatchOption self.old.bound (table.new ≡ table.old) (λ key. MatchOption (get table.old.table key) (binder P.holds P.faults table.new.ports ≡ binder P.holds P.faults table.old.ports)
            (λ port. binder P.holds P.faults table.new.ports ≡ handed_back (P.P.counts port).faults (binder P.holds P.faults table.old.ports))) }
        ensures holds { P.holds table.new.ports ≡ P.holds table.old.ports }
        ensures rest { self.new ≡ record self.old { bound = None } }
        ensures balanced { IsBalanced P.P.place (P.past table.old.ports) table.old.table.slots → IsBalanced P.P.place (P.past table.new.ports) table.new.table.slots }
    {
        if let Some(key) = self.bound.take() {
            table.retire(key);
        }
    }

    /// One datagram more was received on the port of the seat at this place.
    pub fn count(&mut self, place: usize)
        ensures seats { MatchOption (slice_get self.old.ports.items place) (self.new.ports.items ≡ self.old.ports.items)
            (λ seat. self.new.ports.items ≡ slice_set self.old.ports.items place (record seat { received = counted seat.received })) }
        ensures rest { self.new ≡ record self.old { ports = self.new.ports } }
        ensures bound { vec_capacity self.new.ports ≡ vec_capacity self.old.ports }
    {
        if let Some(seat) = self.ports.get_mut(place) {
            seat.received = seat.received.saturating_add(1);
        }
    }
}
