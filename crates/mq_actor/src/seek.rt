//! The links and port seats of a ring, by the numbers of their connections and tunnels.
ghost use Rattle.std.specs.Prelude.{◌≡◌, ◌<◌, ◌==◌, find, position, option_copied, slice_get, Some};
ghost use Rattle.std.specs.Option.{option_copied_mut};
ghost use Rattle.std.specs.Borrow.{sem, Lends, LendsIf};
ghost use Rattle.std.specs.Vec.{vec_len};
ghost use Rattle.std.specs.VecDeque.{deque_len};
ghost use Rattle.mq_held.specs.declared.held.Held.{Held as HeldBy};
ghost use Rattle.mq_actor.specs.declared.offer.Offer.{Offer as OfferBy};
ghost use Rattle.mq_actor.specs.Lent.{conn_at, link_at, seat_at, with_conn_link, with_link, with_offer_link};
ghost use Rattle.mq_actor.specs.contracts.ring.Ring.{the_row};

use crate::ring::Ring;
use mq_conn::Conn;
use mq_held::PortSeat;

/// The place of the first of these seats that is of this tunnel.
fn place_among(seats: &[PortSeat], tunnel: u32) -> Option<usize>
    ensures { result ≡ position (λ seat. seat.tunnel == tunnel) seats.now }
{
    seats.iter().position(|seat| seat.tunnel == tunnel)
}

/// That seat.
fn seat_among(seats: &[PortSeat], tunnel: u32) -> Option<PortSeat>
    ensures { result ≡ find (λ seat. seat.tunnel == tunnel) seats.now }
{
    let place = place_among(seats, tunnel)?;
    Some(seats[place])
}

impl<L: Drop> Ring<L> {
    /// The link of the connection at this place.
    fn link_of(&mut self, place: usize) -> &mut L
        requires { place < vec_len self.old.conns }
        ensures* writes_back { sem 𝓛 (Lends (the_row L.row) L.row self.entry result (with_conn_link self.old place)) }
        ensures value { (h : HeldBy L) → slice_get self.old.conns.items place ≡ Some h → result.now ≡ h.link }
    {
        self.conns.link(place)
    }

    /// The link of the offer at this place.
    fn offered_at(&mut self, place: usize) -> &mut L
        requires { place < deque_len self.old.offered }
        ensures* writes_back { sem 𝓛 (Lends (the_row L.row) L.row self.entry result (with_offer_link self.old place)) }
        ensures value { (f : OfferBy L) → slice_get self.old.offered.items place ≡ Some f → result.now ≡ f.link }
    {
        self.offered.link(place)
    }

    /// Lends the link of the connection with this number, or of the offer with it.
    pub(crate) fn link(&mut self, number: u32) -> Option<&mut L>
        ensures* writes_back { sem 𝓛 (LendsIf (the_row L.row) L.row self.entry result (with_link number self.old) self.old) }
        ensures value { option_copied_mut result ≡ link_at number self.old }
    {
        if let Some(place) = self.conns.place_of(number) {
            return Some(self.link_of(place));
        }
        let place = self.offered.place_of(number)?;
        Some(self.offered_at(place))
    }

    /// The same link, for reading.
    pub(crate) fn link_at(&self, number: u32) -> Option<&L>
        ensures { option_copied result ≡ link_at number self.now }
    {
        if let Some(place) = self.conns.place_of(number) {
            return Some(&self.conns.at(place).link);
        }
        let place = self.offered.place_of(number)?;
        Some(self.offered.link_at(place))
    }

    /// The connection with this number, without its link and ports.
    pub(crate) fn conn_at(&self, number: u32) -> Option<&Conn>
        ensures { option_copied result ≡ conn_at number self.now }
    {
        let place = self.conns.place_of(number)?;
        Some(&self.conns.at(place).conn)
    }

    /// The seat of the port of this live tunnel.
    pub(crate) fn seat_at(&self, tunnel: u32) -> Option<PortSeat>
        ensures { result ≡ seat_at tunnel self.now }
    {
        for place in 0..self.conns.len() {
            if let Some(seat) = seat_among(self.conns.at(place).ports.as_slice(), tunnel) {
                return Some(seat);
            }
        }
        None
    }
}
