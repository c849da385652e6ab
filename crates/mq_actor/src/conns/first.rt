//! Where a part of the ring begins.
ghost use Rattle.std.specs.Prelude.{◌≡◌, ◌-◌, ◌==◌, ◌&&◌, ◌||◌, not, true, false};
ghost use Rattle.mq_actor.specs.Beginnings.{first_place, stands_before};
ghost use Rattle.mq_actor.specs.Conns.{NumbersRise};

use crate::conns::Conns;
use crate::ring::{is_in, seat_of};
use mq_held::Held;

/// Whether there is one at a place, and its seat is before this one.
fn is_before<L>(conns: &[Held<L>], place: usize, from: u64) -> bool
    ensures { result ≡ stands_before from conns.now place }
{
    match conns.get(place) {
        None => false,
        Some(held) => seat_of(held.number) < from,
    }
}

/// The place of the first whose seat is in the lower part of the ring, where numbers rise: that can be the first of all alone.
fn first_lower<L>(conns: &[Held<L>], from: u64) -> Option<usize>
    requires { NumbersRise conns.now }
    ensures { result ≡ first_place false from conns.now }
{
    is_before(conns, 0, from).then_some(0)
}

/// Whether the seat of the one before a place is before this one, if there is one, and that of the one at the place isn't.
fn begins_at<L>(conns: &[Held<L>], place: usize, from: u64) -> bool
    ensures { result ≡ (not (stands_before from conns.now place) && (place == 0 || stands_before from conns.now (place - 1))) }
{
    if is_before(conns, place, from) {
        return false;
    }
    place == 0 || is_before(conns, place - 1, from)
}

/// The place of the first whose seat is in this part of the ring, by a look along them.
fn search<L>(conns: &[Held<L>], from: u64, upper: bool) -> Option<usize>
    ensures { result ≡ first_place upper from conns.now }
{
    conns
        .iter()
        .position(|held| is_in(seat_of(held.number), from, upper))
}

/// The place of the first whose seat is in the upper part of the ring, where numbers rise: most of the time the place that is
/// likely.
fn first_upper<L>(conns: &[Held<L>], likely: usize, from: u64) -> Option<usize>
    requires { NumbersRise conns.now }
    ensures { result ≡ first_place true from conns.now }
{
    if !begins_at(conns, likely, from) {
        return search(conns, from, true);
    }
    (likely < conns.len()).then_some(likely)
}

impl<L: Drop> Conns<L> {
    /// The place of the first whose seat is in this part of the ring.
    pub(crate) fn first_in(&self, from: u64, upper: bool) -> Option<usize>
        ensures { result ≡ first_place upper from self.now.items }
    {
        if !self.is_rising {
            return search(self.list.as_slice(), from, upper);
        }
        if upper {
            first_upper(self.list.as_slice(), self.next, from)
        } else {
            first_lower(self.list.as_slice(), from)
        }
    }
}
