//! The links that were offered to a worker, oldest first. While their numbers rise, one is found by halves.
ghost use Rattle.std.specs.Prelude.{◌≡◌, ◌<◌, ◌==◌, ◌++◌, ◌∷◌, [], position, length, nat_lt, true, false, slice_get, Some, IfErr, OnOk, MatchOption};
ghost use Rattle.std.specs.List.Sorted.{IsPartitionPoint};
ghost use Rattle.std.specs.Borrow.{sem, Lends};
ghost use Rattle.std.specs.VecDeque.{deque_len};
ghost use Rattle.mq_actor.specs.declared.offer.Offer.{Offer as OfferBy};
ghost use Rattle.mq_actor.specs.Offers.{Rise, with_link_at};
ghost use Rattle.mq_actor.specs.contracts.offers.Offers.{the_row};

use crate::offer::Offer;
use std::alloc::Global;
use std::collections::VecDeque;
use std::marker::Model;

/// Offered links, oldest first.
#[derive(Drop)]
pub struct Offers<L> {
    list: VecDeque<Offer<L>>,
    /// Where this is true, each has a higher number than those before it.
    is_rising: bool,
}

impl<L> Model for Offers<L> {
    ghost use Rattle.std.specs.Prelude.{◌≡◌, true};
    ghost use Rattle.std.specs.declared.collections.VecDeque.{VecDeque};
    ghost use Rattle.mq_actor.specs.declared.offer.Offer.{Offer as OfferBy};
    ghost use Rattle.std.specs.declared.alloc.Global.{Global};
    ghost use Rattle.mq_actor.specs.Offers.{Rise};

    ghost Value = { VecDeque (OfferBy L) Global };

    ghost view = { λ s. s.list };

    ghost invariant = { λ s. s.is_rising ≡ true → Rise s.list.items };
}

/// The place of the first offer whose number isn't below this one, where numbers rise. One past the last where all are below.
fn place_from<L>(list: &VecDeque<Offer<L>>, number: u32) -> usize
    requires { Rise list.now.items }
    ensures { IsPartitionPoint (λ f. nat_lt f.number number ≡ true) (λ f. nat_lt f.number number ≡ false) list.now.items result }
{
    list.partition_point(
        |offer: &Offer<L>| -> bool
            ensures { result ≡ nat_lt offer.now.number number }
        { offer.number < number },
    )
}

/// The place of the offer with this number, where numbers rise.
fn place_by_halves<L>(list: &VecDeque<Offer<L>>, number: u32) -> Option<usize>
    requires { Rise list.now.items }
    ensures { result ≡ position (λ f. f.number == number) list.now.items }
{
    let place = place_from(list, number);
    let offer = list.get(place)?;
    if offer.number != number {
        return None;
    }
    Some(place)
}

impl<L: Drop> Offers<L> {
    /// None was offered.
    pub(crate) fn new(alloc: Global) -> Offers<L>
        ensures { result.items ≡ [] }
    {
        Offers {
            list: VecDeque::new(alloc),
            is_rising: true,
        }
    }

    /// How many there are.
    pub(crate) fn len(&self) -> usize
        ensures { result ≡ length self.now.items }
    {
        self.list.len()
    }

    /// Whether numbers rise where one with this number comes last.
    fn rises_to(&self, number: u32) -> bool
        ensures { result ≡ true → (link : L) → Rise (self.now.items ++ record { number = number; link = link } ∷ []) }
    {
        match self.list.back() {
            None => true,
            Some(last) => self.is_rising && last.number < number,
        }
    }

    /// Offers one last. Where memory is refused, it comes back.
    pub(crate) fn push(&mut self, offer: Offer<L>) -> Result<(), Offer<L>>
        ensures ok { OnOk result (self.new.items ≡ self.old.items ++ offer ∷ []) }
        ensures err { IfErr result (λ back. (back ≡ offer) × (self.new.items ≡ self.old.items)) }
    {
        let rises = self.rises_to(offer.number);
        match self.list.push_back(offer) {
            Ok(()) => {
                self.is_rising = rises;
                Ok(())
            }
            Err(refused) => Err(refused.value),
        }
    }

    /// Takes the oldest.
    pub(crate) fn pop(&mut self) -> Option<Offer<L>>
        ensures { MatchOption result ((self.old.items ≡ []) × (self.new.items ≡ [])) (λ offer. self.old.items ≡ offer ∷ self.new.items) }
    {
        self.list.pop_front()
    }

    /// The oldest.
    pub(crate) fn first(&self) -> Option<&Offer<L>>
        ensures { MatchOption result (self.now.items ≡ []) (λ offer. slice_get self.now.items 0 ≡ Some offer.now) }
    {
        self.list.front()
    }

    /// The place of the one with this number.
    pub(crate) fn place_of(&self, number: u32) -> Option<usize>
        ensures { result ≡ position (λ f. f.number == number) self.now.items }
    {
        if self.is_rising {
            return place_by_halves(&self.list, number);
        }
        self.list.iter().position(|offer| offer.number == number)
    }

    /// The link of the one at this place.
    pub(crate) fn link_at(&self, place: usize) -> &L
        requires { place < deque_len self.now }
        ensures { (f : OfferBy L) → slice_get self.now.items place ≡ Some f → result.now ≡ f.link }
    {
        &self.list[place].link
    }

    /// Lends that link.
    pub(crate) fn link(&mut self, place: usize) -> &mut L
        requires { place < deque_len self.old }
        ensures* writes_back { sem 𝓛 (Lends (the_row L.row) L.row self.entry result (with_link_at self.old place)) }
        ensures value { (f : OfferBy L) → slice_get self.old.items place ≡ Some f → result.now ≡ f.link }
    {
        let offer = &mut self.list[place];
        &mut offer.link
    }
}
