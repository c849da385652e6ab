//! The connections of a worker, as they were accepted. While their numbers rise, where the search for one that can act begins is
//! known without looking along them.
ghost use Rattle.std.specs.Prelude.{◌≡◌, ◌<◌, ◌++◌, ◌∷◌, ◌==◌, [], true, Some, OnOk, length, position, remove, slice_get};
ghost use Rattle.std.specs.Borrow.{sem, Lends};
ghost use Rattle.std.specs.Vec.{vec_len, vec_capacity};
ghost use Rattle.mq_held.specs.declared.held.Held.{Held as HeldBy};
ghost use Rattle.mq_actor.specs.Conns.{NumbersRise, stands_at, with_link_of};
ghost use Rattle.mq_actor.specs.contracts.conns.Conns.{the_row};

mod first;
mod turn;

use mq_held::Held;
use mq_wire::NoMemory;
use std::alloc::Global;
use std::marker::Model;

/// Connections, as they were accepted.
#[derive(Drop)]
pub struct Conns<L> {
    list: Vec<Held<L>>,
    /// Where this is true, each has a higher number than those before it.
    is_rising: bool,
    /// The place behind that of the last turn: there the next search is likely to begin.
    next: usize,
    /// The place behind that of the link that was lent last: the next that is asked for is likely to be there.
    asked: usize,
}

impl<L> Model for Conns<L> {
    ghost use Rattle.std.specs.Prelude.{◌≡◌, true};
    ghost use Rattle.std.specs.declared.alloc.Global.{Global};
    ghost use Rattle.std.specs.declared.vec.Vec.{Vec};
    ghost use Rattle.mq_held.specs.declared.held.Held.{Held as HeldBy};
    ghost use Rattle.mq_actor.specs.Conns.{NumbersRise};

    ghost Value = { Vec (HeldBy L) Global };

    ghost view = { λ s. s.list };

    ghost invariant = { λ s. s.is_rising ≡ true → NumbersRise s.list.items };
}

/// Whether there is one at a place, and it has this number.
fn is_at<L>(conns: &[Held<L>], place: usize, number: u32) -> bool
    ensures { result ≡ stands_at number conns.now place }
{
    match conns.get(place) {
        None => false,
        Some(held) => held.number == number,
    }
}

impl<L: Drop> Conns<L> {
    /// There are none.
    pub(crate) fn new(alloc: Global) -> Conns<L>
        ensures { result.items ≡ [] }
    {
        Conns {
            list: Vec::new(alloc),
            is_rising: true,
            next: 0,
            asked: 0,
        }
    }

    /// How many there are.
    pub(crate) fn len(&self) -> usize
        ensures { result ≡ length self.now.items }
    {
        self.list.len()
    }

    /// The one at this place.
    pub(crate) fn at(&self, place: usize) -> &Held<L>
        requires { place < vec_len self.now }
        ensures { slice_get self.now.items place ≡ Some result.now }
    {
        &self.list[place]
    }

    /// Takes room for one more.
    pub(crate) fn reserve(&mut self) -> Result<(), NoMemory>
        ensures items { self.new.items ≡ self.old.items }
        ensures room { OnOk result (vec_len self.new < vec_capacity self.new) }
    {
        self.list.reserve(1)?;
        Ok(())
    }

    /// Whether numbers rise where one with this number comes last.
    fn rises_to(&self, number: u32) -> bool
        ensures { result ≡ true → (held : HeldBy L) → held.number ≡ number → NumbersRise (self.now.items ++ held ∷ []) }
    {
        match self.list.last() {
            None => true,
            Some(last) => self.is_rising && last.number < number,
        }
    }

    /// One more comes last, into room that was taken for it.
    pub(crate) fn push(&mut self, held: Held<L>)
        requires { vec_len self.old < vec_capacity self.old }
        ensures { self.new.items ≡ self.old.items ++ held ∷ [] }
    {
        let rises = self.rises_to(held.number);
        match self.list.push(held) {
            Ok(()) => self.is_rising = rises,
            Err(_) => unreachable!(),
        }
    }

    /// Takes out the one at this place.
    pub(crate) fn take(&mut self, place: usize) -> Held<L>
        requires { place < vec_len self.old }
        ensures items { self.new.items ≡ remove self.old.items place }
        ensures taken { slice_get self.old.items place ≡ Some result }
    {
        self.next = place;
        self.list.remove(place)
    }

    /// The place where the link that is asked for next is likely to be. Behind the last comes the first.
    fn likely(&self) -> usize {
        if self.asked < self.list.len() {
            self.asked
        } else {
            0
        }
    }

    /// The place of the one with this number.
    pub(crate) fn place_of(&self, number: u32) -> Option<usize>
        ensures { result ≡ position (λ h. h.number == number) self.now.items }
    {
        let likely = self.likely();
        if self.is_rising && is_at(self.list.as_slice(), likely, number) {
            return Some(likely);
        }
        self.list.iter().position(|held| held.number == number)
    }

    /// Lends the link of the one at this place.
    pub(crate) fn link(&mut self, place: usize) -> &mut L
        requires { place < vec_len self.old }
        ensures* writes_back { sem 𝓛 (Lends (the_row L.row) L.row self.entry result (with_link_of self.old place)) }
        ensures value { (h : HeldBy L) → slice_get self.old.items place ≡ Some h → result.now ≡ h.link }
    {
        self.asked = place + 1;
        let held = &mut self.list[place];
        &mut held.link
    }
}
