//! The seats of a worker.
ghost use Rattle.std.specs.Prelude.{◌≡◌, ◌+◌, ◌++◌, ◌∷◌, [], None, length, IfOk, OnOk, IfErr};
ghost use Rattle.mq_step.specs.Rooms.{HasRooms};
ghost use Rattle.mq_actor.specs.Passing.{is_in_part};

use crate::conns::Conns;
use crate::offer::Offer;
use crate::offers::Offers;
use mq_held::Held;
use mq_machine::Setup;
use mq_step::Rooms;
use mq_wire::NoMemory;
use std::alloc::Global;

/// The most connections of a worker.
pub const MOST_LIVE: usize = 32;

/// The seats of a worker in their ring: its offered links have seat 0, its inbox has seat 1, and each connection has the
/// seat of its number and two.
#[derive(Drop)]
pub struct Ring<L> {
    pub id: u32,
    pub setup: Setup,
    pub rooms: Rooms,
    /// Oldest first.
    pub offered: Offers<L>,
    /// As they were accepted.
    pub conns: Conns<L>,
    /// The seat from which the next search begins.
    pub next_seat: u64,
    /// The connection that the last step ended, until its link is taken.
    pub ended: Option<Held<L>>,
}

impl<L: Drop> Ring<L> {
    /// No connection is live, and no link is offered.
    pub(crate) fn new(alloc: Global, id: u32, setup: Setup) -> Result<Ring<L>, NoMemory>
        ensures { IfOk result (λ ring. (ring.id ≡ id) × (ring.setup ≡ setup) × (ring.offered.items ≡ []) × (ring.conns.items ≡ []) × (ring.next_seat ≡ 0) × (ring.ended ≡ None) × HasRooms ring.rooms) }
    {
        Ok(Ring {
            id,
            setup,
            rooms: Rooms::new(alloc)?,
            offered: Offers::new(alloc),
            conns: Conns::new(alloc),
            next_seat: 0,
            ended: None,
        })
    }

    /// Offers a link, which comes back where memory is refused.
    pub(crate) fn offer(&mut self, number: u32, link: L) -> Result<(), L>
        ensures offered { OnOk result (self.new.offered.items ≡ self.old.offered.items ++ record { number = number; link = link } ∷ []) }
        ensures refused { IfErr result (λ back. (back ≡ link) × (self.new.offered.items ≡ self.old.offered.items)) }
        ensures rest { self.new ≡ record self.old { offered = self.new.offered } }
    {
        match self.offered.push(Offer { number, link }) {
            Ok(()) => Ok(()),
            Err(back) => {
                let Offer { number: _, link } = back;
                Err(link)
            }
        }
    }

    /// How many links are offered, and connections live.
    pub(crate) fn live(&self) -> usize
        ensures { result ≡ length self.now.offered.items + length self.now.conns.items }
    {
        self.offered.len() + self.conns.len()
    }
}

/// The seat of a connection.
pub(crate) fn seat_of(number: u32) -> u64
    ensures { result ≡ number + 2 }
{
    u64::from(number) + 2
}

/// Whether a seat is tried in this part of the ring: in the upper part those from where the search begins, then the others.
pub(crate) fn is_in(seat: u64, from: u64, upper: bool) -> bool
    ensures { result ≡ is_in_part upper from seat }
{
    if upper { seat >= from } else { seat < from }
}
