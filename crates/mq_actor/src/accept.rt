//! The turn of the offered links.
ghost use Rattle.std.specs.Prelude.{◌≡◌, ◌<◌};
ghost use Rattle.std.specs.Vec.{vec_len, vec_capacity};
ghost use Rattle.std.specs.VecDeque.{deque_len};
ghost use Rattle.mq_held.specs.Notes.{HasNote, note_with};
ghost use Rattle.mq_actor.specs.Seats.{AcceptGives, NextOffer, TakesIn};

use crate::offer::Offer;
use crate::ring::{MOST_LIVE, Ring, is_in};
use mq_conn::Conn;
use mq_held::Held;
use mq_talk::Note;
use mq_wire::NoMemory;
use std::alloc::Global;

impl<L: Drop> Ring<L> {
    /// The number of the link that may be accepted now.
    fn next_offer(&self, upper: bool) -> Option<u32>
        ensures { NextOffer upper self.now result }
    {
        if !is_in(0, self.next_seat, upper) {
            return None;
        }
        if self.conns.len() >= MOST_LIVE {
            return None;
        }
        let Some(first) = self.offered.first() else {
            return None;
        };
        Some(first.number)
    }

    /// The first offered link is the last of the connections from now on, for which there is room.
    fn take_in(&mut self, alloc: Global, conn: Conn)
        requires some { 0 < deque_len self.old.offered }
        requires room { vec_len self.old.conns < vec_capacity self.old.conns }
        ensures { TakesIn conn self.old self.new }
    {
        let Some(offer) = self.offered.pop() else {
            unreachable!()
        };
        let Offer { number, link } = offer;
        self.conns.push(Held::new(alloc, number, conn, link));
        self.next_seat = 1;
    }

    /// Accepts the oldest offered link, while fewer than 32 connections are live, where the seat of the offered links is in this
    /// part of the ring. Where memory is refused, the link stays offered. Most of the time none is offered, which is asked first.
    /// Answers whether one was accepted.
    #[inline(always)]
    pub(crate) fn accept(
        &mut self,
        alloc: Global,
        upper: bool,
        told: &mut Option<Note>,
    ) -> Result<bool, NoMemory>
        ensures ring { (self.new.id ≡ self.old.id) × (self.new.setup ≡ self.old.setup) }
        ensures gives { AcceptGives upper self.old self.new (note_with result told.new) }
        ensures told { HasNote result told.new }
    {
        if self.offered.len() == 0 {
            return Ok(false);
        }
        self.accept_first(alloc, upper, told)
    }

    #[inline(never)]
    fn accept_first(
        &mut self,
        alloc: Global,
        upper: bool,
        told: &mut Option<Note>,
    ) -> Result<bool, NoMemory>
        ensures ring { (self.new.id ≡ self.old.id) × (self.new.setup ≡ self.old.setup) }
        ensures gives { AcceptGives upper self.old self.new (note_with result told.new) }
        ensures told { HasNote result told.new }
    {
        let Some(number) = self.next_offer(upper) else {
            return Ok(false);
        };
        let conn = Conn::new(alloc, number, self.id)?;
        self.conns.reserve()?;
        self.take_in(alloc, conn);
        *told = Some(Note::Accepted {
            conn: number,
            actor: self.id,
        });
        Ok(true)
    }
}
