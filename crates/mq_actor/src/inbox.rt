//! The turn of the inbox.
ghost use Rattle.std.specs.Prelude.{◌≡◌, true, Some, is_some};
ghost use Rattle.mq_talk.specs.declared.note.Note.{Note as Said};
ghost use Rattle.mq_talk.specs.declared.note.Note.TheVariants as note;
ghost use Rattle.mq_talk.specs.declared.place.Cause.TheVariants as cause;
ghost use Rattle.mq_machine.specs.Turn.{source_of as source_is};
ghost use Rattle.mq_held.specs.Notes.{note_by};
ghost use Rattle.mq_actor.specs.Passing.{is_in_part};
ghost use Rattle.mq_actor.specs.Seats.{ComesTo, InboxGives, IsPlaceWith, missed_at};

use crate::ring::{Ring, is_in};
use mq_talk::{Cause, From, Mail, Note, Origin, Parcel, Place};

/// Whose packet it is, as a note says it.
pub(crate) fn source_of(origin: Origin) -> From
    ensures { result ≡ source_is origin }
{
    match origin {
        Origin::Tunnel(tunnel) => From::Tunnel(tunnel),
        Origin::Net => From::Net,
    }
}

/// A packet for which there is no tunnel is dropped.
fn gone(from: From, n: u64) -> Note
    ensures { result ≡ note.Dropped from n cause.Gone }
{
    Note::Dropped {
        from,
        n,
        cause: Cause::Gone,
    }
}

impl<L: Drop> Ring<L> {
    /// The place of the first connection that has this live tunnel.
    fn place_with(&self, tunnel: u32) -> Option<usize>
        ensures { IsPlaceWith self.now.conns.items tunnel result }
    {
        for place in 0..self.conns.len() {
            if self.conns.at(place).conn.is_live(tunnel) {
                return Some(place);
            }
        }
        None
    }

    /// A packet comes to its tunnel, where a connection has that.
    fn come(&mut self, parcel: Parcel) -> Note
        ensures comes { ComesTo parcel.to parcel self.old.conns.items self.new.conns.items result }
        ensures rest { self.new ≡ record self.old { conns = self.new.conns } }
    {
        let Place::Tunnel { tunnel, .. } = parcel.to else {
            return gone(source_of(parcel.from), parcel.n);
        };
        match self.place_with(tunnel) {
            None => gone(source_of(parcel.from), parcel.n),
            Some(place) => self.conns.come_at(place, tunnel, parcel),
        }
    }

    /// Takes a parcel from its inbox, where that seat is in this part of the ring: its packet comes to its tunnel. Answers whether
    /// there was one.
    #[inline(always)]
    pub(crate) fn pop<M: Mail>(
        &mut self,
        upper: bool,
        mail: &mut M,
        told: &mut Option<Note>,
    ) -> bool
        ensures gives { InboxGives (M.count mail.old) (M.boxes mail.old) (M.actor mail.old) upper self.old self.new (note_by result told.new) (M.boxes mail.new) }
        ensures told { result ≡ true → is_some told.new ≡ true }
        ensures ring { (self.new.id ≡ self.old.id) × (self.new.setup ≡ self.old.setup) }
        ensures actor { M.actor mail.new ≡ M.actor mail.old }
        ensures count { M.count mail.new ≡ M.count mail.old }
        ensures missed { M.missed mail.new ≡ missed_at (is_in_part upper self.old.next_seat 1) (note_by result told.new) (M.boxes mail.old).told (M.missed mail.old) }
    {
        if !is_in(1, self.next_seat, upper) {
            return false;
        }
        match mail.pop() {
            None => false,
            Some(parcel) => {
                self.come_next(parcel, told);
                true
            }
        }
    }

    /// A packet comes to its tunnel, where a connection has that, in the turn of the inbox, and its note is put into `told`.
    #[inline(never)]
    fn come_next(&mut self, parcel: Parcel, told: &mut Option<Note>)
        ensures comes { (said : Said) × (told.new ≡ Some said) × ComesTo parcel.to parcel self.old.conns.items self.new.conns.items said }
        ensures rest { self.new ≡ record self.old { conns = self.new.conns; next_seat = 2 } }
    {
        self.next_seat = 2;
        *told = Some(self.come(parcel));
    }
}
