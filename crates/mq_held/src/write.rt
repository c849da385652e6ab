//! What is owed is written to the link.
ghost use Rattle.std.specs.Prelude.{◌≡◌, ◌+◌, ◌≤◌, ◌<◌, [], false, length};
ghost use Rattle.std.specs.Vec.{vec_len, vec_capacity};
ghost use Rattle.mq_machine.specs.State as machine;
ghost use Rattle.mq_conn.specs.Conns.{IsConn};
ghost use Rattle.mq_held.specs.Links.{calls_of, WriteAsked, WriteGives, WritesPast};
ghost use Rattle.mq_held.specs.Notes.{went_with};
ghost use Rattle.mq_held.specs.Ready.{WouldWrite};

use crate::held::Held;
use crate::note::put_note;
use crate::ready::WriteReady;
use crate::went::{Went, size_of};
use mq_outside::LinkPut;
use mq_talk::{End, Note};
use mq_wire::{Bytes, NoMemory};
use std::alloc::Global;

/// The first bytes, in room that was taken for them.
fn filled(mut room: Vec<u8>, first: &[u8]) -> Bytes
    requires room { vec_len room + length first.now ≤ vec_capacity room }
    requires empty { room.items ≡ [] }
    ensures { result ≡ first.now }
{
    if room.extend_from_slice(first).is_err() {
        unreachable!()
    }
    Bytes::from_vec(room)
}

/// Writes to a link that takes nothing now, which counts that it waits. Takes no memory.
fn wait<L: WriteReady>(link: &mut L, owed: &[u8])
    requires some { 0 < length owed.now }
    requires waits { WouldWrite (L.holds link.old) false }
    ensures asked { WriteAsked (calls_of L.holds L.past L.counts link.old link.new) }
    ensures past { L.past link.new ≡ L.past link.old }
{
    match link.write(owed) {
        LinkPut::NotNow => (),
        LinkPut::Failed => unreachable!(),
        LinkPut::Took(_) => unreachable!(),
    }
}

impl<L: WriteReady> Held<L> {
    /// Writes what it owes, where it owes something, and puts the note of that into `told`. The memory for the note is taken
    /// before, and only where the link may take something now, or fail.
    pub fn write(&mut self, alloc: Global, told: &mut Option<Note>) -> Result<Went, NoMemory>
        ensures gives { (s : machine.Conn) → IsConn self.old.conn s → s.number ≡ self.old.number → WriteGives (calls_of L.holds L.past L.counts self.old.link self.new.link) (IsConn self.new.conn) s (went_with result told.new) }
        ensures past { WritesPast (L.past self.old.link) (L.past self.new.link) (went_with result told.new) }
        ensures rest { self.new ≡ record self.old { conn = self.new.conn; link = self.new.link } }
    {
        let owed = self.conn.owed();
        if owed.is_empty() {
            return Ok(Went::Waits);
        }
        let would_write = self.link.would_write();
        if !would_write {
            wait(&mut self.link, owed);
            return Ok(Went::Waits);
        }
        let Ok(room) = Vec::with_capacity(alloc, owed.len()) else {
            self.conn.fail(End::NoMemory);
            return Err(NoMemory);
        };
        match self.link.write(owed) {
            LinkPut::NotNow => Ok(Went::Waits),
            LinkPut::Failed => {
                self.conn.fail(End::Link);
                Ok(Went::Failed)
            }
            LinkPut::Took(count) => {
                let (first, _) = owed.split_at(size_of(count));
                let bytes = filled(room, first);
                self.conn.wrote(count);
                let conn = self.number;
                put_note(told, Note::Wrote { conn, bytes });
                Ok(Went::Did)
            }
        }
    }
}
