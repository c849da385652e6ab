//! A link in memory, whose world says what arrives, what it has room for and which calls fail.
ghost use Rattle.std.specs.Prelude.{◌≡◌, ◌<◌, ◌≤◌, ◌++◌, ◌∷◌, [], length, true, false, is_some, IfOk, OnOk, OnErr, MatchOption, IsNone, IfSome};
ghost use Rattle.mq_outside.specs.Links.{LinkReads, GivesSome, after_read, past_read, LinkWrites, LinkTakesSome, after_write, past_written, taken_of, room_left};
ghost use Rattle.mq_mem.specs.Links.{Link as LinkOf, AllFull, told, past_of, new_link, no_bytes, with_holds, got_first, pieces_after, got_of, after_got, end_after, GotBytes};
ghost use Rattle.mq_mem.specs.Links.{would_read as would_read_of, put_of, after_put, would_write as would_write_of, took, free, least, keeping, Fits};

use crate::calls::Calls;
use crate::fitting::fitting;
use crate::pieces::Pieces;
use crate::room::Room;
use mq_outside::{Link, LinkGot, LinkPut, risen};
use mq_wire::{Bytes, NoMemory, Seq};
use std::alloc::Global;
use std::marker::Model;

/// A link in memory.
#[derive(Drop)]
pub struct MemLink {
    pieces: Pieces,
    is_ended: bool,
    room: Option<u32>,
    read_fails: bool,
    write_fails: bool,
    kept: Option<Room>,
    calls: Calls,
    answered_end: bool,
    read_waits: u64,
    write_waits: u64,
    faults: u64,
}

impl Model for MemLink {
    ghost Value = { LinkOf };

    ghost view = { λ l. record {
      holds = record { pieces = l.pieces; is_ended = l.is_ended; room = l.room; read_fails = l.read_fails; write_fails = l.write_fails };
      kept = l.kept;
      calls = l.calls;
      answered_end = l.answered_end;
      counts = record { read_waits = l.read_waits; write_waits = l.write_waits; faults = l.faults };
    } };
}

/// What is read of these pieces, or that there is none.
fn answer_of(pieces: &mut Pieces, is_ended: bool, into: &mut [u8]) -> LinkGot
    requires { 0 < length into.old }
    ensures answer { result ≡ got_first pieces.old is_ended (length into.old) }
    ensures after { pieces.new ≡ pieces_after pieces.old result }
    ensures bytes { GotBytes pieces.old into.new result }
{
    match pieces.read(into) {
        Some(count) => LinkGot::Bytes(count),
        None if is_ended => LinkGot::End,
        None => LinkGot::NotNow,
    }
}

/// How many bytes are kept at first: none, in this room.
fn room_for(alloc: Global, room: Option<u32>) -> Result<Option<Room>, NoMemory>
    ensures { IfOk result (λ kept. kept ≡ no_bytes room) }
{
    let Some(room) = room else {
        return Ok(None);
    };
    let kept = Room::new(alloc, room)?;
    Ok(Some(kept))
}

/// How many of so many bytes there is room for.
fn space(room: Option<u32>, free: Option<u32>, size: usize) -> u32
    ensures value { result ≡ taken_of (least room free) size }
    ensures within { result ≤ size }
{
    match (room, free) {
        (None, None) => fitting(size, size),
        (Some(room), None) => fitting(room as usize, size),
        (None, Some(free)) => fitting(free as usize, size),
        (Some(room), Some(free)) => fitting(room.min(free) as usize, size),
    }
}

/// How many bytes more there is room for among those that are kept.
fn free_of(kept: &Option<Room>) -> Option<u32>
    ensures { result ≡ free kept.now }
{
    match kept {
        None => None,
        Some(kept) => Some(kept.free()),
    }
}

/// Keeps some bytes, where these are kept.
fn keep(kept: &mut Option<Room>, bytes: &[u8])
    requires { Fits (free kept.old) (length bytes.now) }
    ensures { kept.new ≡ keeping kept.old bytes.now }
{
    if let Some(kept) = kept {
        kept.keep(bytes);
    }
}

/// What is left of a room when so many bytes were taken.
fn left_of(room: Option<u32>, count: u32) -> Option<u32>
    requires { Fits room count }
    ensures { result ≡ room_left room count }
{
    match room {
        None => None,
        Some(room) => Some(room - count),
    }
}

impl MemLink {
    /// A link on which these pieces arrived, of which none is empty, and maybe its end. With a room it keeps what it takes,
    /// and a write fails where that is used up. Without one it keeps nothing. The calls of the numbers in `fails` fail: its
    /// reads and writes, counted together from 0.
    pub fn new(
        alloc: Global,
        pieces: Seq<Bytes>,
        end: bool,
        room: Option<u32>,
        fails: Seq<u64>,
    ) -> Result<MemLink, NoMemory>
        requires { AllFull pieces }
        ensures { IfOk result (λ l. l ≡ new_link pieces end room fails) }
    {
        let kept = room_for(alloc, room)?;
        Ok(MemLink {
            pieces: Pieces::new(pieces),
            is_ended: end,
            room: None,
            read_fails: false,
            write_fails: false,
            kept,
            calls: Calls::new(fails),
            answered_end: false,
            read_waits: 0,
            write_waits: 0,
            faults: 0,
        })
    }

    /// A piece arrives.
    pub fn piece(&mut self, bytes: Bytes) -> Result<(), NoMemory>
        requires { 0 < length bytes }
        ensures ok { OnOk result (self.new ≡ with_holds self.old (record self.old.holds { pieces = self.old.holds.pieces ++ bytes ∷ [] })) }
        ensures err { OnErr result (self.new ≡ self.old) }
    {
        self.pieces.push(bytes)
    }

    /// The end arrives. Takes no memory.
    pub fn finish(&mut self)
        ensures { self.new ≡ with_holds self.old (record self.old.holds { is_ended = true }) }
    {
        self.is_ended = true;
    }

    /// From now on it takes so many bytes, and then a write answers that nothing goes on now; without a number it takes
    /// any number. Takes no memory.
    pub fn grant(&mut self, room: Option<u32>)
        ensures { self.new ≡ with_holds self.old (record self.old.holds { room = room }) }
    {
        self.room = room;
    }

    /// The next read fails. Takes no memory.
    pub fn fail_read(&mut self)
        ensures { self.new ≡ with_holds self.old (record self.old.holds { read_fails = true }) }
    {
        self.read_fails = true;
    }

    /// The next write fails. Takes no memory.
    pub fn fail_write(&mut self)
        ensures { self.new ≡ with_holds self.old (record self.old.holds { write_fails = true }) }
    {
        self.write_fails = true;
    }

    /// How often its calls failed.
    pub(crate) fn faults(&self) -> u64
        ensures { result ≡ self.now.counts.faults }
    {
        self.faults
    }

    /// Whether it tells what it holds: it has no room for what it takes, and no call is to fail by its number.
    pub fn tells(&self) -> bool
        ensures { result ≡ is_some (told self.now) }
    {
        self.kept.is_none() && self.calls.lists_none()
    }

    /// Whether a read would now answer something other than `NotNow`.
    pub fn would_read(&self) -> bool
        ensures { result ≡ would_read_of self.now }
    {
        self.calls.is_next_failing() || self.read_fails || !self.pieces.is_empty() || self.is_ended
    }

    /// Whether a write would now answer something other than `NotNow`.
    pub fn would_write(&self) -> bool
        ensures { result ≡ would_write_of self.now }
    {
        self.calls.is_next_failing()
            || self.write_fails
            || free_of(&self.kept) == Some(0)
            || self.room != Some(0)
    }

    /// What it took, where it keeps that.
    pub fn taken(&self) -> Option<&[u8]>
        ensures { MatchOption (took self.now.kept) (IsNone result) (λ bytes. IfSome result (λ taken. taken.now ≡ bytes)) }
    {
        match &self.kept {
            None => None,
            Some(kept) => Some(kept.taken()),
        }
    }

    /// Counts what a read answered.
    fn note_read(&mut self, answer: LinkGot)
        ensures { self.new ≡ record self.old { answered_end = end_after self.old.answered_end answer; counts = after_read self.old.counts answer } }
    {
        match answer {
            LinkGot::Bytes(_) => (),
            LinkGot::NotNow => self.read_waits = risen(self.read_waits),
            LinkGot::End => self.answered_end = true,
            LinkGot::Failed => self.faults = risen(self.faults),
        }
    }

    /// Reads, as `read` does.
    #[inline(always)]
    fn read_now(&mut self, into: &mut [u8]) -> LinkGot
        requires { 0 < length into.old }
        ensures answer { result ≡ got_of self.old (length into.old) }
        ensures bytes { GotBytes self.old.holds.pieces into.new result }
        ensures after { self.new ≡ after_got self.old result }
    {
        let listed = self.calls.next_fails();
        if listed || self.read_fails {
            self.read_fails = false;
            self.note_read(LinkGot::Failed);
            return LinkGot::Failed;
        }
        let answer = answer_of(&mut self.pieces, self.is_ended, into);
        self.note_read(answer);
        answer
    }

    /// Writes, as `write` does.
    fn write_now(&mut self, bytes: &[u8]) -> LinkPut
        requires { 0 < length bytes.now }
        ensures answer { result ≡ put_of self.old (length bytes.now) }
        ensures after { self.new ≡ after_put self.old bytes.now result }
    {
        let listed = self.calls.next_fails();
        let free = free_of(&self.kept);
        if listed || self.write_fails || free == Some(0) {
            self.write_fails = false;
            self.faults = risen(self.faults);
            return LinkPut::Failed;
        }
        let count = space(self.room, free, bytes.len());
        if count == 0 {
            self.write_waits = risen(self.write_waits);
            return LinkPut::NotNow;
        }
        let (front, _) = bytes.split_at(count as usize);
        keep(&mut self.kept, front);
        self.room = left_of(self.room, count);
        LinkPut::Took(count)
    }
}

impl Link for MemLink {
    type Rest = MemLink;

    ghost holds = { told };

    ghost past = { past_of };

    ghost counts = { λ l. l.counts };

    ghost rest_past = { past_of };

    ghost rest_counts = { λ l. l.counts };

    #[inline(always)]
    fn read(&mut self, into: &mut [u8]) -> LinkGot
        requires { 0 < length into.old }
        ensures some { GivesSome into.new result }
        ensures reads { LinkReads (told self.old) (told self.new) into.new result }
        ensures past { past_of self.new ≡ past_read (past_of self.old) into.new result }
        ensures counts { self.new.counts ≡ after_read self.old.counts result }
        ensures answer { result ≡ got_of self.old (length into.old) }
        ensures bytes { GotBytes self.old.holds.pieces into.new result }
        ensures after { self.new ≡ after_got self.old result }
    {
        self.read_now(into)
    }

    #[tactic(auto, using(crate::proofs::Telling::no_room))]
    fn write(&mut self, bytes: &[u8]) -> LinkPut
        requires { 0 < length bytes.now }
        ensures some { LinkTakesSome bytes.now result }
        ensures writes { LinkWrites (told self.old) (told self.new) bytes.now result }
        ensures past { past_of self.new ≡ past_written (past_of self.old) bytes.now result }
        ensures counts { self.new.counts ≡ after_write self.old.counts result }
        ensures answer { result ≡ put_of self.old (length bytes.now) }
        ensures after { self.new ≡ after_put self.old bytes.now result }
    {
        self.write_now(bytes)
    }

    fn close(self) -> MemLink
        ensures past { past_of result ≡ past_of self }
        ensures counts { result.counts ≡ self.counts }
        ensures same { result ≡ self }
    {
        self
    }
}
