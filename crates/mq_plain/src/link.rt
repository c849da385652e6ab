//! A link in memory that always tells what it holds.
ghost use Rattle.std.specs.Prelude.{◌≡◌, ◌<◌, [], length, true, false, Some, None, IfOk, OnOk, OnErr};
ghost use Rattle.mq_outside.specs.Links.{empty_link};
ghost use Rattle.mq_mem.specs.Links.{Link as LinkOf, past_of, new_link, with_holds};
ghost use Rattle.mq_plain.specs.Plain.{IsPlainLink};
ghost use Rattle.mq_plain.specs.Coming.{changed, with_piece};

use mq_actor::ReadReady;
use mq_held::WriteReady;
use mq_mem::MemLink;
use mq_outside::{Link, LinkGot, LinkPut};
use mq_wire::{Bytes, NoMemory, Seq};
use std::alloc::Global;
use std::marker::Model;

/// What comes to a link beside pieces.
#[derive(Clone, Copy, Debug, PartialEq, Eq)]
pub enum LinkEvent {
    /// Its end arrives behind its pieces.
    End,
    /// From now on it takes so many bytes, and then a write answers that nothing goes on now; without a number it takes any
    /// number.
    Room(Option<u32>),
    /// Its next read fails.
    FailRead,
    /// Its next write fails.
    FailWrite,
}

/// A link in memory that keeps nothing of what it takes, and whose calls fail only as they are told to.
#[derive(Drop)]
pub struct PlainLink {
    link: MemLink,
}

impl Model for PlainLink {
    ghost Value = { LinkOf };

    ghost view = { λ l. l.link };

    ghost invariant = { λ l. IsPlainLink l.link };
}

impl PlainLink {
    /// A link on which nothing arrived, and which takes any number of bytes.
    pub fn new(alloc: Global) -> Result<PlainLink, NoMemory>
        ensures holds { IfOk result (λ l. l.holds ≡ empty_link) }
        ensures same { IfOk result (λ l. l ≡ new_link [] false None []) }
    {
        let pieces = Seq::from_vec(Vec::new(alloc));
        let fails = Seq::from_vec(Vec::new(alloc));
        let link = MemLink::new(alloc, pieces, false, None, fails)?;
        Ok(PlainLink { link })
    }

    /// A piece arrives.
    pub fn piece(&mut self, bytes: Bytes) -> Result<(), NoMemory>
        requires { 0 < length bytes }
        ensures ok { OnOk result (self.new ≡ with_holds self.old (with_piece bytes self.old.holds)) }
        ensures err { OnErr result (self.new ≡ self.old) }
    {
        self.link.piece(bytes)
    }

    /// Something comes to the link. Takes no memory.
    pub fn change(&mut self, event: LinkEvent)
        ensures { self.new ≡ with_holds self.old (changed event self.old.holds) }
    {
        match event {
            LinkEvent::End => self.link.finish(),
            LinkEvent::Room(room) => self.link.grant(room),
            LinkEvent::FailRead => self.link.fail_read(),
            LinkEvent::FailWrite => self.link.fail_write(),
        }
    }
}

impl Link for PlainLink {
    type Rest = MemLink;

    ghost holds = { λ l. Some l.holds };

    ghost past = { past_of };

    ghost counts = { λ l. l.counts };

    ghost rest_past = { past_of };

    ghost rest_counts = { λ l. l.counts };

    fn read(&mut self, into: &mut [u8]) -> LinkGot {
        self.link.read(into)
    }

    fn write(&mut self, bytes: &[u8]) -> LinkPut {
        self.link.write(bytes)
    }

    fn close(self) -> MemLink {
        self.link
    }
}

impl WriteReady for PlainLink {
    fn would_write(&self) -> bool {
        WriteReady::would_write(&self.link)
    }
}

impl ReadReady for PlainLink {
    fn would_read(&self) -> bool {
        ReadReady::would_read(&self.link)
    }
}
