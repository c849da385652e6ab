//! A tunnel opens, or the history has no place for it.
ghost use Rattle.std.specs.Prelude.{◌≡◌, ℕ, IfOk, is_ok};
ghost use Rattle.mq_ipcaps.specs.Lists.{AreRoutes};
ghost use Rattle.mq_talk.specs.declared.book.Reply.TheVariants as reply;
ghost use Rattle.mq_machine.specs.Done.{first_waiting};
ghost use Rattle.mq_conn.specs.Conns.{Hears, Refuses, act_of, behind};
ghost use Rattle.mq_conn.specs.Closing.{OpensOn, TakesOpen, opening, opens_act, opens_due};
ghost use Rattle.mq_conn.specs.Rooms.{GrantsTo, PlacesTunnel};
ghost use Rattle.mq_conn.specs.Queues.{values_of};

use crate::conn::{Conn, First, Tunnel};
use mq_addr::{Kind, Range};
use mq_front::kind_of;
use mq_iptun::routes_capsule;
use mq_machine::{Act, Due};
use mq_talk::{Goal, Note};
use mq_wire::{Bytes, NoMemory, Seq};
use std::alloc::Global;

/// The request whose tunnel is to open.
#[derive(Clone, Copy)]
pub struct Opening {
    pub stream: u32,
    pub goal: Goal,
}

fn opens_act(act: &Act) -> Option<Opening>
    ensures { result ≡ opens_act act.now }
{
    match act {
        Act::Open { stream, goal } => Some(Opening {
            stream: *stream,
            goal: *goal,
        }),
        _ => None,
    }
}

/// What that which is due opens, if anything.
fn opens_due(due: &Due) -> Option<Opening>
    ensures { result ≡ opens_due due.now }
{
    match due {
        Due::Do(act) => opens_act(act),
        _ => None,
    }
}

/// What the act in front opens, if anything.
fn opens_first(first: &First) -> Option<Opening>
    ensures { result ≡ opens_act (act_of first.now) }
{
    match first {
        First::Open { stream, goal } => Some(Opening {
            stream: *stream,
            goal: *goal,
        }),
        First::Close { .. } | First::Push { .. } => None,
    }
}

/// What waits in a tunnel as it opens: of a tunnel for IP packets its routes (RFC 9484, section 4.7.3).
fn told(alloc: Global, kind: Kind, routes: &[Range]) -> Result<Option<Bytes>, NoMemory>
    requires { AreRoutes routes.now }
    ensures { IfOk result (λ capsule. values_of capsule ≡ first_waiting kind routes.now) }
{
    match kind {
        Kind::Udp => Ok(None),
        Kind::Ip => {
            let capsule = routes_capsule(alloc, routes)?;
            Ok(Some(capsule))
        }
    }
}

impl Conn {
    /// Which tunnel is to open now.
    fn opening(&self) -> Option<Opening>
        ensures { result ≡ opening (behind self.now.first self.now.due) }
    {
        if let Some(first) = &self.first {
            return opens_first(first);
        }
        opens_due(self.due.first()?)
    }

    /// Takes the opening that is due first.
    fn take_open(&mut self) -> Option<Opening>
        ensures { TakesOpen self.old self.new result }
    {
        let opening = self.opening()?;
        self.take_front();
        Some(opening)
    }

    /// The tunnel is live, as tunnel `id`, in the room that was taken for it. Nothing waits in it yet.
    fn place(&mut self, id: u32, opening: Opening) -> Result<(), NoMemory>
        ensures { PlacesTunnel self.old self.new id opening result }
    {
        let Some(waiting) = self.spare.take() else {
            return Err(NoMemory);
        };
        let Opening { stream, goal } = opening;
        self.tunnels.push(Tunnel {
            id,
            stream,
            goal,
            waiting,
        })?;
        Ok(())
    }

    /// The success of its request is put.
    fn grant(&mut self, stream: u32, kind: Kind) -> Result<(), NoMemory>
        ensures { GrantsTo self.old self.new stream kind result }
    {
        let Some(front) = &mut self.front else {
            return Err(NoMemory);
        };
        front.grant(self.alloc, stream, kind)
    }

    /// The tunnel is open, as tunnel `id`, and there is room for the next that is to open.
    fn put_open(&mut self, id: u32, opening: Opening, routes: &[Range]) -> Result<Note, NoMemory>
        requires { AreRoutes routes.now }
        ensures { OpensOn self.old self.new id opening routes.now result }
    {
        let stream = opening.stream;
        let kind = kind_of(opening.goal);
        let conn = self.number;
        let place = self.tunnels.len();
        self.place(id, opening)?;
        self.grant(stream, kind)?;
        self.prepare()?;
        if let Some(capsule) = told(self.alloc, kind, routes)? {
            self.wait_at(place, capsule)?;
        }
        Ok(Note::Opened {
            tunnel: id,
            conn,
            stream,
            kind,
        })
    }

    /// Its tunnel opens, as tunnel `id`, with these routes.
    pub(crate) fn open(&mut self, id: u32, routes: Seq<Range>) -> Result<Note, NoMemory>
        requires { AreRoutes routes }
        ensures hears { Hears self.old self.new (reply.Opened id routes) result }
        ensures spent { Refuses self.old (is_ok result) }
    {
        let Some(opening) = self.take_open() else {
            return Err(NoMemory);
        };
        let note = self.put_open(id, opening, routes.as_slice())?;
        self.settle();
        Ok(note)
    }

    /// The history has no place for its tunnel.
    pub(crate) fn full(&mut self) -> Result<Note, NoMemory>
        ensures hears { (entries live : ℕ) → Hears self.old self.new (reply.HistoryFull entries live) result }
        ensures spent { Refuses self.old (is_ok result) }
    {
        let Some(opening) = self.take_open() else {
            return Err(NoMemory);
        };
        let note = self.refuse(opening.stream, 503, 0)?;
        self.settle();
        Ok(note)
    }
}
