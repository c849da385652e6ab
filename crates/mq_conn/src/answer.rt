//! What a connection does as the book answers it.
ghost use Rattle.std.specs.Prelude.{◌≡◌, ◌≢◌, ◌∷◌, List, None, Some, is_ok};
ghost use Rattle.mq_machine.specs.Done.{without_tunnel};
ghost use Rattle.mq_machine.specs.declared.act.Due.{Due};
ghost use Rattle.mq_machine.specs.State as machine;
ghost use Rattle.mq_machine.specs.Want.{Replied};
ghost use Rattle.mq_iptun.specs.Answers.{CanTell};
ghost use Rattle.mq_conn.specs.Conns.{Does, Hears, MayHear, Refuses, Stands, behind};
ghost use Rattle.mq_conn.specs.Closing.{ClosesFront, ClosesOn, ClosesSo, closing, closes_first, closes_due, closes_act, closes_stream};

use crate::conn::{Conn, First};
use mq_machine::{Act, Due, StreamAct};
use mq_talk::{Note, Reply, Why};
use mq_wire::NoMemory;

/// The stream whose tunnel is to close, and why.
#[derive(Clone, Copy)]
struct Closing {
    stream: u32,
    why: Why,
}

/// What the act in front closes, if anything.
fn closes_first(first: &First) -> Option<Closing>
    ensures { result ≡ closes_first first.now }
{
    match first {
        First::Close { stream, why } => Some(Closing {
            stream: *stream,
            why: *why,
        }),
        First::Open { .. } | First::Push { .. } => None,
    }
}

fn closes_stream(stream: u32, act: &StreamAct) -> Option<Closing>
    ensures { result ≡ closes_stream stream act.now }
{
    match act {
        StreamAct::Close { why } => Some(Closing { stream, why: *why }),
        StreamAct::Assign { .. } | StreamAct::Advertise { .. } => Some(Closing {
            stream,
            why: Why::Full,
        }),
        _ => None,
    }
}

fn closes_act(act: &Act) -> Option<Closing>
    ensures { result ≡ closes_act act.now }
{
    match act {
        Act::OfStream { stream, act } => closes_stream(*stream, act),
        _ => None,
    }
}

/// What that which is due closes, if anything.
fn closes_due(due: &Due) -> Option<Closing>
    ensures { result ≡ closes_due due.now }
{
    match due {
        Due::Do(act) => closes_act(act),
        _ => None,
    }
}

impl Conn {
    /// Which tunnel is to close now, while the connection isn't ending, and why.
    fn closing(&self) -> Option<Closing>
        ensures { result ≡ closing self.now.first self.now.due }
    {
        if let Some(first) = &self.first {
            return closes_first(first);
        }
        match self.due.first() {
            None => None,
            Some(due) => closes_due(due),
        }
    }

    /// Takes the act that stands in front, or what is due first.
    pub(crate) fn take_front(&mut self)
        ensures { (d : Due) (rest : List Due) → behind self.old.first self.old.due ≡ d ∷ rest → self.new ≡ record self.old { first = None; due = rest } }
    {
        if self.first.is_some() {
            self.first = None;
        } else {
            let _ = self.due.pop();
        }
    }

    /// The tunnel of a stream closes. Over HTTP/1.1 the connection ends with it.
    fn close(&mut self, stream: u32, why: Why) -> Option<Note>
        ensures { ClosesOn self.old self.new stream why result }
    {
        let tunnel = self.on(stream)?;
        let id = tunnel.id;
        let begun = tunnel.waiting.is_begun();
        let left = tunnel.waiting.len();
        self.forget(stream);
        self.drop_tunnel(id);
        self.close_front(stream, begun, why);
        Some(Note::Closed {
            tunnel: id,
            why,
            left: left as u32,
        })
    }

    /// What the stream of a closed tunnel gets is put, and the connection ends with it where it does.
    fn close_front(&mut self, stream: u32, begun: bool, why: Why)
        ensures { ClosesFront self.old self.new stream begun why }
    {
        let Some(front) = &mut self.front else {
            return;
        };
        let end = front.close(stream, begun, why);
        if self.ending.is_none() {
            self.ending = end;
        }
    }

    /// The tunnel of this number is live no more.
    fn drop_tunnel(&mut self, id: u32)
        ensures { (s : machine.Conn) → Stands self.old s → Stands self.new (without_tunnel id s) }
    {
        self.tunnels.retain(|tunnel| tunnel.id != id);
    }

    /// The book has closed a tunnel.
    fn closed(&mut self) -> Note
        ensures { Does self.old self.new (Replied Reply.Closed) result }
    {
        if self.ending.is_some() {
            return self.closed_ending();
        }
        self.closed_due()
    }

    /// The first tunnel of an ending connection.
    fn closed_ending(&mut self) -> Note
        ensures { self.old.ending ≢ None → Does self.old self.new (Replied Reply.Closed) result }
    {
        let Some(tunnel) = self.tunnels.first() else {
            return self.none();
        };
        let stream = tunnel.stream;
        self.close_so(stream, Why::Conn)
    }

    /// The tunnel that was to close.
    fn closed_due(&mut self) -> Note
        ensures { self.old.ending ≡ None → Does self.old self.new (Replied Reply.Closed) result }
    {
        let Some(closing) = self.closing() else {
            return self.none();
        };
        self.take_front();
        self.close_so(closing.stream, closing.why)
    }

    /// The tunnel of a stream closes, and the act ends.
    fn close_so(&mut self, stream: u32, why: Why) -> Note
        ensures { ClosesSo self.old self.new stream why result }
    {
        match self.close(stream, why) {
            None => self.none(),
            Some(note) => {
                self.settle();
                note
            }
        }
    }

    fn try_answer(&mut self, reply: Reply) -> Result<Note, NoMemory>
        requires { CanTell reply }
        ensures hears { Hears self.old self.new reply result }
        ensures spent { reply ≢ Reply.Closed → Refuses self.old (is_ok result) }
    {
        match reply {
            Reply::Opened { tunnel, routes } => self.open(tunnel, routes),
            Reply::HistoryFull { .. } => self.full(),
            Reply::Closed => Ok(self.closed()),
            Reply::Assigned { list, at } => self.assigned(list, at),
            Reply::Accepted { yes, at } => self.accepted(yes, at),
        }
    }

    /// The book replied. What it tells keeps to the limits of a control capsule. Where it was refused memory for the answer, the
    /// tunnel that opened is one of its own, to be closed.
    pub fn answer(&mut self, reply: Reply) -> Result<Note, NoMemory>
        requires { CanTell reply }
        ensures hears { MayHear self.old self.new reply result }
        ensures spent { reply ≢ Reply.Closed → Refuses self.old (is_ok result) }
    {
        match self.try_answer(reply) {
            Ok(note) => Ok(note),
            Err(refused) => {
                self.starve();
                Err(refused)
            }
        }
    }
}
