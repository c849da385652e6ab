//! What a connection does as it is answered: the first act that is due.
ghost use Rattle.std.specs.Prelude.{◌≡◌, ◌≢◌, ℕ, MatchOption, [], ◌∷◌, List, None, Some, IfSome, IfOk, is_ok};
ghost use Rattle.mq_machine.specs.declared.act.Act.TheVariants as asks;
ghost use Rattle.mq_machine.specs.declared.act.StreamAct.TheVariants as asked;
ghost use Rattle.mq_machine.specs.declared.act.Due.TheVariants.{Do};
ghost use Rattle.mq_machine.specs.Done.{before, refused, without};
ghost use Rattle.mq_machine.specs.State as machine;
ghost use Rattle.mq_machine.specs.Want.{Said, Bound, Put};
ghost use Rattle.mq_conn.specs.Conns.{Does, IsPayload, MayDo, PutsNote, Refuses, Stands, Tries, find_on};
ghost use Rattle.mq_conn.specs.Acts.{DoesAct, MayStep, saying_act};

use crate::conn::{Conn, First};
use mq_machine::{Act, Due, StreamAct};
use mq_outside::PortPut;
use mq_talk::{Cause, From, Goal, Note};
use mq_wire::{Bytes, NoMemory};

/// A request whose port is to be bound.
#[derive(Clone, Copy)]
struct Binding {
    stream: u32,
    goal: Goal,
}

fn bind_of_act(act: &Act) -> Option<Binding>
    ensures { IfSome result (λ b. act.now ≡ asks.Bind b.stream b.goal) }
{
    match act {
        Act::Bind { stream, goal } => Some(Binding {
            stream: *stream,
            goal: *goal,
        }),
        _ => None,
    }
}

fn bind_of(due: &Due) -> Option<Binding>
    ensures { IfSome result (λ b. due.now ≡ Do (asks.Bind b.stream b.goal)) }
{
    match due {
        Due::Do(act) => bind_of_act(act),
        _ => None,
    }
}

/// What is due and needs nothing of the outside.
#[derive(Clone, Copy)]
enum Saying {
    /// A request is refused.
    Refuse { stream: u32, status: u16, rule: u32 },
    /// A stream without a tunnel was reset.
    Reset { stream: u32, code: u32 },
    /// A payload is dropped.
    Drop { stream: u32, n: u64, cause: Cause },
}

fn saying_of_stream(stream: u32, act: &StreamAct) -> Option<Saying>
    ensures { IfSome result (λ s. asks.OfStream stream act.now ≡ saying_act s) }
{
    match act {
        StreamAct::Drop { n, cause } => Some(Saying::Drop {
            stream,
            n: *n,
            cause: *cause,
        }),
        _ => None,
    }
}

fn saying_of_act(act: &Act) -> Option<Saying>
    ensures { IfSome result (λ s. act.now ≡ saying_act s) }
{
    match act {
        Act::Refuse {
            stream,
            status,
            rule,
        } => Some(Saying::Refuse {
            stream: *stream,
            status: *status,
            rule: *rule,
        }),
        Act::Reset { stream, code } => Some(Saying::Reset {
            stream: *stream,
            code: *code,
        }),
        Act::OfStream { stream, act } => saying_of_stream(*stream, act),
        _ => None,
    }
}

fn saying_of(due: &Due) -> Option<Saying>
    ensures { IfSome result (λ s. due.now ≡ Do (saying_act s)) }
{
    match due {
        Due::Do(act) => saying_of_act(act),
        _ => None,
    }
}

/// A payload that is to go to the port.
#[derive(Drop)]
struct Sending {
    stream: u32,
    n: u64,
    payload: Bytes,
}

fn payload_of_stream(stream: u32, act: StreamAct) -> Option<Sending>
    ensures { MatchOption result ((n : ℕ) (payload : List ℕ) → act ≢ asked.Payload n payload) (λ p. (p.stream ≡ stream) × (act ≡ asked.Payload p.n p.payload)) }
{
    match act {
        StreamAct::Payload { n, payload } => Some(Sending { stream, n, payload }),
        _ => None,
    }
}

fn payload_of_act(act: Act) -> Option<Sending>
    ensures { MatchOption result ((id n : ℕ) (payload : List ℕ) → act ≢ asks.OfStream id (asked.Payload n payload)) (λ p. act ≡ asks.OfStream p.stream (asked.Payload p.n p.payload)) }
{
    match act {
        Act::OfStream { stream, act } => payload_of_stream(stream, act),
        _ => None,
    }
}

fn payload_of(due: Due) -> Option<Sending>
    ensures { MatchOption result ((id n : ℕ) (payload : List ℕ) → due ≢ Do (asks.OfStream id (asked.Payload n payload))) (λ p. due ≡ Do (asks.OfStream p.stream (asked.Payload p.n p.payload))) }
{
    match due {
        Due::Do(act) => payload_of_act(act),
        _ => None,
    }
}

/// The payload of an act that sends one.
fn sent_by_stream(act: &StreamAct) -> Option<&Bytes>
    ensures { MatchOption result ((n : ℕ) (payload : List ℕ) → act.now ≢ asked.Payload n payload) (λ p. (n : ℕ) × (act.now ≡ asked.Payload n p.now)) }
{
    match act {
        StreamAct::Payload { payload, .. } => Some(payload),
        _ => None,
    }
}

fn sent_by_act(act: &Act) -> Option<&Bytes>
    ensures { MatchOption result ((id n : ℕ) (payload : List ℕ) → act.now ≢ asks.OfStream id (asked.Payload n payload)) (λ p. (id : ℕ) × (n : ℕ) × (act.now ≡ asks.OfStream id (asked.Payload n p.now))) }
{
    match act {
        Act::OfStream { act, .. } => sent_by_stream(act),
        _ => None,
    }
}

fn sent_by(due: &Due) -> Option<&Bytes>
    ensures { MatchOption result ((id n : ℕ) (payload : List ℕ) → due.now ≢ Do (asks.OfStream id (asked.Payload n payload))) (λ p. (id : ℕ) × (n : ℕ) × (due.now ≡ Do (asks.OfStream id (asked.Payload n p.now)))) }
{
    match due {
        Due::Do(act) => sent_by_act(act),
        _ => None,
    }
}

/// The note of a payload that was given to the port of tunnel `id`, which takes at most `limit` bytes.
fn put_note(id: u32, n: u64, payload: Bytes, outcome: PortPut, limit: u32) -> Note
    ensures { PutsNote id n payload outcome limit result }
{
    let from = From::Tunnel(id);
    if payload.as_slice().len() > limit as usize {
        return Note::Dropped {
            from,
            n,
            cause: Cause::TooLong,
        };
    }
    match outcome {
        PortPut::Sent => Note::Sent {
            from,
            n,
            packet: payload,
        },
        _ => Note::Dropped {
            from,
            n,
            cause: Cause::Port,
        },
    }
}

impl Conn {
    /// The number of a stream's live tunnel.
    pub(crate) fn live(&self, stream: u32) -> Option<u32>
        ensures { MatchOption result (find_on self.now stream ≡ None) (λ id. (t : machine.Tunnel) × (find_on self.now stream ≡ Some t) × (t.id ≡ id)) }
    {
        match self.on(stream) {
            None => None,
            Some(tunnel) => Some(tunnel.id),
        }
    }

    /// Takes what is due first, where no act stands in front of it.
    pub(crate) fn take(&mut self) -> Option<Due>
        ensures keeps { self.new ≡ record self.old { due = self.new.due } }
        ensures took { MatchOption result (self.old.first ≡ None → self.old.due ≡ []) (λ d. (self.old.first ≡ None) × (self.old.due ≡ d ∷ self.new.due)) }
    {
        if self.first.is_some() {
            return None;
        }
        self.due.pop()
    }

    /// Nothing more is asked of a stream. Marks stay: its DATA is consumed in its turn.
    pub(crate) fn forget(&mut self, stream: u32)
        ensures { (s : machine.Conn) → self.old.first ≡ None → Stands self.old s → Stands self.new (without stream s) }
    {
        self.due.forget(stream);
        if let Some(front) = &mut self.front {
            front.forget(stream);
        }
    }

    /// The note of an answer that was none.
    pub(crate) fn none(&self) -> Note {
        Note::Finished { conn: self.number }
    }

    /// A bind of a port was tried.
    pub fn bound(&mut self, done: bool) -> Result<Note, NoMemory>
        ensures answers { MayDo self.old self.new (Bound done) result }
        ensures spent { Refuses self.old (is_ok result) }
    {
        match self.try_bound(done) {
            Ok(note) => Ok(note),
            Err(refused) => {
                self.starve();
                Err(refused)
            }
        }
    }

    fn try_bound(&mut self, done: bool) -> Result<Note, NoMemory>
        ensures answers { Tries self.old self.new (Bound done) result }
        ensures spent { Refuses self.old (is_ok result) }
    {
        let Some(due) = self.take() else {
            return Err(NoMemory);
        };
        let Some(binding) = bind_of(&due) else {
            return Err(NoMemory);
        };
        let note = self.bind(binding, done)?;
        self.settle();
        Ok(note)
    }

    /// A bind of the port of a request was tried.
    fn bind(&mut self, binding: Binding, done: bool) -> Result<Note, NoMemory>
        ensures { self.old.first ≡ None → DoesAct self.old self.new (asks.Bind binding.stream binding.goal) (Bound done) result }
    {
        if done {
            return self.ported(binding.stream, binding.goal);
        }
        self.refuse(binding.stream, 502, 0)
    }

    /// The port of a request is bound: its tunnel is to open, and there is room for it and for what will wait in it.
    fn ported(&mut self, stream: u32, goal: Goal) -> Result<Note, NoMemory>
        ensures { self.old.first ≡ None → MayStep self.old self.new (λ s. (Note.Ported s.number stream, before (asks.Open stream goal) s)) result }
    {
        self.make_room()?;
        self.first = Some(First::Open { stream, goal });
        Ok(Note::Ported {
            conn: self.number,
            stream,
        })
    }

    /// A request is refused. Over HTTP/1.1 the connection ends with it.
    pub(crate) fn refuse(&mut self, stream: u32, status: u16, rule: u32) -> Result<Note, NoMemory>
        ensures { self.old.first ≡ None → MayStep self.old self.new (λ s. refused s stream status rule) result }
    {
        let Some(front) = &mut self.front else {
            return Err(NoMemory);
        };
        let end = front.refusal_end();
        front.refuse(self.alloc, stream, status)?;
        self.ending = end;
        self.forget(stream);
        Ok(Note::Refused {
            conn: self.number,
            stream,
            status,
            rule,
        })
    }

    /// It says what needs nothing of the outside.
    pub fn say(&mut self) -> Result<Note, NoMemory>
        ensures answers { MayDo self.old self.new Said result }
        ensures spent { Refuses self.old (is_ok result) }
    {
        match self.try_say() {
            Ok(note) => Ok(note),
            Err(refused) => {
                self.starve();
                Err(refused)
            }
        }
    }

    fn try_say(&mut self) -> Result<Note, NoMemory>
        ensures answers { Tries self.old self.new Said result }
        ensures spent { Refuses self.old (is_ok result) }
    {
        let Some(due) = self.take() else {
            return Err(NoMemory);
        };
        let Some(saying) = saying_of(&due) else {
            return Err(NoMemory);
        };
        let note = self.say_so(saying)?;
        self.settle();
        Ok(note)
    }

    /// What is due and needs nothing of the outside is done.
    fn say_so(&mut self, saying: Saying) -> Result<Note, NoMemory>
        ensures { self.old.first ≡ None → DoesAct self.old self.new (saying_act saying) Said result }
    {
        match saying {
            Saying::Refuse {
                stream,
                status,
                rule,
            } => self.refuse(stream, status, rule),
            Saying::Reset { stream, code } => Ok(Note::Reset {
                conn: self.number,
                stream,
                code,
            }),
            Saying::Drop { stream, n, cause } => self.dropped(stream, n, cause),
        }
    }

    /// A payload of a stream's live tunnel is dropped.
    fn dropped(&self, stream: u32, n: u64, cause: Cause) -> Result<Note, NoMemory>
        ensures { IfOk result (λ note. (t : machine.Tunnel) × (find_on self.now stream ≡ Some t) × (note ≡ Note.Dropped (From.Tunnel t.id) n cause)) }
    {
        match self.live(stream) {
            None => Err(NoMemory),
            Some(id) => Ok(Note::Dropped {
                from: From::Tunnel(id),
                n,
                cause,
            }),
        }
    }

    /// The payload that is due first, where no act stands in front of it.
    fn sending(&self) -> Option<&Bytes>
        ensures { MatchOption result ((id n : ℕ) (payload : List ℕ) (rest : List Due) → self.now.first ≡ None → self.now.due ≢ Do (asks.OfStream id (asked.Payload n payload)) ∷ rest) (λ p. (id : ℕ) × (n : ℕ) × (rest : List Due) × (self.now.due ≡ Do (asks.OfStream id (asked.Payload n p.now)) ∷ rest)) }
    {
        if self.first.is_some() {
            return None;
        }
        match self.due.first() {
            None => None,
            Some(due) => sent_by(due),
        }
    }

    /// The payload that is to go to its tunnel's port, where it wants that, and else no bytes.
    pub fn payload(&self) -> &[u8]
        ensures { IsPayload self.now result.now }
    {
        match self.sending() {
            None => &[],
            Some(payload) => payload.as_slice(),
        }
    }

    /// Its payload was given to the port, which takes at most `limit` bytes. A longer one isn't sent, and is dropped.
    pub fn sent(&mut self, outcome: PortPut, limit: u32) -> Note
        ensures { Does self.old self.new (Put outcome limit) result }
    {
        let Some(due) = self.take() else {
            return self.none();
        };
        let Some(sending) = payload_of(due) else {
            return self.none();
        };
        let Sending { stream, n, payload } = sending;
        let Some(id) = self.live(stream) else {
            return self.none();
        };
        let note = put_note(id, n, payload, outcome, limit);
        self.settle();
        note
    }
}
