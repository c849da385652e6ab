//! What a connection wants, and what it can do beside that.
ghost use Rattle.std.specs.Prelude.{◌≡◌, ◌≤◌, ◌∷◌, Some, None, not, ℕ, List, length, MatchBool};
ghost use Rattle.mq_iptun.specs.Acts.{MayAct, MayAssign, MayAdvertise};
ghost use Rattle.mq_machine.specs.State as machine;
ghost use Rattle.mq_machine.specs.Steps as steps;
ghost use Rattle.mq_machine.specs.Steps.{is_nothing};
ghost use Rattle.mq_machine.specs.Lawful.{IsUdp};
ghost use Rattle.mq_machine.specs.Want as machine_want;
ghost use Rattle.mq_machine.specs.Want.{want_of, act_want, due_want, over_want, stream_want, tunnel_want};
ghost use Rattle.mq_machine.specs.declared.act.StreamAct.TheVariants as asks;
ghost use Rattle.mq_machine.specs.declared.act.Due.{Due};
ghost use Rattle.mq_machine.specs.declared.act.Due.TheVariants.{Do};
ghost use Rattle.mq_conn.specs.Conns.{IsConn, Past, find_on, state, tunnel_is};
ghost use Rattle.mq_conn.specs.Frames.{Gives};
ghost use Rattle.mq_conn.specs.Wants.{SendsTo, WantIs, Wants, WantsOf};
ghost use Rattle.mq_talk.specs.declared.note.Why.{Why};

use crate::conn::{Conn, First, Tunnel, gives_up};
use crate::want::Want;
use mq_addr::{Asked, Range};
use mq_machine::{Act, Due, StreamAct};
use mq_talk::{Call, End, Goal, Place};
use mq_wire::{NoMemory, Seq};
use std::alloc::Global;

/// Bytes owed above which nothing is read or framed.
const MOST_OWED: usize = 65_535;

/// The most control values that may wait in a tunnel.
const MOST_VALUES: usize = 16;

impl Conn {
    /// The bytes that are owed to the link.
    pub fn owed(&self) -> &[u8]
        ensures { (s : machine.Conn) → IsConn self.now s → result.now ≡ machine.owed s }
    {
        match &self.front {
            Some(front) => front.owed(),
            None => &[],
        }
    }

    /// So many of them were given to the link.
    pub fn wrote(&mut self, count: u32)
        ensures { (s : machine.Conn) → IsConn self.old s → count ≤ length (machine.owed s) → IsConn self.new (steps.wrote s count).1 }
    {
        self.give(count);
        self.settle();
    }

    fn give(&mut self, count: u32)
        ensures { Gives self.old self.new count }
    {
        if let Some(front) = &mut self.front {
            front.wrote(count);
        }
    }

    /// Whether it wants something of the outside.
    pub fn wants(&self) -> bool
        ensures { (s : machine.Conn) → IsConn self.now s → result ≡ not (is_nothing (want_of s)) }
    {
        match self.ending {
            None => self.first.is_some() || !self.due.is_empty(),
            Some(why) => self.wants_ending(why),
        }
    }

    /// Whether an ending connection without a tunnel is over: nothing is owed, or that is given up.
    fn is_over(&self, why: End) -> bool
        ensures { (s : machine.Conn) → IsConn self.now s → MatchBool result (over_want why (machine.owed s) ≡ machine_want.Over why) (over_want why (machine.owed s) ≡ machine_want.Nothing) }
    {
        self.owed().is_empty() || gives_up(Some(why))
    }

    /// Whether an ending connection wants something.
    #[inline(never)]
    fn wants_ending(&self, why: End) -> bool
        ensures { (s : machine.Conn) → IsConn self.now s → self.now.ending ≡ Some why → result ≡ not (is_nothing (want_of s)) }
    {
        !self.tunnels.is_empty() || self.is_over(why)
    }

    /// The tunnel of which it wants to send a payload to the port, if that is what it wants: what `next` tells as `SendUdp`, and
    /// what most connections want that want something.
    pub fn sends(&self) -> Option<u32>
        ensures { (s : machine.Conn) → IsConn self.now s → SendsTo result (want_of s) }
    {
        if self.ending.is_some() || self.first.is_some() {
            return None;
        }
        match self.due.first() {
            None => None,
            Some(due) => self.sends_due(due),
        }
    }

    fn sends_due(&self, due: &Due) -> Option<u32>
        ensures { (p : Past) (rest : List Due) → SendsTo result (due_want (state self.now p) (due.now ∷ rest)) }
    {
        match due {
            Due::Do(act) => self.sends_act(act),
            _ => None,
        }
    }

    fn sends_act(&self, act: &Act) -> Option<u32>
        ensures { (p : Past) → SendsTo result (act_want (state self.now p) act.now) }
    {
        match act {
            Act::OfStream { stream, act } => self.sends_stream(*stream, act),
            _ => None,
        }
    }

    fn sends_stream(&self, stream: u32, act: &StreamAct) -> Option<u32>
        ensures { SendsTo result (tunnel_want (find_on self.now stream) act.now) }
    {
        match act {
            StreamAct::Payload { .. } => self.live(stream),
            _ => None,
        }
    }

    /// It wants nothing, little is owed, and it isn't ending.
    pub(crate) fn can_go_on(&self) -> bool
        ensures { (s : machine.Conn) → IsConn self.now s → result ≡ steps.can_go_on s }
    {
        if self.wants() {
            return false;
        }
        if self.ending.is_some() {
            return false;
        }
        self.owed().len() <= MOST_OWED
    }

    /// Whether it takes bytes of its client now.
    pub fn can_read(&self) -> bool
        ensures { (s : machine.Conn) → IsConn self.now s → result ≡ steps.can_read s }
    {
        self.can_go_on() && !self.finished
    }

    /// What it wants next. That takes memory where the book is asked for addresses or ways alone, since their list is handed
    /// over.
    pub fn next(&self) -> Result<Want, NoMemory>
        ensures { Wants self.now result }
    {
        match self.ending {
            Some(why) => Ok(self.want_ending(why)),
            None => self.want_due(),
        }
    }

    /// An ending connection closes its tunnels, and is then over once nothing is owed.
    #[inline(never)]
    fn want_ending(&self, why: End) -> Want
        ensures { (s : machine.Conn) → IsConn self.now s → self.now.ending ≡ Some why → WantIs self.now.pump result (want_of s) }
    {
        match self.tunnels.first() {
            Some(tunnel) => Want::Ask(Call::Close { tunnel: tunnel.id }),
            None => {
                if self.is_over(why) {
                    return Want::Ended(why);
                }
                Want::Nothing
            }
        }
    }

    fn want_due(&self) -> Result<Want, NoMemory>
        ensures { self.now.ending ≡ None → Wants self.now result }
    {
        if let Some(first) = &self.first {
            return Ok(self.want_first(first));
        }
        match self.due.first() {
            None => Ok(Want::Nothing),
            Some(due) => self.want_of_due(due),
        }
    }

    /// The opening of a tunnel.
    fn want_open(&self, stream: u32, goal: Goal) -> Want
        ensures { result ≡ Want.Ask (Call.Open self.now.number stream self.now.actor goal) }
    {
        Want::Ask(Call::Open {
            conn: self.number,
            stream,
            actor: self.actor,
            goal,
        })
    }

    fn want_first(&self, first: &First) -> Want
        ensures { self.now.ending ≡ None → self.now.first ≡ Some first.now → (s : machine.Conn) → IsConn self.now s → WantIs self.now.pump result (want_of s) }
    {
        match first {
            First::Open { stream, goal } => self.want_open(*stream, *goal),
            First::Close { stream, .. } => self.want_close(*stream),
            First::Push { stream, to, .. } => self.want_push(*stream, *to),
        }
    }

    /// The close of a stream's live tunnel.
    fn want_close(&self, stream: u32) -> Want
        ensures { (why : Why) → WantIs self.now.pump result (tunnel_want (find_on self.now stream) (asks.Close why)) }
    {
        match self.on(stream) {
            None => Want::Nothing,
            Some(tunnel) => Want::Ask(Call::Close { tunnel: tunnel.id }),
        }
    }

    /// The push of a packet of a stream's live tunnel.
    fn want_push(&self, stream: u32, to: Place) -> Want
        ensures { (n : ℕ) (packet : List ℕ) → WantIs self.now.pump result (tunnel_want (find_on self.now stream) (asks.Push n to packet)) }
    {
        match self.on(stream) {
            None => Want::Nothing,
            Some(_) => Want::Push {
                to: to.inbox(self.pump),
            },
        }
    }

    fn want_of_due(&self, due: &Due) -> Result<Want, NoMemory>
        ensures { self.now.ending ≡ None → self.now.first ≡ None → (rest : List Due) → self.now.due ≡ due.now ∷ rest → Wants self.now result }
    {
        match due {
            Due::Do(act) => self.want_of_act(act),
            _ => Ok(Want::Nothing),
        }
    }

    fn want_of_act(&self, act: &Act) -> Result<Want, NoMemory>
        ensures { self.now.ending ≡ None → self.now.first ≡ None → (rest : List Due) → self.now.due ≡ Do act.now ∷ rest → Wants self.now result }
    {
        match act {
            Act::Bind { goal, .. } => Ok(want_bind(*goal)),
            Act::Open { stream, goal } => Ok(self.want_open(*stream, *goal)),
            Act::Refuse { .. } | Act::Reset { .. } => Ok(Want::Say),
            Act::OfStream { stream, act } => self.want_of_stream(*stream, act),
        }
    }

    /// What is asked of a stream's live tunnel.
    fn want_of_stream(&self, stream: u32, act: &StreamAct) -> Result<Want, NoMemory>
        ensures { MayAct act.now → WantsOf self.now.pump (tunnel_want (find_on self.now stream) act.now) result }
    {
        match self.on(stream) {
            None => Ok(Want::Nothing),
            Some(tunnel) => want_of(self.alloc, tunnel, act),
        }
    }
}

/// What is asked of this tunnel: a push isn't, since it comes of a verdict alone and stands in front.
fn want_of(alloc: Global, tunnel: &Tunnel, act: &StreamAct) -> Result<Want, NoMemory>
    ensures { (pump : ℕ) → MayAct act.now → WantsOf pump (stream_want (tunnel_is tunnel.now) act.now) result }
{
    let id = tunnel.id;
    match act {
        StreamAct::Payload { n, .. } => Ok(Want::SendUdp { tunnel: id, n: *n }),
        StreamAct::Packet { n, flow, .. } => Ok(Want::Judge {
            tunnel: id,
            n: *n,
            flow: *flow,
        }),
        StreamAct::Push { .. } => Ok(Want::Nothing),
        StreamAct::Drop { .. } => Ok(Want::Say),
        StreamAct::Assign { asked } => want_assign(alloc, tunnel, asked.as_slice()),
        StreamAct::Advertise { ranges } => want_advertise(alloc, id, ranges.as_slice()),
        StreamAct::Close { .. } => Ok(Want::Ask(Call::Close { tunnel: id })),
    }
}

/// The book is asked for these addresses. Where too many control values wait, the tunnel is to close instead.
#[inline(never)]
fn want_assign(alloc: Global, tunnel: &Tunnel, asked: &[Asked]) -> Result<Want, NoMemory>
    ensures { (pump : ℕ) → MayAssign asked.now → WantsOf pump (stream_want (tunnel_is tunnel.now) (asks.Assign asked.now)) result }
{
    let id = tunnel.id;
    if tunnel.waiting.values() >= MOST_VALUES {
        return Ok(Want::Ask(Call::Close { tunnel: id }));
    }
    let list = Vec::from_slice(alloc, asked)?;
    Ok(Want::Ask(Call::Assign {
        tunnel: id,
        asked: Seq::from_vec(list),
    }))
}

/// The book is asked whether a tunnel may lead to these ranges.
#[inline(never)]
fn want_advertise(alloc: Global, tunnel: u32, ranges: &[Range]) -> Result<Want, NoMemory>
    ensures { (pump : ℕ) → MayAdvertise ranges.now → WantsOf pump (machine_want.Ask (Call.Advertise tunnel ranges.now)) result }
{
    let list = Vec::from_slice(alloc, ranges)?;
    Ok(Want::Ask(Call::Advertise {
        tunnel,
        ranges: Seq::from_vec(list),
    }))
}

/// A UDP port towards a goal.
fn want_bind(goal: Goal) -> Want
    ensures { IsUdp goal → (pump id : ℕ) → WantIs pump result (machine_want.Bind id goal) }
{
    match goal {
        Goal::Udp { addr, port } => Want::Bind { addr, port },
        Goal::Ip { .. } => Want::Nothing,
    }
}
