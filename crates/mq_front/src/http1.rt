//! The front end of a connection of HTTP/1.1, behind its head.
ghost use Rattle.std.specs.Prelude.{◌≡◌, ◌==◌, ◌≤◌, ◌++◌, ◌∷◌, [], not, ℕ, List, drop, filter, length, IfOk, OnOk};
ghost use Rattle.mq_machine.specs.declared.act.Act.TheVariants as asks;
ghost use Rattle.mq_machine.specs.declared.act.Due.TheVariants.{Do};
ghost use Rattle.mq_machine.specs.State.{Stream};
ghost use Rattle.mq_machine.specs.Done.{http1_end};
ghost use Rattle.mq_machine.specs.Reading.{goal_act};
ghost use Rattle.mq_front.specs.Fronts.{IsHttp1};
ghost use Rattle.mq_front.specs.Parts.{ReadsFirst, AnswersHead, ReadsData, EndsData};

use crate::data::DataStream;
use crate::dues::Dues;
use crate::goal::goal_act;
use crate::judge::{Verdict, judge_path};
use crate::owed::Owed;
use mq_head::HeadStep;
use mq_machine::{Act, Due, Setup};
use mq_talk::{End, Goal, Why};
use mq_wire::NoMemory;
use std::alloc::Global;

/// Its data stream, unless its request was refused or its tunnel closed, and what it owes.
#[derive(Drop)]
pub struct Http1 {
    pub stream: Option<DataStream>,
    pub owed: Owed,
}

/// Why a connection of HTTP/1.1 ends with its tunnel.
pub fn end_of(why: Why) -> Option<End>
    ensures { result ≡ http1_end why }
{
    match why {
        Why::End => Some(End::Done),
        Why::Truncated => Some(End::Truncated),
        Why::Conn => None,
        _ => Some(End::Tunnel),
    }
}

/// The request is refused, and has no data stream.
fn refuse(alloc: Global, status: u16, rule: u32, due: &mut Dues) -> Result<Http1, NoMemory>
    ensures { IfOk result (λ one. (due.new ≡ due.old ++ Do (asks.Refuse 0 status rule) ∷ []) × IsHttp1 one [] []) }
{
    due.push(Due::Do(Act::Refuse {
        stream: 0,
        status,
        rule,
    }))?;
    Ok(Http1 {
        stream: None,
        owed: Owed::new(alloc),
    })
}

/// The request leads there: its port is to be bound, or its tunnel is to open. Behind its head its data stream begins.
fn lead(
    alloc: Global,
    mtu: u32,
    goal: Goal,
    bytes: &[u8],
    due: &mut Dues,
) -> Result<Http1, NoMemory>
    ensures { IfOk result (λ one. ReadsFirst mtu goal bytes.now (due.old ++ Do (goal_act 0 goal) ∷ []) due.new one) }
{
    due.push(Due::Do(goal_act(0, goal)))?;
    let mut one = Http1 {
        stream: Some(DataStream::new(0, goal)),
        owed: Owed::new(alloc),
    };
    one.read(alloc, mtu, bytes, due)?;
    Ok(one)
}

/// What the answer to the bytes of a head leads to: a request with its data behind, or one that is refused. Where they wait for
/// more bytes, nothing.
#[inline(never)]
pub fn behind_head(
    alloc: Global,
    setup: &Setup,
    step: HeadStep,
    bytes: &[u8],
    due: &mut Dues,
) -> Result<Option<Http1>, NoMemory>
    ensures { IfOk result (λ one. AnswersHead setup.now step bytes.now due.old due.new one) }
{
    match step {
        HeadStep::More => Ok(None),
        HeadStep::Refuse { status } => {
            let one = refuse(alloc, status, 0, due)?;
            Ok(Some(one))
        }
        HeadStep::Upgrade { kind, path, used } => {
            match judge_path(alloc, setup, kind, path.as_slice())? {
                Verdict::Refused { status, rule } => {
                    let one = refuse(alloc, status, rule, due)?;
                    Ok(Some(one))
                }
                Verdict::Leads(goal) => {
                    let (_, rest) = bytes.split_at((used as usize).min(bytes.len()));
                    let one = lead(alloc, setup.mtu, goal, rest, due)?;
                    Ok(Some(one))
                }
            }
        }
    }
}

impl Http1 {
    /// Reads more bytes of the data stream, and puts what they ask for at the back of the list. A packet has at most
    /// `mtu` bytes.
    pub fn read(
        &mut self,
        alloc: Global,
        mtu: u32,
        bytes: &[u8],
        due: &mut Dues,
    ) -> Result<(), NoMemory>
        ensures { OnOk result (ReadsData mtu self.old bytes.now due.old due.new self.new) }
    {
        if bytes.is_empty() {
            return Ok(());
        }
        match &mut self.stream {
            Some(stream) => stream.take(alloc, mtu, bytes, false, due),
            None => Ok(()),
        }
    }

    /// Why the end of the link closes the tunnel: inside a capsule, or between two.
    pub fn end(&self) -> Why
        ensures { EndsData self.now result }
    {
        match &self.stream {
            Some(stream) => stream.end(),
            None => Why::End,
        }
    }

    /// So many bytes were given to the link.
    pub fn wrote(&mut self, count: u32)
        ensures { (streams : List Stream) (owed : List ℕ) → IsHttp1 self.old streams owed → count ≤ length owed → IsHttp1 self.new streams (drop count owed) }
    {
        let owed = self.owed.as_slice().len();
        self.owed.give(owed.min(count as usize));
    }

    /// Nothing more is asked for by this data stream.
    pub fn forget(&mut self, stream: u32)
        ensures { (streams : List Stream) (owed : List ℕ) → IsHttp1 self.old streams owed → IsHttp1 self.new (filter (λ (s : Stream). not (s.id == stream)) streams) owed }
    {
        if stream == 0 {
            self.stream = None;
        }
    }
}
