//! The reader of heads: any cutting of a connection's bytes into pieces.
ghost use Rattle.std.specs.Prelude.{◌≡◌, ◌≢◌, ◌≤◌, ◌-◌, nat_lt, take, ◌++◌, ℕ, List, length, [], IfOk, OnErr, IsErr, Ok};
ghost use Rattle.mq_head.specs.Heads.{head_limit, IsMore};
ghost use Rattle.mq_head.specs.Steps.{IsStep};
ghost use Rattle.mq_head.specs.Reader.{IsHeadOf, IsSpent, IsBegun, StandsFor, Follows};

use crate::front::{MAX_HEAD, decide};
use crate::place::Place;
use crate::step::HeadStep;
use mq_wire::NoMemory;
use std::alloc::Global;
use std::mem::replace;

/// The bytes so far, by which nothing is decided, and where they end.
#[derive(Drop)]
struct Waiting {
    kept: Vec<u8>,
    place: Place,
}

/// What a reader was fed.
#[derive(Drop)]
enum State {
    /// Nothing yet.
    Fresh,
    /// Bytes that wait for more.
    Begun(Waiting),
    /// The reader was refused memory, or gave its last answer.
    Spent,
}

/// The bytes of a piece that can belong to a head of which so many came before.
fn within_limit(piece: &[u8], before: usize) -> &[u8]
    ensures front { result.now ≡ take (head_limit - before) piece.now }
    ensures short { length result.now ≤ head_limit }
{
    let (front, _) = piece.split_at(piece.len().min(MAX_HEAD.saturating_sub(before)));
    front
}

/// Whether the piece leaves the bytes, so many before it, fewer than the most that a head may have.
fn is_within(piece: &[u8], before: usize) -> bool
    ensures { result ≡ nat_lt (length piece.now) (head_limit - before) }
{
    piece.len() < MAX_HEAD.saturating_sub(before)
}

/// What a reader goes on with that waits for more behind these bytes.
fn wait_behind(alloc: Global, kept: Vec<u8>) -> Result<State, NoMemory>
    ensures { IfOk result (λ state. IsMore kept.items → StandsFor state kept.items) }
{
    let place = Place::of(alloc, kept.as_slice())?;
    Ok(State::Begun(Waiting { kept, place }))
}

/// What a reader goes on with, after this answer to these bytes.
fn state_after(alloc: Global, step: &HeadStep, kept: Vec<u8>) -> Result<State, NoMemory>
    ensures more { IfOk result (λ state. step.now ≡ HeadStep.More → IsMore kept.items → StandsFor state kept.items) }
    ensures last { IfOk result (λ state. step.now ≢ HeadStep.More → state ≡ State.Spent) }
{
    match step {
        HeadStep::More => wait_behind(alloc, kept),
        HeadStep::Upgrade { .. } => Ok(State::Spent),
        HeadStep::Refuse { .. } => Ok(State::Spent),
    }
}

/// The answer to a piece that follows these bytes, and what the reader goes on with. All bytes are parsed.
fn step_behind(
    alloc: Global,
    mut kept: Vec<u8>,
    piece: &[u8],
) -> Result<(HeadStep, State), NoMemory>
    ensures step { IfOk result (λ r. IsBegun kept.items → Follows kept.items piece.now r.0 r.1) }
    ensures last { IfOk result (λ r. r.0 ≢ HeadStep.More → r.1 ≡ State.Spent) }
{
    let before = kept.as_slice().len();
    kept.extend_from_slice(within_limit(piece, before))?;
    let step = decide(alloc, within_limit(kept.as_slice(), 0), before)?;
    let state = state_after(alloc, &step, kept)?;
    Ok((step, state))
}

/// The answer to a piece that follows bytes by which nothing is decided. They are parsed again only where the piece may
/// decide something, or the limit is reached.
fn step_waiting(
    alloc: Global,
    waiting: Waiting,
    piece: &[u8],
) -> Result<(HeadStep, State), NoMemory>
    ensures step { IfOk result (λ r. (bytes : List ℕ) → StandsFor (State.Begun waiting) bytes → Follows bytes piece.now r.0 r.1) }
    ensures last { IfOk result (λ r. r.0 ≢ HeadStep.More → r.1 ≡ State.Spent) }
{
    let Waiting { mut kept, place } = waiting;
    if is_within(piece, kept.as_slice().len())
        && let Some(place) = place.behind(alloc, piece)?
    {
        kept.extend_from_slice(piece)?;
        return Ok((HeadStep::More, State::Begun(Waiting { kept, place })));
    }
    step_behind(alloc, kept, piece)
}

/// Reads the head of a connection, in pieces of any length. It keeps at most 8,191 bytes.
#[derive(Drop)]
pub struct HeadReader {
    state: State,
}

impl HeadReader {
    /// A reader at the first byte of a connection.
    pub fn new() -> HeadReader
        ensures { IsHeadOf result [] }
    {
        HeadReader {
            state: State::Fresh,
        }
    }

    /// The answer to one more piece. `Err` is want of memory; after it, as after an answer other than `More`, the
    /// reader is spent, and each later call answers `Err`.
    pub fn feed(&mut self, alloc: Global, piece: &[u8]) -> Result<HeadStep, NoMemory>
        ensures step { (bytes : List ℕ) → IsHeadOf self.old bytes → IfOk result (IsStep bytes piece.now) }
        ensures more { (bytes : List ℕ) → IsHeadOf self.old bytes → result ≡ Ok HeadStep.More → IsHeadOf self.new (bytes ++ piece.now) }
        ensures last { IfOk result (λ step. step ≢ HeadStep.More → IsSpent self.new) }
        ensures err { OnErr result (IsSpent self.new) }
        ensures spent { IsSpent self.old → IsErr result }
    {
        let (step, state) = match replace(&mut self.state, State::Spent) {
            State::Fresh => step_behind(alloc, Vec::new(alloc), piece)?,
            State::Begun(waiting) => step_waiting(alloc, waiting, piece)?,
            State::Spent => return Err(NoMemory),
        };
        self.state = state;
        Ok(step)
    }
}
