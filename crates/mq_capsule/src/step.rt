//! One step of reading: bytes of a piece, until a capsule is whole or can't be one, or the piece ends.
ghost use Rattle.std.specs.Prelude.{◌≡◌, ◌+◌, ◌<◌, ◌≤◌, Bool, true, false, None, length, take, drop, ℕ, List, IfOk, IfSome};
ghost use Rattle.mq_capsule.specs.Fronts.{front_of};
ghost use Rattle.mq_capsule.specs.Steps.{BeginsWhole, IsStep, LeadsTo, LeadsFrom, LeadsFromKept, LeadsFromSkipped, StepTakesByte, GoesFar, Holds};
ghost use Rattle.mq_capsule.specs.Steps.{StaysEnded, all_taken, kept_item, skipped_item};

use super::front::{Front, Kept, Plan, Skipped};
use super::item::Item;
use super::state::State;
use arrayvec::ArrayVec;
use mq_wire::{Bytes, NoMemory};
use std::alloc::Global;

/// What a step gave.
#[derive(Drop)]
pub struct Step {
    /// What is kept now.
    pub state: State,
    /// What the capsule says that became whole, or that can't.
    pub told: Option<Item>,
    /// How many bytes of the piece were taken.
    pub used: usize,
}

/// A capsule that is kept and is whole in one piece, whose first byte is that of the piece.
#[derive(Clone, Copy)]
pub struct WholeCapsule {
    pub what: Kept,
    /// How many bytes its front has.
    pub front: usize,
    /// How many are kept behind that.
    pub length: usize,
}

/// The capsule that a piece begins with, where it is kept and is whole there.
pub fn whole_in(control: bool, piece: &[u8]) -> Option<WholeCapsule>
    ensures { IfSome result (λ whole. BeginsWhole control piece.now whole) }
{
    let front = Front::of(control, piece)?;
    let Plan::Keep { what, length } = front.plan else {
        return None;
    };
    if length > (piece.len() - front.used) as u64 {
        return None;
    }
    Some(WholeCapsule {
        what,
        front: front.used,
        length: length as usize,
    })
}

/// What that capsule says.
pub fn take_whole(alloc: Global, whole: WholeCapsule, piece: &[u8]) -> Result<Item, NoMemory>
    requires { whole.front + whole.length ≤ length piece.now }
    ensures { IfOk result (λ item. item ≡ kept_item whole.what (take whole.length (drop whole.front piece.now))) }
{
    let (_, behind) = piece.split_at(whole.front);
    let (value, _) = behind.split_at(whole.length);
    let bytes = Vec::from_slice(alloc, value)?;
    Ok(whole.what.item(bytes))
}

/// A step from any state.
pub fn advance(alloc: Global, control: bool, state: State, piece: &[u8]) -> Result<Step, NoMemory>
    ensures within { IfOk result (λ s. s.used ≤ length piece.now) }
    ensures some { IfOk result (λ s. StepTakesByte control state piece.now s.used) }
    ensures far { IfOk result (λ s. (rest : List ℕ) → Holds control state rest → GoesFar piece.now s) }
    ensures gives { IfOk result (λ s. LeadsTo control state piece.now s) }
    ensures ended { IfOk result (λ s. StaysEnded state piece.now s) }
{
    match state {
        State::Front { bytes } => read_front(alloc, control, bytes, piece),
        State::Keep {
            what,
            bytes,
            missing,
        } => read_kept(what, bytes, missing, piece),
        State::Skip { what, missing } => Ok(read_past(what, missing, piece)),
        State::Ended => Ok(Step {
            state: State::Ended,
            told: None,
            used: piece.len(),
        }),
        State::Spent => Err(NoMemory),
    }
}

/// Takes the whole piece into the state where it stands, if more bytes are missing than the piece has, and tells whether it
/// did. A stream that comes by the byte would pay for a move of the state at each.
pub fn take_in_place(state: &mut State, piece: &[u8]) -> Result<bool, NoMemory>
    ensures takes { IfOk result (λ taken. taken ≡ true → (control : Bool) → LeadsTo control state.old piece.now (all_taken state.new piece.now)) }
    ensures open { IfOk result (λ taken. taken ≡ true → StaysEnded state.old piece.now (all_taken state.new piece.now)) }
    ensures leaves { IfOk result (λ taken. taken ≡ false → state.new ≡ state.old) }
{
    match state {
        State::Keep { bytes, missing, .. } => {
            let more = piece.len() as u64;
            if more >= *missing {
                return Ok(false);
            }
            bytes.extend_from_slice(piece)?;
            *missing -= more;
            Ok(true)
        }
        State::Skip { missing, .. } => {
            let more = piece.len() as u64;
            if more >= *missing {
                return Ok(false);
            }
            *missing -= more;
            Ok(true)
        }
        State::Front { .. } | State::Ended | State::Spent => Ok(false),
    }
}

/// Takes bytes of a front, and where it is whole those behind it.
fn read_front(
    alloc: Global,
    control: bool,
    front: ArrayVec<u8, 24>,
    piece: &[u8],
) -> Result<Step, NoMemory>
    ensures within { IfOk result (λ s. s.used ≤ length piece.now) }
    ensures some { IfOk result (λ s. front_of control front.items ≡ None → 0 < length piece.now → 0 < s.used) }
    ensures far { IfOk result (λ s. GoesFar piece.now s) }
    ensures gives { IfOk result (λ s.
        front_of control front.items ≡ None → IsStep control front.items piece.now s) }
{
    let mut bytes = front;
    let begun = bytes.len();
    let taken = bytes.remaining_capacity().min(piece.len());
    let (more, _) = piece.split_at(taken);
    let Ok(()) = bytes.try_extend_from_slice(more) else {
        unreachable!();
    };
    match Front::of(control, bytes.as_slice()) {
        None => Ok(Step {
            state: State::Front { bytes },
            told: None,
            used: taken,
        }),
        Some(front) => {
            let lacking = front.used.saturating_sub(begun);
            let (_, behind) = piece.split_at(lacking);
            let Step { state, told, used } = begin(alloc, front.plan, behind)?;
            Ok(Step {
                state,
                told,
                used: lacking + used,
            })
        }
    }
}

/// Takes the first bytes behind a front.
fn begin(alloc: Global, plan: Plan, piece: &[u8]) -> Result<Step, NoMemory>
    ensures within { IfOk result (λ s. s.used ≤ length piece.now) }
    ensures far { IfOk result (λ s. GoesFar piece.now s) }
    ensures gives { IfOk result (λ s. LeadsFrom plan piece.now s) }
{
    match plan {
        Plan::Keep { what, length } => read_kept(what, Vec::new(alloc), length, piece),
        Plan::Skip { what, length } => Ok(read_past(what, length, piece)),
        Plan::Stop { fault } => Ok(Step {
            state: State::Ended,
            told: Some(Item::Bad { fault }),
            used: 0,
        }),
    }
}

/// Takes further bytes of a capsule that is kept.
fn read_kept(what: Kept, bytes: Vec<u8>, missing: u64, piece: &[u8]) -> Result<Step, NoMemory>
    ensures within { IfOk result (λ s. s.used ≤ length piece.now) }
    ensures some { IfOk result (λ s. 0 < missing → 0 < length piece.now → 0 < s.used) }
    ensures far { IfOk result (λ s. GoesFar piece.now s) }
    ensures gives { IfOk result (λ s. LeadsFromKept what bytes.items missing piece.now s) }
{
    let mut bytes = bytes;
    if (piece.len() as u64) < missing {
        bytes.extend_from_slice(piece)?;
        return Ok(Step {
            state: State::Keep {
                what,
                bytes,
                missing: missing - piece.len() as u64,
            },
            told: None,
            used: piece.len(),
        });
    }
    let used = missing as usize;
    let (end, _) = piece.split_at(used);
    bytes.extend_from_slice(end)?;
    Ok(Step {
        state: State::Front {
            bytes: ArrayVec::new(),
        },
        told: Some(what.item(bytes)),
        used,
    })
}

/// Reads past further bytes of a capsule.
fn read_past(what: Skipped, missing: u64, piece: &[u8]) -> Step
    ensures within { result.used ≤ length piece.now }
    ensures some { 0 < missing → 0 < length piece.now → 0 < result.used }
    ensures far { GoesFar piece.now result }
    ensures gives { LeadsFromSkipped what missing piece.now result }
{
    if (piece.len() as u64) < missing {
        return Step {
            state: State::Skip {
                what,
                missing: missing - piece.len() as u64,
            },
            told: None,
            used: piece.len(),
        };
    }
    Step {
        state: State::Front {
            bytes: ArrayVec::new(),
        },
        told: what.item(),
        used: missing as usize,
    }
}

impl Kept {
    /// What the capsule says with these bytes.
    fn item(self, bytes: Vec<u8>) -> Item
        ensures { result ≡ kept_item self bytes.items }
    {
        let bytes = Bytes::from_vec(bytes);
        match self {
            Kept::Payload { context } => Item::Datagram {
                context,
                payload: bytes,
            },
            Kept::Control { kind } => Item::Control { kind, value: bytes },
        }
    }
}

impl Skipped {
    /// What the capsule says.
    fn item(self) -> Option<Item>
        ensures { result ≡ skipped_item self }
    {
        match self {
            Skipped::Payload { context, length } => {
                Some(Item::TooLongDatagram { context, length })
            }
            Skipped::Other => None,
        }
    }
}
