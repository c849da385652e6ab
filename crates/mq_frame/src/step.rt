//! One step of reading: bytes of a piece, until a frame is whole or the piece ends.
ghost use Rattle.std.specs.Prelude.{◌≡◌, ℕ, ◌<◌, ◌≤◌, List, [], length, drop, false, true, IfOk};
ghost use Rattle.mq_frame.specs.declared.place.Place.{Place};
ghost use Rattle.mq_frame.specs.Header.{header_of, is_skipped};
ghost use Rattle.mq_frame.specs.Stream.{is_ended};
ghost use Rattle.mq_frame.specs.Steps.{IsStep, IsBegun, Holds, LeadsTo, all_taken};

use super::codes::{FRAME_SIZE_ERROR, MAX_FRAME_SIZE};
use super::contents::{frame_at, frame_of};
use super::frame::Frame;
use super::header::Header;
use super::place::Place;
use super::state::State;
use arrayvec::ArrayVec;
use mq_wire::NoMemory;
use std::alloc::Global;

/// What a step gave.
#[derive(Drop)]
pub struct Step {
    /// What is kept now.
    pub state: State,
    /// The frame that became whole.
    pub frame: Option<Frame>,
    /// How many bytes of the piece were taken.
    pub used: usize,
}

/// A step from any state.
pub fn advance(alloc: Global, place: Place, state: State, piece: &[u8]) -> Result<Step, NoMemory>
    requires { is_ended place ≡ false }
    ensures within { IfOk result (λ s. s.used ≤ length piece.now) }
    ensures some { IfOk result (λ s. (rest : List ℕ) → Holds state rest → 0 < length piece.now → 0 < s.used) }
    ensures gives { IfOk result (λ s. LeadsTo place state piece.now s) }
{
    match state {
        State::Head { bytes } => read_head(alloc, place, bytes, piece),
        State::Contents {
            header,
            bytes,
            missing,
        } => read_contents(alloc, place, header, bytes, missing, piece),
        State::Skip { header, missing } => skip_contents(alloc, place, header, missing, piece),
        State::Spent => Err(NoMemory),
    }
}

/// Takes the whole piece into the state where it stands, if more bytes of the contents are missing than the piece has, and
/// tells whether it did. A stream that comes by the byte would pay for a move of the state at each.
pub fn take_in_place(state: &mut State, piece: &[u8]) -> Result<bool, NoMemory>
    ensures takes { IfOk result (λ taken. taken ≡ true → (place : Place) → LeadsTo place state.old piece.now (all_taken state.new piece.now)) }
    ensures leaves { IfOk result (λ taken. taken ≡ false → state.new ≡ state.old) }
{
    match state {
        State::Contents { bytes, missing, .. } => {
            if piece.len() >= *missing {
                return Ok(false);
            }
            bytes.extend_from_slice(piece)?;
            *missing -= piece.len();
            Ok(true)
        }
        State::Skip { missing, .. } => {
            if piece.len() >= *missing {
                return Ok(false);
            }
            *missing -= piece.len();
            Ok(true)
        }
        State::Head { .. } | State::Spent => Ok(false),
    }
}

/// Takes bytes of a header, and where it is whole those of the contents.
fn read_head(
    alloc: Global,
    place: Place,
    head: ArrayVec<u8, 9>,
    piece: &[u8],
) -> Result<Step, NoMemory>
    requires { is_ended place ≡ false }
    ensures within { IfOk result (λ s. s.used ≤ length piece.now) }
    ensures some { IfOk result (λ s. length head.items < 9 → 0 < length piece.now → 0 < s.used) }
    ensures gives { IfOk result (λ s. length head.items < 9 → IsStep place head.items piece.now s) }
{
    let mut head = head;
    let taken = head.remaining_capacity().min(piece.len());
    let (front, after) = piece.split_at(taken);
    let Ok(()) = head.try_extend_from_slice(front) else {
        return Err(NoMemory);
    };
    match Header::of(head.as_slice()) {
        None => Ok(Step {
            state: State::Head { bytes: head },
            frame: None,
            used: taken,
        }),
        Some(header) => {
            let Step { state, frame, used } = begin(alloc, place, header, after)?;
            Ok(Step {
                state,
                frame,
                used: taken + used,
            })
        }
    }
}

/// Takes the first bytes of the contents behind a header.
fn begin(alloc: Global, place: Place, header: Header, piece: &[u8]) -> Result<Step, NoMemory>
    requires { is_ended place ≡ false }
    ensures within { IfOk result (λ s. s.used ≤ length piece.now) }
    ensures gives { IfOk result (λ s. (head : List ℕ) → length head ≡ 9 → header ≡ header_of head → IsStep place head piece.now s) }
{
    let length = header.length as usize;
    if header.length > MAX_FRAME_SIZE {
        return Ok(whole(
            Frame::Fault {
                code: FRAME_SIZE_ERROR,
            },
            0,
        ));
    }
    if piece.len() < length {
        let state = keep(alloc, header, piece, length - piece.len())?;
        return Ok(Step {
            state,
            frame: None,
            used: piece.len(),
        });
    }
    let (contents, _) = piece.split_at(length);
    let frame = frame_at(alloc, place, header, contents)?;
    Ok(whole(frame, length))
}

/// What is kept of a frame with this header, whose contents begin so and lack so many bytes.
fn keep(alloc: Global, header: Header, contents: &[u8], missing: usize) -> Result<State, NoMemory>
    ensures { IfOk result (λ s. (bytes : List ℕ) → IsBegun header missing bytes → contents.now ≡ drop 9 bytes → Holds s bytes) }
{
    if header.kind.is_skipped() {
        return Ok(State::Skip { header, missing });
    }
    let mut bytes = Vec::with_capacity(alloc, header.length as usize)?;
    bytes.extend_from_slice(contents)?;
    Ok(State::Contents {
        header,
        bytes,
        missing,
    })
}

/// Takes further bytes of the contents.
fn read_contents(
    alloc: Global,
    place: Place,
    header: Header,
    bytes: Vec<u8>,
    missing: usize,
    piece: &[u8],
) -> Result<Step, NoMemory>
    requires { is_ended place ≡ false }
    ensures within { IfOk result (λ s. s.used ≤ length piece.now) }
    ensures some { IfOk result (λ s. 0 < missing → 0 < length piece.now → 0 < s.used) }
    ensures gives { IfOk result (λ s. (rest : List ℕ) → IsBegun header missing rest → is_skipped header.kind ≡ false → bytes.items ≡ drop 9 rest → IsStep place rest piece.now s) }
{
    let mut bytes = bytes;
    if piece.len() < missing {
        bytes.extend_from_slice(piece)?;
        return Ok(Step {
            state: State::Contents {
                header,
                bytes,
                missing: missing - piece.len(),
            },
            frame: None,
            used: piece.len(),
        });
    }
    let (end, _) = piece.split_at(missing);
    bytes.extend_from_slice(end)?;
    let frame = frame_of(alloc, place, header, bytes)?;
    Ok(whole(frame, missing))
}

/// Reads past further bytes of the contents.
fn skip_contents(
    alloc: Global,
    place: Place,
    header: Header,
    missing: usize,
    piece: &[u8],
) -> Result<Step, NoMemory>
    requires { is_ended place ≡ false }
    ensures within { IfOk result (λ s. s.used ≤ length piece.now) }
    ensures some { IfOk result (λ s. 0 < missing → 0 < length piece.now → 0 < s.used) }
    ensures gives { IfOk result (λ s. (rest : List ℕ) → IsBegun header missing rest → is_skipped header.kind ≡ true → IsStep place rest piece.now s) }
{
    if piece.len() < missing {
        return Ok(Step {
            state: State::Skip {
                header,
                missing: missing - piece.len(),
            },
            frame: None,
            used: piece.len(),
        });
    }
    let frame = frame_at(alloc, place, header, &[])?;
    Ok(whole(frame, missing))
}

/// A step that ends a frame.
fn whole(frame: Frame, used: usize) -> Step
    ensures frame { result.frame ≡ Some frame }
    ensures used { result.used ≡ used }
    ensures state { Holds result.state [] }
{
    Step {
        state: State::Head {
            bytes: ArrayVec::new(),
        },
        frame: Some(frame),
        used,
    }
}
