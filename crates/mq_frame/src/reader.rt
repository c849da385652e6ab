//! The reader of frames, from pieces in any cutting.
ghost use Rattle.std.specs.Prelude.{◌≡◌, ℕ, ◌<◌, ◌≤◌, ◌++◌, ◌↔◌, List, [], length, take, false, true, IfOk, OnOk, OnErr, IsErr};
ghost use Rattle.std.specs.List.{AllByRecursion};
ghost use Rattle.mq_frame.specs.Numbers.{max_frame_size};
ghost use Rattle.mq_frame.specs.Stream.{is_ended, EndsInFrame};
ghost use Rattle.mq_frame.specs.Readers.{Stands, GivesFrames, KeepsOnly, IsSpent, Reads, held};
ghost use Rattle.mq_frame.specs.Told.{IsBounded};

use super::frame::Frame;
use super::place::Place;
use super::state::State;
use super::step::{Step, advance, take_in_place};
use arrayvec::ArrayVec;
use mq_wire::{NoMemory, Seq};
use std::alloc::Global;
use std::mem;

/// A reader of the bytes behind the preface of one side of a connection.
#[derive(Drop)]
pub struct FrameReader {
    place: Place,
    state: State,
}

impl FrameReader {
    /// A reader that was fed nothing.
    pub fn new() -> FrameReader
        ensures { Stands result [] }
    {
        FrameReader {
            place: Place::First,
            state: State::Head {
                bytes: ArrayVec::new(),
            },
        }
    }

    /// Takes the next bytes, and gives the frames that end in them, a `Fault` last. After an `Err` the reader
    /// is of no use: every later call answers the same.
    pub fn feed(&mut self, alloc: Global, piece: &[u8]) -> Result<Seq<Frame>, NoMemory>
        ensures frames { IfOk result (GivesFrames self.old piece.now) }
        ensures told { IfOk result (λ given. (bytes : List ℕ) → Stands self.old bytes → AllByRecursion IsBounded given) }
        ensures stands { OnOk result ((bytes : List ℕ) → Stands self.old bytes → Stands self.new (bytes ++ piece.now)) }
        ensures bounded { OnOk result ((bytes : List ℕ) → Stands self.old bytes → held self.new ≤ max_frame_size) }
        ensures keeps { OnOk result ((bytes : List ℕ) → Stands self.old bytes → KeepsOnly self.new (bytes ++ piece.now)) }
        ensures spent { OnErr result (IsSpent self.new) }
        ensures stays_spent { IsSpent self.old → IsErr result }
    {
        if matches!(self.state, State::Spent) {
            return Err(NoMemory);
        }
        let mut frames = Vec::new(alloc);
        match self.read(alloc, piece, &mut frames) {
            Ok(()) => Ok(Seq::from_vec(frames)),
            Err(NoMemory) => {
                self.state = State::Spent;
                Err(NoMemory)
            }
        }
    }

    /// Whether an unfinished frame was begun.
    pub fn begun(&self) -> bool
        ensures { (bytes : List ℕ) → Stands self.now bytes → (result ≡ true) ↔ EndsInFrame bytes }
    {
        if self.place.is_ended() {
            return false;
        }
        match &self.state {
            State::Head { bytes } => !bytes.is_empty(),
            State::Contents { .. } | State::Skip { .. } => true,
            State::Spent => false,
        }
    }

    /// Reads the piece. Each step takes a byte at least.
    fn read(&mut self, alloc: Global, piece: &[u8], frames: &mut Vec<Frame>) -> Result<(), NoMemory>
        ensures { OnOk result (Reads self.old self.new piece.now frames.old.items frames.new.items) }
    {
        let mut left = piece;
        for _ in 0..piece.len() {
            if left.is_empty() || self.place.is_ended() {
                return Ok(());
            }
            let used = self.step(alloc, left, frames)?;
            let (_, after) = left.split_at(used);
            left = after;
        }
        Ok(())
    }

    /// Takes bytes until a frame is whole, or all of them.
    fn step(
        &mut self,
        alloc: Global,
        piece: &[u8],
        frames: &mut Vec<Frame>,
    ) -> Result<usize, NoMemory>
        requires { is_ended self.old.place ≡ false }
        ensures within { IfOk result (λ used. used ≤ length piece.now) }
        ensures some { IfOk result (λ used. (bytes : List ℕ) → Stands self.old bytes → 0 < length piece.now → 0 < used) }
        ensures went { IfOk result (λ used. Reads self.old self.new (take used piece.now) frames.old.items frames.new.items) }
    {
        if take_in_place(&mut self.state, piece)? {
            return Ok(piece.len());
        }
        let state = mem::replace(&mut self.state, State::Spent);
        let Step { state, frame, used } = advance(alloc, self.place, state, piece)?;
        self.state = state;
        match frame {
            None => Ok(used),
            Some(frame) => {
                self.place = Place::behind(&frame);
                frames.push(frame)?;
                Ok(used)
            }
        }
    }
}
