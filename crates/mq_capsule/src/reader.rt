//! The reader of capsules, from pieces in any cutting.
ghost use Rattle.std.specs.Prelude.{◌≡◌, ℕ, ◌<◌, ◌≤◌, List, [], Bool, true, length, take, option_to_list, IfOk, OnOk, OnErr, IsErr};
ghost use Rattle.mq_capsule.specs.Items.{max_control};
ghost use Rattle.mq_capsule.specs.Readers.{Stands, StandsOn, GivesItems, AreSized, TellsBegun, IsSpent, Reads, TakesByte, StopsAtBoundary, Went};
ghost use Rattle.mq_capsule.specs.Readers.{KeepsAtMost, KeepsFew};

use super::item::{Item, Truncated};
use super::state::State;
use super::step::{Step, advance, take_in_place, take_whole, whole_in};
use arrayvec::ArrayVec;
use mq_wire::{NoMemory, Seq};
use std::alloc::Global;
use std::mem;

/// What a call of [`Reader::next`] took of its piece.
#[derive(Drop)]
pub struct Taken {
    /// The item of the capsule that ended, or that can't be one.
    pub item: Option<Item>,
    /// How many bytes were taken.
    pub used: usize,
}

/// A reader of a data stream.
#[derive(Drop)]
pub struct Reader {
    /// Whether capsules of type 1 to 3 are told, as in a tunnel for IP packets.
    control: bool,
    state: State,
}

impl Reader {
    /// A reader that was fed nothing. With `control` it tells the capsules of type 1 to 3 too (RFC 9484,
    /// section 4.7); without, it passes over them as over every type that isn't known.
    pub fn new(control: bool) -> Reader
        ensures { Stands result control [] }
    {
        Reader {
            control,
            state: State::Front {
                bytes: ArrayVec::new(),
            },
        }
    }

    /// Takes the next bytes, and gives the items of the capsules that end in them, a `Bad` last. After an `Err`
    /// the reader is of no use: every later call answers the same.
    pub fn feed(&mut self, alloc: Global, piece: &[u8]) -> Result<Seq<Item>, NoMemory>
        ensures items { IfOk result (GivesItems self.old piece.now) }
        ensures sized { IfOk result (AreSized self.old) }
        ensures stands { OnOk result (StandsOn self.old self.new piece.now) }
        ensures bounded { OnOk result (KeepsAtMost max_control self.old self.new) }
        ensures skips { OnOk result (KeepsFew self.old self.new piece.now) }
        ensures spent { OnErr result (IsSpent self.new) }
        ensures stays_spent { IsSpent self.old → IsErr result }
    {
        if matches!(self.state, State::Spent) {
            return Err(NoMemory);
        }
        let mut items = Vec::new(alloc);
        match self.read(alloc, piece, &mut items) {
            Ok(()) => Ok(Seq::from_vec(items)),
            Err(NoMemory) => {
                self.state = State::Spent;
                Err(NoMemory)
            }
        }
    }

    /// Takes bytes of the piece until a capsule is whole or can't be one, or all of them. What is left of the piece is for the
    /// next call, so that no list of items is made. Behind a `Bad` each call takes all of its piece, and gives no item. After an
    /// `Err` the reader is of no use: every later call answers the same.
    #[inline]
    pub fn next(&mut self, alloc: Global, piece: &[u8]) -> Result<Taken, NoMemory>
        ensures within { IfOk result (λ taken. taken.used ≤ length piece.now) }
        ensures some { IfOk result (λ taken. TakesByte self.old piece.now taken.used) }
        ensures boundary { IfOk result (λ taken. StopsAtBoundary self.old piece.now taken.used) }
        ensures items { IfOk result (λ taken. GivesItems self.old (take taken.used piece.now) (option_to_list taken.item)) }
        ensures sized { IfOk result (λ taken. AreSized self.old (option_to_list taken.item)) }
        ensures stands { IfOk result (λ taken. StandsOn self.old self.new (take taken.used piece.now)) }
        ensures bounded { OnOk result (KeepsAtMost max_control self.old self.new) }
        ensures skips { IfOk result (λ taken. KeepsFew self.old self.new (take taken.used piece.now)) }
        ensures spent { OnErr result (IsSpent self.new) }
        ensures stays_spent { IsSpent self.old → IsErr result }
    {
        if matches!(self.state, State::Spent) {
            return Err(NoMemory);
        }
        match self.advance(alloc, piece) {
            Ok(taken) => Ok(taken),
            Err(NoMemory) => {
                self.state = State::Spent;
                Err(NoMemory)
            }
        }
    }

    /// The end of the stream: refused inside a capsule, unless the stream was malformed.
    pub fn finish(&self) -> Result<(), Truncated>
        ensures { TellsBegun self.now (IsErr result) }
    {
        if self.begun() { Err(Truncated) } else { Ok(()) }
    }

    /// Whether bytes of an unfinished capsule were fed, and the stream isn't malformed.
    pub fn begun(&self) -> bool
        ensures { TellsBegun self.now (result ≡ true) }
    {
        self.state.is_begun()
    }

    /// Reads the piece. Each step takes a byte at least.
    fn read(&mut self, alloc: Global, piece: &[u8], items: &mut Vec<Item>) -> Result<(), NoMemory>
        ensures { OnOk result (Reads self.old self.new piece.now items.old.items items.new.items) }
    {
        let mut left = piece;
        for _ in 0..piece.len() {
            if left.is_empty() {
                return Ok(());
            }
            let used = self.step(alloc, left, items)?;
            let (_, after) = left.split_at(used);
            left = after;
        }
        Ok(())
    }

    /// Takes bytes until a capsule is whole or can't be one, or all of them, and puts its item at the back of the list.
    fn step(
        &mut self,
        alloc: Global,
        piece: &[u8],
        items: &mut Vec<Item>,
    ) -> Result<usize, NoMemory>
        ensures within { IfOk result (λ used. used ≤ length piece.now) }
        ensures some { IfOk result (TakesByte self.old piece.now) }
        ensures went { IfOk result (λ used.
            Reads self.old self.new (take used piece.now) items.old.items items.new.items) }
    {
        let Taken { item, used } = self.advance(alloc, piece)?;
        match item {
            None => Ok(used),
            Some(item) => {
                items.push(item)?;
                Ok(used)
            }
        }
    }

    /// Takes bytes until a capsule is whole or can't be one, or all of them. One that is kept, begins with the piece and is whole
    /// in it is read where it lies.
    #[inline(always)]
    fn advance(&mut self, alloc: Global, piece: &[u8]) -> Result<Taken, NoMemory>
        ensures within { IfOk result (λ taken. taken.used ≤ length piece.now) }
        ensures some { IfOk result (λ taken. TakesByte self.old piece.now taken.used) }
        ensures boundary { IfOk result (λ taken. StopsAtBoundary self.old piece.now taken.used) }
        ensures went { IfOk result (λ taken. Went self.old self.new (take taken.used piece.now) (option_to_list taken.item)) }
    {
        if self.state.is_between() {
            if let Some(whole) = whole_in(self.control, piece) {
                let item = take_whole(alloc, whole, piece)?;
                return Ok(Taken {
                    item: Some(item),
                    used: whole.front + whole.length,
                });
            }
        }
        self.go_on(alloc, piece)
    }

    /// The same, from any state.
    fn go_on(&mut self, alloc: Global, piece: &[u8]) -> Result<Taken, NoMemory>
        ensures within { IfOk result (λ taken. taken.used ≤ length piece.now) }
        ensures some { IfOk result (λ taken. TakesByte self.old piece.now taken.used) }
        ensures boundary { IfOk result (λ taken. StopsAtBoundary self.old piece.now taken.used) }
        ensures went { IfOk result (λ taken. Went self.old self.new (take taken.used piece.now) (option_to_list taken.item)) }
    {
        if take_in_place(&mut self.state, piece)? {
            return Ok(Taken {
                item: None,
                used: piece.len(),
            });
        }
        let state = mem::replace(&mut self.state, State::Spent);
        let Step { state, told, used } = advance(alloc, self.control, state, piece)?;
        self.state = state;
        Ok(Taken { item: told, used })
    }
}
