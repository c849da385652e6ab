//! The lines of a generated script, one after the other.
ghost use Rattle.std.specs.Prelude.{◌≡◌, ◌↔◌, [], drop, slice_index_or, IsTrue, IfOk};
ghost use Rattle.mq_script.specs.Generated.{generated, line_at};
ghost use Rattle.mq_script.specs.Left.{GivesLine};
ghost use Rattle.mq_script.specs.Words.{Appends};

use crate::draw::{drawn, next_state};
use crate::drawn_line::{append_piece, append_step};
use crate::opening::{OPENING, append_opening};
use crate::part::append;
use mq_wire::{Bytes, NoMemory};
use std::alloc::Global;
use std::marker::Model;

/// What comes next.
#[derive(Clone, Copy)]
pub enum Next {
    /// The line of this number of the opening, counted from 0, and what is behind it.
    Opening(u8),
    /// The packets that are left, and the last line.
    Packets,
    /// The steps behind a packet, by the number that was drawn for it.
    Step(u32),
    Nothing,
}

/// The lines of a generated script that are left. Contracts see it as their list.
#[derive(Drop)]
pub struct Generator {
    alloc: Global,
    next: Next,
    /// The state before the next packet's draw.
    state: u64,
    /// The number of the next packet.
    packet: u32,
    /// How many packets are left.
    left: u32,
}

impl Model for Generator {
    ghost use Rattle.std.specs.Prelude.{ℕ, ◌+◌, ◌^◌, ◌<◌, List};
    ghost use Rattle.mq_script.specs.Left.{IsInOpening, left_of};

    ghost Value = { List (List ℕ) };

    ghost view = { λ s. left_of s.next s.state s.packet s.left };

    ghost invariant = { λ s. IsInOpening s.next × (s.packet + s.left < 2 ^ 32) };
}

impl Generator {
    /// All lines of the script of a seed with so many packets. Takes no memory.
    pub fn new(alloc: Global, seed: u64, count: u32) -> Generator
        ensures { result ≡ generated seed count }
    {
        Generator {
            alloc,
            next: Next::Opening(0),
            state: seed,
            packet: 0,
            left: count,
        }
    }

    /// Appends the first line that is left, without a newline, and goes on behind it. False where none is left. An `Err`
    /// changes nothing.
    pub fn next_line(&mut self, out: &mut Vec<u8>) -> Result<bool, NoMemory>
        ensures { GivesLine self.old out.old.items result self.new out.new.items }
    {
        if self.is_done() {
            return Ok(false);
        }
        let before = out.len();
        if let Err(fault) = self.append_first(out) {
            out.truncate(before);
            return Err(fault);
        }
        self.advance();
        Ok(true)
    }

    /// Whether no line is left.
    fn is_done(&self) -> bool
        ensures { IsTrue result ↔ (self.now ≡ []) }
    {
        matches!(self.next, Next::Nothing)
    }

    /// Appends the first line that is left, if there is one; an `Err` leaves a part of it.
    fn append_first(&self, out: &mut Vec<u8>) -> Result<(), NoMemory>
        ensures { Appends out.old.items (slice_index_or self.now 0 []) out.new.items result }
    {
        match self.next {
            Next::Opening(number) => append_opening(out, number),
            Next::Packets if self.left > 0 => {
                append_piece(self.alloc, out, drawn(next_state(self.state)), self.packet)
            }
            Next::Packets => append(out, b"run 1000000"),
            Next::Step(drawn) => append_step(out, drawn),
            Next::Nothing => Ok(()),
        }
    }

    /// Goes on behind the first line that is left.
    fn advance(&mut self)
        ensures { self.new ≡ drop 1 self.old }
    {
        match self.next {
            Next::Opening(number) if number + 1 < OPENING => self.next = Next::Opening(number + 1),
            Next::Opening(_) => self.next = Next::Packets,
            Next::Packets if self.left > 0 => {
                self.state = next_state(self.state);
                self.packet += 1;
                self.left -= 1;
                self.next = Next::Step(drawn(self.state));
            }
            Next::Packets => self.next = Next::Nothing,
            Next::Step(_) => self.next = Next::Packets,
            Next::Nothing => {}
        }
    }

    /// Goes on behind so many lines, or behind all.
    fn skip(&mut self, lines: u32)
        ensures { self.new ≡ drop lines self.old }
    {
        for _line in 0..lines {
            self.advance();
        }
    }
}

/// The line of this number, counted from 1, of the script of a seed with so many packets, without a newline. None at 0
/// and past its end. It passes over the lines before it; a `Generator` gives all lines in one pass.
pub fn generate(alloc: Global, seed: u64, count: u32, line: u32) -> Result<Option<Bytes>, NoMemory>
    ensures { IfOk result (λ found. found ≡ line_at (generated seed count) line) }
{
    if line == 0 {
        return Ok(None);
    }
    let mut generator = Generator::new(alloc, seed, count);
    generator.skip(line - 1);
    let mut text = Vec::new(alloc);
    if generator.next_line(&mut text)? {
        Ok(Some(Bytes::from_vec(text)))
    } else {
        Ok(None)
    }
}
