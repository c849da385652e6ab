//! A source in memory, of which stated reads fail.
ghost use Rattle.std.specs.Prelude.{◌≡◌, ◌^◌, ◌-◌, ◌<◌, ◌≤◌, length, IfOk, Some, drop};
ghost use Rattle.mq_outside.specs.Outside.{Reads, ReadCounts};
ghost use Rattle.mq_mem.specs.Calls.{no_calls};
ghost use Rattle.mq_mem.specs.Streams.{Source as SourceOf, got_of, after_got, GotBytes};

use crate::calls::Calls;
use crate::fitting::fill;
use mq_outside::{Got, Source, risen};
use mq_wire::{Bytes, NoMemory, Seq};
use std::marker::Model;

/// A source that gives the bytes of a list, and tells which are left.
#[derive(Drop)]
pub struct MemSource {
    contents: Bytes,
    place: usize,
    most: u32,
    calls: Calls,
    faults: u64,
}

impl Model for MemSource {
    ghost Value = { SourceOf };

    ghost view = { λ s. record { left = drop s.place s.contents; most = s.most; calls = s.calls; faults = s.faults } };

    ghost invariant = { λ s. s.place ≤ length s.contents };
}

impl MemSource {
    /// A source of these contents. The reads of the numbers in `fails`, counted from 0, fail.
    pub fn new(bytes: Bytes, fails: Seq<u64>) -> Result<MemSource, NoMemory>
        ensures { IfOk result (λ s. s ≡ record { left = bytes; most = 2 ^ 32 - 1; calls = no_calls fails; faults = 0 }) }
    {
        Ok(MemSource {
            contents: bytes,
            place: 0,
            most: u32::MAX,
            calls: Calls::new(fails),
            faults: 0,
        })
    }

    /// The same, where each read gives at most so many bytes, and at least one.
    pub fn in_pieces(self, most: u32) -> MemSource
        ensures { result ≡ record self { most = most } }
    {
        MemSource { most, ..self }
    }
}

impl Source for MemSource {
    ghost left = { λ s. Some s.left };

    ghost faults = { λ s. s.faults };

    fn read(&mut self, into: &mut [u8]) -> Got
        requires { 0 < length into.old }
        ensures reads { Reads (Some self.old.left) (Some self.new.left) into.new result }
        ensures counts { ReadCounts self.old.faults self.new.faults result }
        ensures answer { result ≡ got_of self.old (length into.old) }
        ensures bytes { GotBytes self.old.left into.new result }
        ensures after { self.new ≡ after_got self.old result }
    {
        if self.calls.next_fails() {
            self.faults = risen(self.faults);
            return Got::Failed;
        }
        let (_, left) = self.contents.as_slice().split_at(self.place);
        if left.is_empty() {
            return Got::End;
        }
        let (front, _) = left.split_at(left.len().min(self.most.max(1) as usize));
        let count = fill(into, front);
        self.place += count as usize;
        Got::Bytes(count)
    }
}
