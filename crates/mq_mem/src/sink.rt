//! A sink in memory, of which stated writes fail.
ghost use Rattle.std.specs.Prelude.{◌≡◌, ◌^◌, ◌-◌, ◌<◌, ◌≤◌, length, IfOk, Some, []};
ghost use Rattle.mq_outside.specs.Outside.{Writes, TakesSome, WriteCounts};
ghost use Rattle.mq_mem.specs.Calls.{no_calls};
ghost use Rattle.mq_mem.specs.Streams.{Sink as SinkOf, put_of, after_put};

use crate::calls::Calls;
use crate::fitting::fitting;
use crate::room::Room;
use mq_outside::{Put, Sink, risen};
use mq_wire::{NoMemory, Seq};
use std::alloc::Global;
use std::marker::Model;

/// A sink that keeps what it takes in a stated room, and tells it.
#[derive(Drop)]
pub struct MemSink {
    kept: Room,
    most: u32,
    calls: Calls,
    faults: u64,
}

impl Model for MemSink {
    ghost Value = { SinkOf };

    ghost view = { λ s. record { taken = s.kept.taken; room = s.kept.room; most = s.most; calls = s.calls; faults = s.faults } };
}

impl MemSink {
    /// A sink that took nothing, with room for so many bytes. The writes of the numbers in `fails`, counted from 0,
    /// fail, and so does each where the room is used up. Each other takes what fits.
    pub fn new(alloc: Global, room: u32, fails: Seq<u64>) -> Result<MemSink, NoMemory>
        ensures { IfOk result (λ s. s ≡ record { taken = []; room = room; most = 2 ^ 32 - 1; calls = no_calls fails; faults = 0 }) }
    {
        let kept = Room::new(alloc, room)?;
        Ok(MemSink {
            kept,
            most: u32::MAX,
            calls: Calls::new(fails),
            faults: 0,
        })
    }

    /// The same, where each write takes at most so many bytes, and at least one.
    pub fn in_pieces(self, most: u32) -> MemSink
        ensures { result ≡ record self { most = most } }
    {
        MemSink { most, ..self }
    }

    /// What it took.
    pub fn taken(&self) -> &[u8]
        ensures { result.now ≡ self.now.taken }
    {
        self.kept.taken()
    }
}

impl Sink for MemSink {
    ghost taken = { λ s. Some s.taken };

    ghost faults = { λ s. s.faults };

    fn write(&mut self, bytes: &[u8]) -> Put
        requires { 0 < length bytes.now }
        ensures some { TakesSome bytes.now result }
        ensures writes { Writes (Some self.old.taken) (Some self.new.taken) bytes.now result }
        ensures counts { WriteCounts self.old.faults self.new.faults result }
        ensures answer { result ≡ put_of self.old (length bytes.now) }
        ensures after { self.new ≡ after_put self.old bytes.now result }
    {
        if self.calls.next_fails() {
            self.faults = risen(self.faults);
            return Put::Failed;
        }
        let most = bytes.len().min(self.most.max(1) as usize);
        let count = fitting(self.kept.free() as usize, most);
        if count == 0 {
            self.faults = risen(self.faults);
            return Put::Failed;
        }
        let (front, _) = bytes.split_at(count as usize);
        self.kept.keep(front);
        Put::Took(count)
    }
}
