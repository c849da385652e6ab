//! What waits in a network. The room for answers is taken before: an answer that finds no room is swallowed.
ghost use Rattle.std.specs.Prelude.{◌≡◌, ◌+◌, ◌<◌, ◌≤◌, ◌==◌, ◌++◌, length, take, drop, replicate, IfOk, OnOk, OnErr};
ghost use Rattle.circular_buffer.specs.Buffer.{buffer};
ghost use Rattle.mq_outside.specs.Nets.{by_itself};
ghost use Rattle.mq_net.specs.Stores.{Store as StoreOf, new_store, after_answer, Takes};

use circular_buffer::HeapCircularBuffer;
use mq_wire::{Bytes, NoMemory};
use std::alloc::Global;
use std::collections::VecDeque;
use std::marker::Model;

/// Copies of a packet, `more` of them behind the first, or an answer of so many bytes.
#[derive(Drop)]
pub enum Waiting {
    Arrived { packet: Bytes, more: u32 },
    Answer { size: u32 },
}

/// What waits, oldest first. The bytes of its answers stand in one ring, in order, and `room` more answers may wait.
#[derive(Drop)]
pub struct Store {
    waiting: VecDeque<Waiting>,
    bytes: HeapCircularBuffer<u8>,
    room: u32,
}

impl Model for Store {
    ghost use Rattle.std.specs.Prelude.{◌≡◌, ◌+◌, ◌<◌, ◌≤◌, ◌^◌, length};
    ghost use Rattle.std.specs.List.{All};
    ghost use Rattle.std.specs.VecDeque.{deque_capacity};
    ghost use Rattle.mq_net.specs.Stores.{Store as StoreOf, unpacked, count_of, bytes_of, IsShort};

    ghost Value = { StoreOf };

    ghost view = { λ s. record { arrived = unpacked s.waiting.items s.bytes.items; most = count_of s.waiting.items + s.room; most_bytes = s.bytes.capacity } };

    ghost invariant = { λ s. (bytes_of s.waiting.items ≡ length s.bytes.items) × (length s.waiting.items + s.room ≤ deque_capacity s.waiting) × (count_of s.waiting.items + s.room < 2 ^ 32) × All IsShort s.waiting.items };
}

impl Store {
    /// With room for so many answers, together of so many bytes.
    pub fn new(alloc: Global, most: u32, most_bytes: u32) -> Result<Store, NoMemory>
        ensures { IfOk result (λ s. s ≡ new_store most most_bytes) }
    {
        let waiting = VecDeque::with_capacity(alloc, most as usize)?;
        let bytes = HeapCircularBuffer::with_capacity(alloc, most_bytes as usize)?;
        Ok(Store {
            waiting,
            bytes,
            room: most,
        })
    }

    /// Whether nothing waits.
    pub fn is_empty(&self) -> bool
        ensures { result ≡ (length self.now.arrived == 0) }
    {
        self.waiting.is_empty()
    }

    /// A packet arrives, and so many copies more.
    pub fn push(&mut self, packet: Bytes, more: u32) -> Result<(), NoMemory>
        requires { length packet ≤ 65535 }
        ensures ok { OnOk result (self.new ≡ record self.old { arrived = self.old.arrived ++ replicate (more + 1) (by_itself packet) }) }
        ensures err { OnErr result (self.new ≡ self.old) }
    {
        self.waiting.reserve(self.room as usize + 1)?;
        self.waiting
            .push_back_reserved(Waiting::Arrived { packet, more });
        Ok(())
    }

    /// An answer arrives, or is swallowed where there is no room for it. Takes no memory.
    pub fn push_answer(&mut self, answer: &[u8])
        requires { length answer.now ≤ 65535 }
        ensures { self.new ≡ after_answer self.old answer.now }
    {
        if self.room > 0 && answer.len() <= self.bytes.capacity() - self.bytes.len() {
            self.bytes.fill_from_slice(answer);
            self.waiting.push_back_reserved(Waiting::Answer {
                size: answer.len() as u32,
            });
            self.room -= 1;
        }
    }

    /// Takes what waits first to the front of a buffer, and answers its length.
    pub fn pop(&mut self, into: &mut [u8]) -> Option<u32>
        requires { 65535 ≤ length into.old }
        ensures { Takes self.old self.new into.new result }
    {
        match self.waiting.pop_front()? {
            Waiting::Arrived { packet, more } => {
                let size = put_in(into, packet.as_slice());
                if let Some(more) = more.checked_sub(1) {
                    self.waiting
                        .push_front_reserved(Waiting::Arrived { packet, more });
                }
                Some(size)
            }
            Waiting::Answer { size } => {
                take_bytes(&mut self.bytes, size, into);
                self.room += 1;
                Some(size)
            }
        }
    }
}

/// Puts a packet to the front of a buffer, and answers its length.
fn put_in(into: &mut [u8], packet: &[u8]) -> u32
    requires { (length packet.now ≤ 65535) × (65535 ≤ length into.old) }
    ensures value { result ≡ length packet.now }
    ensures copied { take result into.new ≡ packet.now }
    ensures len { length into.new ≡ length into.old }
{
    let (front, _) = into.split_at_mut(packet.len());
    front.copy_from_slice(packet);
    packet.len() as u32
}

/// Moves so many bytes of a ring to the front of a buffer.
fn take_bytes(bytes: &mut HeapCircularBuffer<u8>, size: u32, into: &mut [u8])
    requires within { size ≤ length bytes.old.items }
    requires fits { size ≤ length into.old }
    ensures left { bytes.new ≡ buffer (drop size bytes.old.items) bytes.old.capacity }
    ensures copied { take size into.new ≡ take size bytes.old.items }
    ensures len { length into.new ≡ length into.old }
{
    let (front, _) = into.split_at_mut(size as usize);
    bytes.read_into(front);
}
