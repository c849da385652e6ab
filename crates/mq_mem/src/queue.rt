//! What a port and a network in memory have in common: what arrived, and what can still be sent.
ghost use Rattle.std.specs.Prelude.{◌≡◌, ◌≤◌, ◌++◌, ◌∷◌, [], length, take, true, false, is_some, OnOk, OnErr};
ghost use Rattle.mq_outside.specs.Counts.{no_port_counts};
ghost use Rattle.mq_outside.specs.Ports.{PortReceives, PortSends, IsWithin};
ghost use Rattle.mq_mem.specs.Calls.{no_calls};
ghost use Rattle.mq_mem.specs.Ports.{Queue as QueueOf, AllShort, told, new_queue, put_of, after_put, got_of, after_got, GotDatagram, would_receive as would_receive_of, is_above, less};

use crate::calls::Calls;
use mq_outside::{PortGot, PortPut, risen};
use mq_wire::{Bytes, NoMemory, Seq};
use std::collections::VecDeque;
use std::marker::Model;

/// Datagrams or packets that arrived, oldest first, and what the next calls answer.
#[derive(Drop)]
pub struct Queue {
    arrived: VecDeque<Bytes>,
    send_fails: bool,
    room: Option<u32>,
    calls: Calls,
    send_waits: u64,
    receive_waits: u64,
    faults: u64,
}

impl Model for Queue {
    ghost Value = { QueueOf };

    ghost view = { λ q. record {
      arrived = q.arrived.items;
      send_fails = q.send_fails;
      room = q.room;
      calls = q.calls;
      counts = record { send_waits = q.send_waits; receive_waits = q.receive_waits; faults = q.faults };
    } };

    ghost invariant = { λ q. AllShort q.arrived.items };
}

/// Whether so many bytes don't fit any more.
fn is_full(room: Option<u32>, size: usize) -> bool
    ensures { result ≡ is_above room size }
{
    match room {
        None => false,
        Some(room) => (room as usize) < size,
    }
}

/// What is left of a room when so many bytes were sent.
fn left_of(room: Option<u32>, size: usize) -> Option<u32>
    requires { is_above room size ≡ false }
    ensures { result ≡ less room size }
{
    match room {
        None => None,
        Some(room) => Some((room as usize - size) as u32),
    }
}

impl Queue {
    /// What arrived, of which nothing is longer than 65,535 bytes.
    pub fn new(arrived: Seq<Bytes>, room: Option<u32>, fails: Seq<u64>) -> Queue
        requires { AllShort arrived }
        ensures { result ≡ new_queue arrived room fails }
    {
        Queue {
            arrived: VecDeque::from(arrived.into_vec()),
            send_fails: false,
            room,
            calls: Calls::new(fails),
            send_waits: 0,
            receive_waits: 0,
            faults: 0,
        }
    }

    /// The same, with no call counted.
    pub fn unused(self) -> Queue
        ensures { result ≡ record self { counts = no_port_counts } }
    {
        Queue {
            send_waits: 0,
            receive_waits: 0,
            faults: 0,
            ..self
        }
    }

    /// How often it failed.
    pub fn faults(&self) -> u64
        ensures { result ≡ self.now.counts.faults }
    {
        self.faults
    }

    /// One more arrives.
    pub fn arrive(&mut self, bytes: Bytes) -> Result<(), NoMemory>
        requires { length bytes ≤ 65535 }
        ensures ok { OnOk result (self.new ≡ record self.old { arrived = self.old.arrived ++ bytes ∷ [] }) }
        ensures err { OnErr result (self.new ≡ self.old) }
    {
        self.arrived.reserve(1)?;
        self.arrived.push_back_reserved(bytes);
        Ok(())
    }

    /// The next send fails.
    pub fn fail_next(&mut self)
        ensures { self.new ≡ record self.old { send_fails = true } }
    {
        self.send_fails = true;
    }

    /// Whether it tells what it holds.
    pub fn tells(&self) -> bool
        ensures { result ≡ is_some (told self.now) }
    {
        self.room.is_none() && self.calls.lists_none()
    }

    /// Whether a receive would now answer something other than `NotNow`.
    pub fn would_receive(&self) -> bool
        ensures { result ≡ would_receive_of self.now }
    {
        self.calls.is_next_failing() || !self.arrived.is_empty()
    }

    /// Sends one.
    pub fn send(&mut self, bytes: &[u8]) -> PortPut
        ensures answer { result ≡ put_of self.old (length bytes.now) }
        ensures after { self.new ≡ after_put self.old (length bytes.now) result }
    {
        let listed = self.calls.next_fails();
        if listed || self.send_fails || is_full(self.room, bytes.len()) {
            self.send_fails = false;
            self.faults = risen(self.faults);
            return PortPut::Failed;
        }
        self.room = left_of(self.room, bytes.len());
        PortPut::Sent
    }

    /// Receives one, whole.
    pub fn recv(&mut self, into: &mut [u8]) -> PortGot
        requires { 65535 ≤ length into.old }
        ensures answer { result ≡ got_of self.old }
        ensures datagram { GotDatagram self.old.arrived into.new result }
        ensures after { self.new ≡ after_got self.old result }
    {
        if self.calls.next_fails() {
            self.faults = risen(self.faults);
            return PortGot::Failed;
        }
        let Some(bytes) = self.arrived.pop_front() else {
            self.receive_waits = risen(self.receive_waits);
            return PortGot::NotNow;
        };
        PortGot::Datagram(put_in(into, bytes.as_slice()))
    }
}

/// Puts a datagram to the front of a buffer, and answers its length.
fn put_in(into: &mut [u8], bytes: &[u8]) -> u32
    requires { (length bytes.now ≤ 65535) × (65535 ≤ length into.old) }
    ensures value { result ≡ length bytes.now }
    ensures copied { take result into.new ≡ bytes.now }
{
    let (room, _) = into.split_at_mut(bytes.len());
    room.copy_from_slice(bytes);
    bytes.len() as u32
}
