//! What waits in a tunnel until it is framed.
ghost use Rattle.std.specs.Prelude.{◌≡◌, ℕ, ◌+◌, ◌-◌, ◌<◌, ◌≤◌, ◌^◌, List, [], ◌∷◌, ◌++◌, length, filter, not, IfOk, OnOk, OnErr, MatchOption};
ghost use Rattle.mq_capsule.specs.Writing.{capsule_text, datagram};
ghost use Rattle.mq_machine.specs.Done.{is_begun};
ghost use Rattle.mq_machine.specs.State.{is_packet, Waiting};
ghost use Rattle.mq_conn.specs.Queues.{a_packet, a_value, behind, capsule_of, count_of, size_of};

use crate::capsule::{Header, header_of};
use mq_talk::From;
use mq_wire::{Bytes, NoMemory};
use std::alloc::Global;
use std::collections::VecDeque;
use std::marker::Model;

/// The most packets that wait in a tunnel.
pub const MOST_PACKETS: usize = 64;

/// What waits, as its capsule: of a packet, number `n` of its origin, the bytes before it and the packet; of a control
/// value all bytes in one.
#[derive(Drop)]
pub enum Queued {
    Packet {
        from: From,
        n: u64,
        header: Header,
        packet: Bytes,
    },
    Value {
        capsule: Bytes,
    },
}

impl Queued {
    /// The bytes of its capsule, in two parts.
    pub fn parts(&self) -> (&[u8], &[u8])
        ensures { result.0.now ++ result.1.now ≡ capsule_of self.now }
    {
        match self {
            Queued::Packet { header, packet, .. } => (header.as_slice(), packet.as_slice()),
            Queued::Value { capsule } => (&[], capsule.as_slice()),
        }
    }

    /// How many they are.
    pub fn size(&self) -> usize
        ensures { result ≡ length (capsule_of self.now) }
    {
        let (front, rest) = self.parts();
        front.len() + rest.len()
    }

    /// How many packets it is.
    fn count(&self) -> usize
        ensures { result ≡ count_of self.now }
    {
        match self {
            Queued::Packet { .. } => 1,
            Queued::Value { .. } => 0,
        }
    }
}

/// What waits, oldest first, with room for 64 packets at any time, so that a packet takes no memory. `size` counts the
/// bytes of the capsules, `framed` those of the first that were framed, and `packets` the packets.
#[derive(Drop)]
pub struct Queue {
    items: VecDeque<Queued>,
    size: usize,
    framed: usize,
    packets: usize,
}

impl Model for Queue {
    ghost use Rattle.std.specs.Prelude.{List, [], map, ◌≡◌, ◌+◌, ◌<◌, ◌≤◌, ◌^◌, length, filter};
    ghost use Rattle.std.specs.VecDeque.{deque_capacity};
    ghost use Rattle.mq_machine.specs.State.{Waiting, is_packet};
    ghost use Rattle.mq_conn.specs.Queues.{waiting_of, with_framed, size_of};

    ghost Value = { List Waiting };

    ghost view = { λ s. with_framed s.framed (map waiting_of s.items.items) };

    ghost invariant = { λ s. (64 + length s.items.items ≤ deque_capacity s.items + s.packets) × (s.size ≡ size_of (map waiting_of s.items.items)) × (s.packets ≡ length (filter is_packet (map waiting_of s.items.items))) × (s.packets ≤ 64) × (s.size < 2 ^ 32) × (s.items.items ≡ [] → s.framed ≡ 0) };
}

impl Queue {
    pub fn new(alloc: Global) -> Result<Queue, NoMemory>
        ensures { IfOk result (λ q. q ≡ []) }
    {
        Ok(Queue {
            items: VecDeque::with_capacity(alloc, MOST_PACKETS)?,
            size: 0,
            framed: 0,
            packets: 0,
        })
    }

    /// How many packets wait.
    pub fn len(&self) -> usize
        ensures is { result ≡ length (filter is_packet self.now) }
        ensures few { result ≤ 64 }
    {
        self.packets
    }

    /// How many control values wait.
    pub fn values(&self) -> usize
        ensures { result ≡ length (filter (λ w. not (is_packet w)) self.now) }
    {
        self.items.len() - self.packets
    }

    /// How many bytes the capsules have.
    pub fn size(&self) -> usize
        ensures { result ≡ size_of self.now }
    {
        self.size
    }

    /// Whether a part of the first capsule was framed.
    pub fn is_begun(&self) -> bool
        ensures { result ≡ is_begun self.now }
    {
        self.framed > 0
    }

    /// How many bytes of the first capsule were framed.
    pub fn framed(&self) -> usize
        ensures { (w : Waiting) (rest : List Waiting) → self.now ≡ w ∷ rest → result ≡ w.framed }
    {
        self.framed
    }

    /// What waits first.
    pub fn first(&self) -> Option<&Queued>
        ensures { MatchOption result (self.now ≡ []) (λ p. (framed : ℕ) × (rest : List Waiting) × (self.now ≡ behind framed p.now ∷ rest) × (length (capsule_of p.now) < 2 ^ 32)) }
    {
        self.items.front()
    }

    /// How many bytes of the first capsule are left to be framed.
    pub fn left(&self) -> Option<usize>
        ensures { MatchOption result (self.now ≡ []) (λ n. (w : Waiting) × (rest : List Waiting) × (self.now ≡ w ∷ rest) × (n ≡ length w.capsule - w.framed) × (n < 2 ^ 32)) }
    {
        let Some(first) = self.first() else {
            return None;
        };
        Some(first.size().saturating_sub(self.framed()))
    }

    /// Takes what waits first.
    pub fn pop(&mut self) -> Option<Queued>
        ensures { MatchOption result ((self.old ≡ []) × (self.new ≡ [])) (λ p. (framed : ℕ) × (self.old ≡ behind framed p ∷ self.new)) }
    {
        let first = self.items.pop_front()?;
        self.size -= first.size();
        self.packets -= first.count();
        self.framed = 0;
        Some(first)
    }

    /// So many more bytes of the first capsule were framed.
    pub fn advance(&mut self, count: usize)
        ensures { (w : Waiting) (rest : List Waiting) → self.old ≡ w ∷ rest → w.framed + count ≤ length w.capsule → self.new ≡ record w { framed = w.framed + count } ∷ rest }
    {
        if !self.items.is_empty() {
            self.framed = self.framed.saturating_add(count);
        }
    }

    /// A packet waits last.
    pub fn push(&mut self, from: From, n: u64, packet: Bytes)
        requires few { length (filter is_packet self.old) < 64 }
        requires small { size_of self.old + length (capsule_text (datagram packet)) ≤ 1048576 }
        ensures { self.new ≡ self.old ++ a_packet from n packet ∷ [] }
    {
        let header = header_of(packet.as_slice().len());
        let last = Queued::Packet {
            from,
            n,
            header,
            packet,
        };
        self.size += last.size();
        self.packets += 1;
        self.items.push_back_reserved(last);
    }

    /// A control value waits last, whose whole capsule this is. It may be refused memory. All capsules are kept below
    /// 2^32 bytes, so that a note can count the bytes of a part.
    pub fn push_value(&mut self, capsule: Bytes) -> Result<(), NoMemory>
        ensures ok { OnOk result (self.new ≡ self.old ++ a_value capsule ∷ []) }
        ensures err { OnErr result (self.new ≡ self.old) }
    {
        let last = Queued::Value { capsule };
        let Ok(size) = u32::try_from(self.size.saturating_add(last.size())) else {
            return Err(NoMemory);
        };
        self.items.reserve(MOST_PACKETS - self.packets + 1)?;
        self.items.push_back_reserved(last);
        self.size = size as usize;
        Ok(())
    }
}
