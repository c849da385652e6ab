//! Bytes that wait in their order: those that are owed to the link, and those of capsules that aren't framed.
ghost use Rattle.std.specs.Prelude.{◌≡◌, ◌≤◌, ◌++◌, length, take, drop, OnOk, OnErr};
ghost use Rattle.mq_capsule.specs.Writing.{capsule_text, datagram};
ghost use Rattle.mq_client.specs.Sending.{data_frames};

use crate::framing::write_parts;
use mq_capsule::write_datagram;
use mq_wire::NoMemory;
use std::marker::Model;

/// The bytes that were put and weren't taken. Taken ones go once they are half of all, so that taking moves no byte more often
/// than once for each byte that was taken.
#[derive(Drop)]
pub struct Queue {
    bytes: Vec<u8>,
    taken: usize,
}

impl Model for Queue {
    ghost use Rattle.std.specs.Prelude.{ℕ, List, drop, length, ◌≤◌};

    ghost Value = { List ℕ };

    ghost view = { λ s. drop s.taken s.bytes.items };

    ghost invariant = { λ s. s.taken ≤ length s.bytes.items };
}

impl Queue {
    /// These bytes wait.
    pub fn of(bytes: Vec<u8>) -> Queue
        ensures { result ≡ bytes.items }
    {
        Queue { bytes, taken: 0 }
    }

    pub fn as_slice(&self) -> &[u8]
        ensures { result.now ≡ self.now }
    {
        let (_, waiting) = self.bytes.as_slice().split_at(self.taken);
        waiting
    }

    /// The first so many are taken.
    pub fn take(&mut self, count: usize)
        requires { count ≤ length self.old }
        ensures { self.new ≡ drop count self.old }
    {
        self.taken += count;
        if self.taken >= self.bytes.len() - self.taken {
            self.bytes.drain(..self.taken);
            self.taken = 0;
        }
    }

    /// Puts bytes at the end. An `Err` changes nothing.
    pub fn put(&mut self, bytes: &[u8]) -> Result<(), NoMemory>
        ensures ok { OnOk result (self.new ≡ self.old ++ bytes.now) }
        ensures err { OnErr result (self.new ≡ self.old) }
    {
        self.bytes.extend_from_slice(bytes)?;
        Ok(())
    }

    /// Puts a DATAGRAM capsule of context 0 with this payload. An `Err` changes nothing.
    pub fn put_datagram(&mut self, payload: &[u8]) -> Result<(), NoMemory>
        ensures ok { OnOk result (self.new ≡ self.old ++ capsule_text (datagram payload.now)) }
        ensures err { OnErr result (self.new ≡ self.old) }
    {
        // a payload of 2^62 bytes has no place in memory beside its capsule
        match write_datagram(&mut self.bytes, payload) {
            Ok(()) => Ok(()),
            Err(_) => Err(NoMemory),
        }
    }

    /// Puts DATA frames with these bytes. An `Err` changes nothing.
    pub fn put_data(&mut self, bytes: &[u8]) -> Result<(), NoMemory>
        ensures ok { OnOk result (self.new ≡ self.old ++ data_frames bytes.now) }
        ensures err { OnErr result (self.new ≡ self.old) }
    {
        let before = self.bytes.len();
        let written = write_parts(&mut self.bytes, bytes);
        if written.is_err() {
            self.bytes.truncate(before);
        }
        written
    }

    /// The first so many are left.
    pub fn keep(&mut self, count: usize)
        requires { count ≤ length self.old }
        ensures { self.new ≡ take count self.old }
    {
        self.bytes.truncate(self.taken + count);
    }
}
